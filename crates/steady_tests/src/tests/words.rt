//! Words that are no command.

use super::platforms::LONE_MASTER;
use super::runs::{Run, SOUND, end_so};
use std::test::Fail;
use steady_top::Status;

const USAGE: Run = Run {
    words: &[],
    files: [LONE_MASTER, ""],
    changes: &[],
    devices: SOUND,
    status: Status::Usage,
    text: "error: usage\n",
};

static USAGES: [Run; 18] = [
    USAGE,
    Run {
        words: &["help"],
        ..USAGE
    },
    Run {
        words: &["plan"],
        ..USAGE
    },
    Run {
        words: &["plan", "-P"],
        ..USAGE
    },
    Run {
        words: &["plan", "P", "P"],
        ..USAGE
    },
    Run {
        words: &["plan", "P", "--pivots", "x"],
        ..USAGE
    },
    Run {
        words: &["plan", "P", "--series", "tree"],
        ..USAGE
    },
    Run {
        words: &["plan", "P", "--help"],
        ..USAGE
    },
    Run {
        words: &["prices"],
        ..USAGE
    },
    Run {
        words: &["prices", "-P"],
        ..USAGE
    },
    Run {
        words: &["audit"],
        ..USAGE
    },
    Run {
        words: &["audit", "P"],
        ..USAGE
    },
    Run {
        words: &["audit", "P", "-C"],
        ..USAGE
    },
    Run {
        words: &["audit", "P", "C", "--periods", "1000001"],
        ..USAGE
    },
    Run {
        words: &["audit", "P", "C", "--series", "tasking"],
        ..USAGE
    },
    Run {
        words: &["check", "P"],
        ..USAGE
    },
    Run {
        words: &["check", "P", "-P"],
        ..USAGE
    },
    Run {
        words: &["check", "P", "P", "P"],
        ..USAGE
    },
];

#[test]
fn refuses_words(rt: HostRuntime) -> Result<(), Fail> {
    end_so(rt.alloc(), &USAGES)
}
