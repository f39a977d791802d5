//! Files and sinks that fail, and the order of reading.

use super::platforms::{CUT_SHORT, LONE_MASTER, TWO_WORKERS};
use super::runs::{Run, SOUND, end_so};
use std::test::Fail;
use steady_top::Status;

/// The open of the platform fails.
const READING: Run = Run {
    words: &["plan", "P"],
    files: [LONE_MASTER, ""],
    changes: &[],
    devices: (&[0], 4096, &[]),
    status: Status::ReadFault,
    text: "error: cannot read P\n",
};

/// What fails: the second write, the open, the read, the read at the end, and the open and the second write.
static DEVICES: [Run; 5] = [
    Run {
        devices: (&[], 10, &[1]),
        status: Status::WriteFault,
        text: "plan 1 tas",
        ..READING
    },
    READING,
    Run {
        devices: (&[1], 4096, &[]),
        ..READING
    },
    Run {
        devices: (&[2], 4096, &[]),
        ..READING
    },
    Run {
        devices: (&[0], 7, &[1]),
        status: Status::WriteFault,
        text: "error: ",
        ..READING
    },
];

/// The file that can't be read is named, and the platform is read before the second file.
static ORDERS: [Run; 9] = [
    Run {
        words: &["plan", "nofile"],
        devices: SOUND,
        text: "error: cannot read nofile\n",
        ..READING
    },
    Run {
        words: &["check", "nofile", "C"],
        files: [TWO_WORKERS, ""],
        devices: SOUND,
        text: "error: cannot read nofile\n",
        ..READING
    },
    Run {
        words: &["check", "P", "nofile"],
        files: [TWO_WORKERS, ""],
        devices: SOUND,
        text: "error: cannot read nofile\n",
        ..READING
    },
    Run {
        words: &["check", "P", "C"],
        files: [TWO_WORKERS, ""],
        devices: (&[3], 4096, &[]),
        text: "error: cannot read C\n",
        ..READING
    },
    Run {
        words: &["check", "P", "nofile"],
        files: [CUT_SHORT, ""],
        devices: SOUND,
        status: Status::Platform,
        text: "error: platform: not TOML\n",
        ..READING
    },
    Run {
        words: &["audit", "nofile", "C"],
        files: [TWO_WORKERS, ""],
        devices: SOUND,
        text: "error: cannot read nofile\n",
        ..READING
    },
    Run {
        words: &["audit", "P", "nofile"],
        files: [TWO_WORKERS, ""],
        devices: SOUND,
        text: "error: cannot read nofile\n",
        ..READING
    },
    Run {
        words: &["audit", "P", "C"],
        files: [TWO_WORKERS, ""],
        devices: (&[3], 4096, &[]),
        text: "error: cannot read C\n",
        ..READING
    },
    Run {
        words: &["audit", "P", "nofile"],
        files: [CUT_SHORT, ""],
        devices: SOUND,
        status: Status::Platform,
        text: "error: platform: not TOML\n",
        ..READING
    },
];

#[test]
fn meets_failing_devices(rt: HostRuntime) -> Result<(), Fail> {
    end_so(rt.alloc(), &DEVICES)
}

#[test]
fn reads_the_platform_first(rt: HostRuntime) -> Result<(), Fail> {
    end_so(rt.alloc(), &ORDERS)
}
