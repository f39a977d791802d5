//! Certificates checked.

use super::plans::{TWO_WORKERS_MESSAGE_PRICES, TWO_WORKERS_PRICES};
use super::platforms::{LONE_MASTER, TWO_WORKERS};
use super::runs::{Run, SOUND, end_so};
use std::test::Fail;
use steady_top::Status;

const CHECK: Run = Run {
    words: &["check", "P", "C"],
    files: [TWO_WORKERS, TWO_WORKERS_PRICES],
    changes: &[],
    devices: SOUND,
    status: Status::Done,
    text: "upper 4 tasks per 6 ticks, unit 1\n",
};

const GREAT_PRICE: &str =
    "prices 1 tasking\nrows 3\nscale 2\nbest 1\nprice 0 170141183460469231731687303715884105727\nprice 1 0\nprice 2 0\nend\n";

static CHECKS: [Run; 14] = [
    CHECK,
    Run {
        words: &["check", "P", "C", "--series", "scatter"],
        files: [TWO_WORKERS, TWO_WORKERS_MESSAGE_PRICES],
        text: "upper 1 tasks per 3 ticks, unit 1\n",
        ..CHECK
    },
    Run {
        words: &["check", "P", "C", "--series", "scatter"],
        files: [TWO_WORKERS, TWO_WORKERS_MESSAGE_PRICES],
        changes: &[("price 9 2", "price 9 1", 1)],
        status: Status::Refused,
        text: "error: certificate: column 0\n",
        ..CHECK
    },
    Run {
        words: &["check", "P", "C", "--series", "scatter"],
        status: Status::Refused,
        text: "error: certificate: line 1\n",
        ..CHECK
    },
    Run {
        words: &["check", "P", "C", "--series", "scatter"],
        files: [LONE_MASTER, "no certificate"],
        status: Status::Platform,
        text: "error: platform: no targets\n",
        ..CHECK
    },
    Run {
        changes: &[("best 4", "best 5", 1)],
        text: "upper 5 tasks per 6 ticks, unit 1\n",
        ..CHECK
    },
    Run {
        changes: &[("price 2 3", "price 2 2", 1)],
        status: Status::Refused,
        text: "error: certificate: column 2\n",
        ..CHECK
    },
    Run {
        changes: &[("price 3 0", "price 3 -1", 1)],
        status: Status::Refused,
        text: "error: certificate: price 3 negative\n",
        ..CHECK
    },
    Run {
        changes: &[("best 4", "best 3", 1)],
        status: Status::Refused,
        text: "error: certificate: value\n",
        ..CHECK
    },
    Run {
        changes: &[("rows 10", "rows 9", 1)],
        status: Status::Refused,
        text: "error: certificate: line 2\n",
        ..CHECK
    },
    Run {
        changes: &[("price 7 0", "price 7 00", 1)],
        status: Status::Refused,
        text: "error: certificate: line 12\n",
        ..CHECK
    },
    Run {
        changes: &[("end\n", "end\n\n", 1)],
        status: Status::Refused,
        text: "error: certificate: line 16\n",
        ..CHECK
    },
    Run {
        files: [LONE_MASTER, GREAT_PRICE],
        status: Status::Overflow,
        text: "error: check overflow at column 0\n",
        ..CHECK
    },
    Run {
        files: [TWO_WORKERS, "#"],
        changes: &[("#", "1", 1048577)],
        status: Status::TooLong,
        text: "error: too long: certificate\n",
        ..CHECK
    },
];

#[test]
fn checks_certificates(rt: HostRuntime) -> Result<(), Fail> {
    end_so(rt.alloc(), &CHECKS)
}
