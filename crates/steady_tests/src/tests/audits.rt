//! Plans audited.

use super::plans::{CHAIN_PLAN, TWO_WORKERS_PLAN};
use super::platforms::{CHAIN, TWO_WORKERS};
use super::runs::{Run, SOUND, end_so};
use std::test::Fail;
use steady_top::Status;

/// The plan of two workers, audited over two periods.
const AUDIT: Run = Run {
    words: &["audit", "P", "C", "--periods", "2"],
    files: [TWO_WORKERS, TWO_WORKERS_PLAN],
    changes: &[],
    devices: SOUND,
    status: Status::Done,
    text: "audit 1 periods 2 ticks 6 completed 2\n",
};

/// The last one: three sends and two computations a period are five million operations.
static AUDITS: [Run; 11] = [
    AUDIT,
    Run {
        words: &["audit", "P", "C", "--periods", "0"],
        text: "audit 1 periods 0 ticks 0 completed 0\n",
        ..AUDIT
    },
    Run {
        words: &["audit", "P", "C"],
        text: "audit 1 periods 4 ticks 12 completed 6\n",
        ..AUDIT
    },
    Run {
        changes: &[("slot 1 0:1\nslot 2 1:1", "slot 3 0:1 1:1", 1)],
        status: Status::Refused,
        text: "error: schedule: operation 1: send port\n",
        ..AUDIT
    },
    Run {
        changes: &[("rate 2/3", "rate 3/4", 1)],
        status: Status::Refused,
        text: "error: plan: line 6\n",
        ..AUDIT
    },
    Run {
        changes: &[("rate 2/3", "rate 4/6", 1)],
        status: Status::Refused,
        text: "error: plan: line 6\n",
        ..AUDIT
    },
    Run {
        changes: &[("tasks 2", "tasks 02", 1)],
        status: Status::Refused,
        text: "error: plan: line 4\n",
        ..AUDIT
    },
    Run {
        changes: &[("route 1 1 m v", "route 1 1 v m", 1)],
        status: Status::Refused,
        text: "error: plan: line 8\n",
        ..AUDIT
    },
    Run {
        changes: &[("end\n", "end\n\n", 1)],
        status: Status::Refused,
        text: "error: plan: line 12\n",
        ..AUDIT
    },
    Run {
        words: &["audit", "P", "C"],
        files: [TWO_WORKERS, "#"],
        changes: &[("#", "1", 4194305)],
        status: Status::TooLong,
        text: "error: too long: plan\n",
        ..AUDIT
    },
    Run {
        words: &["audit", "P", "C", "--periods", "1000000"],
        files: [CHAIN, CHAIN_PLAN],
        status: Status::TooLong,
        text: "error: too long: operations\n",
        ..AUDIT
    },
];

#[test]
fn audits_plans(rt: HostRuntime) -> Result<(), Fail> {
    end_so(rt.alloc(), &AUDITS)
}
