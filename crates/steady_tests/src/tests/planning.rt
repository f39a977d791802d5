//! Plans and prices.

use super::plans::{
    CHAIN_MESSAGES, CHAIN_PLAN, DIAMOND_PLAN, FRACTION_PLAN, HALVES_PLAN, LONE_MASTER_PLAN,
    ONE_WORKER_PLAN, ONLY_BACK_PLAN, OUT_OF_REACH_PLAN, SMALL_CLUSTER_PLAN, TWO_WORKERS_MESSAGES,
    TWO_WORKERS_PLAN, TWO_WORKERS_PRICES,
};
use super::platforms::{
    BACK_LINK, CHAIN, DIAMOND, FINE_TIMES, FRACTION, HALVES, LONE_MASTER, LONG_TIMES, ONE_WORKER,
    ONLY_BACK, OUT_OF_REACH, SIX_TARGETS, SMALL_CLUSTER, TWO_WORKERS,
};
use super::runs::{Run, SOUND, end_so};
use std::test::Fail;
use steady_top::Status;

const PLAN: Run = Run {
    words: &["plan", "P"],
    files: [LONE_MASTER, ""],
    changes: &[],
    devices: SOUND,
    status: Status::Done,
    text: LONE_MASTER_PLAN,
};

static PLANS: [Run; 22] = [
    PLAN,
    Run {
        words: &["plan", "P", "--series", "scatter"],
        files: [TWO_WORKERS, ""],
        text: TWO_WORKERS_MESSAGES,
        ..PLAN
    },
    Run {
        words: &["plan", "P", "--series", "scatter"],
        files: [CHAIN, ""],
        text: CHAIN_MESSAGES,
        ..PLAN
    },
    Run {
        words: &["plan", "P", "--series", "scatter"],
        status: Status::Platform,
        text: "error: platform: no targets\n",
        ..PLAN
    },
    Run {
        words: &["prices", "P", "--series", "scatter"],
        status: Status::Platform,
        text: "error: platform: no targets\n",
        ..PLAN
    },
    Run {
        words: &["plan", "P", "--series", "scatter"],
        files: [SIX_TARGETS, ""],
        status: Status::Overflow,
        text: "error: period overflow at costs: 999835010541675870768950170379 and 999931\n",
        ..PLAN
    },
    Run {
        files: [ONE_WORKER, ""],
        text: ONE_WORKER_PLAN,
        ..PLAN
    },
    Run {
        files: [BACK_LINK, ""],
        text: ONE_WORKER_PLAN,
        ..PLAN
    },
    Run {
        files: [TWO_WORKERS, ""],
        text: TWO_WORKERS_PLAN,
        ..PLAN
    },
    Run {
        files: [HALVES, ""],
        text: HALVES_PLAN,
        ..PLAN
    },
    Run {
        files: [CHAIN, ""],
        text: CHAIN_PLAN,
        ..PLAN
    },
    Run {
        files: [DIAMOND, ""],
        text: DIAMOND_PLAN,
        ..PLAN
    },
    Run {
        files: [SMALL_CLUSTER, ""],
        text: SMALL_CLUSTER_PLAN,
        ..PLAN
    },
    Run {
        files: [FRACTION, ""],
        text: FRACTION_PLAN,
        ..PLAN
    },
    Run {
        files: [OUT_OF_REACH, ""],
        text: OUT_OF_REACH_PLAN,
        ..PLAN
    },
    Run {
        files: [ONLY_BACK, ""],
        text: ONLY_BACK_PLAN,
        ..PLAN
    },
    Run {
        files: [FINE_TIMES, ""],
        status: Status::Overflow,
        text: "error: ticks overflow: lcm of 999997000002 and 999997\n",
        ..PLAN
    },
    Run {
        files: [LONG_TIMES, ""],
        status: Status::Overflow,
        text: "error: period overflow at denominators: 333327333372666550666818999930 and 999991\n",
        ..PLAN
    },
    Run {
        words: &["plan", "P", "--pivots", "0"],
        status: Status::Spent,
        text: "error: pivot limit 0 spent\n",
        ..PLAN
    },
    Run {
        words: &["prices", "P", "--pivots", "0"],
        status: Status::Spent,
        text: "error: pivot limit 0 spent\n",
        ..PLAN
    },
    Run {
        words: &["plan", "P", "--pivots=1"],
        ..PLAN
    },
    Run {
        words: &["prices", "P"],
        files: [TWO_WORKERS, ""],
        text: TWO_WORKERS_PRICES,
        ..PLAN
    },
];

#[test]
fn plans_platforms(rt: HostRuntime) -> Result<(), Fail> {
    end_so(rt.alloc(), &PLANS)
}
