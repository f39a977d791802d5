//! What is wrong with a platform file.

use super::platforms::{CUT_SHORT, ONE_WORKER};
use super::runs::{Run, SOUND, end_so, ends_over_bytes};
use std::test::Fail;
use steady_top::Status;

const FAULT: Run = Run {
    words: &["plan", "P"],
    files: [ONE_WORKER, ""],
    changes: &[],
    devices: SOUND,
    status: Status::Platform,
    text: "error: platform: not TOML\n",
};

/// A platform file in which N, L and T stand for nodes, links and targets.
const CROWD: &str = "version = 1\nmaster = 'm'\nnode = [N]\nlink = [L]\ntargets = [T]";

static FAULTS: [Run; 19] = [
    Run {
        files: [CUT_SHORT, ""],
        ..FAULT
    },
    Run {
        changes: &[(
            r#"{from = "m", to = "w", cost = 3}"#,
            r#"{from = "m", to = "w", cost = 3}, {from = "m", to = "w", cost = 3}"#,
            1,
        )],
        text: "error: platform: link 1 given twice\n",
        ..FAULT
    },
    Run {
        changes: &[(r#"to = "w""#, r#"to = "m""#, 1)],
        text: "error: platform: link 0 joins a node to itself\n",
        ..FAULT
    },
    Run {
        changes: &[("cost = 3", "cost = 0", 1)],
        text: "error: platform: bad ratio at link 0.cost: zero\n",
        ..FAULT
    },
    Run {
        changes: &[("cost = 3", "cost = -3", 1)],
        text: "error: platform: bad ratio at link 0.cost: shape\n",
        ..FAULT
    },
    Run {
        changes: &[("cost = 3", r#"cost = "1/1000001""#, 1)],
        text: "error: platform: bad ratio at link 0.cost: too large\n",
        ..FAULT
    },
    Run {
        changes: &[(r#"to = "w""#, r#"to = "x""#, 1)],
        text: "error: platform: unknown name at link 0.to\n",
        ..FAULT
    },
    Run {
        changes: &[(r#"to = "w", cost = 3"#, r#"to = "x", cost = 0"#, 1)],
        text: "error: platform: bad ratio at link 0.cost: zero\n",
        ..FAULT
    },
    Run {
        changes: &[("version = 1", "version = 2", 1)],
        text: "error: platform: bad field top.version\n",
        ..FAULT
    },
    Run {
        changes: &[("time = 2", "time = true", 1)],
        text: "error: platform: bad field node 1.time\n",
        ..FAULT
    },
    Run {
        changes: &[("version = 1", "version = 1\ntargets = [\"w\", \"x\"]", 1)],
        text: "error: platform: unknown name at target 1\n",
        ..FAULT
    },
    Run {
        changes: &[("version = 1", "version = 1\ntargets = [\"m\"]", 1)],
        text: "error: platform: target 0 is the master\n",
        ..FAULT
    },
    Run {
        changes: &[("version = 1", "version = 1\ntargets = [\"w\", \"w\"]", 1)],
        text: "error: platform: target 1 named twice\n",
        ..FAULT
    },
    Run {
        changes: &[(r#"{name = "m"}"#, r#"{name = "w"}"#, 1)],
        text: "error: platform: node 1 named twice\n",
        ..FAULT
    },
    Run {
        changes: &[(r#"{name = "m"}"#, r#"{name = "n"}"#, 1)],
        text: "error: platform: unknown name at top.master\n",
        ..FAULT
    },
    Run {
        files: [CROWD, ""],
        changes: &[("N", "{},", 33), ("L", "{},", 129), ("T", "'t',", 9)],
        text: "error: platform: too many nodes: 33\n",
        ..FAULT
    },
    Run {
        files: [CROWD, ""],
        changes: &[("N", "{},", 1), ("L", "{},", 129), ("T", "'t',", 9)],
        text: "error: platform: too many links: 129\n",
        ..FAULT
    },
    Run {
        files: [CROWD, ""],
        changes: &[("N", "{},", 1), ("L", "{},", 0), ("T", "'t',", 9)],
        text: "error: platform: too many targets: 9\n",
        ..FAULT
    },
    Run {
        files: ["#", ""],
        changes: &[("#", "#", 2000000)],
        text: "error: platform: text of 1048577 bytes\n",
        ..FAULT
    },
];

/// Bytes that are no text.
static NO_TEXT: Run = Run {
    files: ["no text", ""],
    ..FAULT
};

#[test]
fn names_what_is_wrong(rt: HostRuntime) -> Result<(), Fail> {
    ends_over_bytes(rt.alloc(), b"\xff", b"", &NO_TEXT)?;
    end_so(rt.alloc(), &FAULTS)
}
