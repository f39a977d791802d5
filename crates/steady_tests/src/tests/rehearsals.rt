//! Plans rehearsed over data.

use super::platforms::{CHAIN, LONE_MASTER, ONE_WORKER, OUT_OF_REACH};
use super::runs::{Run, SOUND, end_so, ends_over_bytes};
use std::alloc::Global;
use std::test::Fail;
use steady_top::Status;

/// The chain's plan and its run over `abcde`, a byte a chunk: chunks 0, 2 and 4 go to the first worker, 1 and 3 to the second.
const REHEARSAL: Run = Run {
    words: &["rehearse", "P", "C", "--chunk", "1"],
    files: [CHAIN, "abcde"],
    changes: &[],
    devices: SOUND,
    status: Status::Done,
    text: "plan 1 tasking\nunit 1\nperiod 2\ntasks 2\ndepth 2\nrate 1/1\nroute 0 1 m a\nroute 1 1 m a b\nslot 1 0:1 2:1\nslot 1 1:1\nend\nrun 1 chunks 5 batches 3 periods 5 events 26\ndigest 0 ca978112ca1bbdcafac231b39a23dc4da786eff8147c4e72b9807785afee48bb\ndigest 1 3e23e8160039594a33894f6564e1b1348bbd7a0088d42c4acb73eeaed59c009d\ndigest 2 2e7d2c03a9507ae265ecf5b5356885a53393a2029d241394997265a1a25aefc6\ndigest 3 18ac3e7343f016890c510e93f935261169d9e3f565436429830faf0934f4f8e4\ndigest 4 3f79bb7b435b05321651daefd374cdc681dc06faa65e374e38337b88ca046dea\nnode m 0\nnode a 3\nnode b 2\nend\n",
};

static REHEARSALS: [Run; 11] = [
    REHEARSAL,
    Run {
        words: &["rehearse", "P", "C", "--chunk", "1", "--seed", "1"],
        ..REHEARSAL
    },
    Run {
        words: &["rehearse", "P", "C", "--chunk=001", "--seed=2"],
        ..REHEARSAL
    },
    Run {
        words: &["rehearse", "P", "C"],
        files: [ONE_WORKER, "a"],
        text: "plan 1 tasking\nunit 1\nperiod 3\ntasks 1\ndepth 1\nrate 1/3\nroute 0 1 m w\nslot 3 0:1\nend\nrun 1 chunks 1 batches 1 periods 2 events 4\ndigest 0 ca978112ca1bbdcafac231b39a23dc4da786eff8147c4e72b9807785afee48bb\nnode m 0\nnode w 1\nend\n",
        ..REHEARSAL
    },
    Run {
        words: &["rehearse", "P", "C", "--chunk", "3"],
        files: [LONE_MASTER, "abc"],
        text: "plan 1 tasking\nunit 1\nperiod 2\ntasks 1\ndepth 0\nrate 1/2\nroute 0 1 m\nslot 2\nend\nrun 1 chunks 1 batches 1 periods 1 events 1\ndigest 0 ba7816bf8f01cfea414140de5dae2223b00361a396177a9cb410ff61f20015ad\nnode m 1\nend\n",
        ..REHEARSAL
    },
    Run {
        words: &["rehearse", "P", "C"],
        files: [OUT_OF_REACH, ""],
        text: "plan 1 tasking\nunit 1\nperiod 1\ntasks 0\ndepth 0\nrate 0/1\nslot 1\nend\nrun 1 chunks 0 batches 0 periods 0 events 0\nnode m 0\nnode w 0\nend\n",
        ..REHEARSAL
    },
    Run {
        words: &["rehearse", "P", "C"],
        files: [OUT_OF_REACH, "a"],
        status: Status::Platform,
        text: "error: no node that can be reached computes\n",
        ..REHEARSAL
    },
    Run {
        words: &["rehearse", "P", "C", "--pivots", "0"],
        status: Status::Spent,
        text: "error: pivot limit 0 spent\n",
        ..REHEARSAL
    },
    Run {
        words: &["rehearse", "P", "Q"],
        status: Status::ReadFault,
        text: "error: cannot read Q\n",
        ..REHEARSAL
    },
    Run {
        words: &["rehearse", "P", "C", "--chunk", "0"],
        status: Status::Usage,
        text: "error: usage\n",
        ..REHEARSAL
    },
    Run {
        words: &["rehearse", "P", "C", "--seed", "18446744073709551616"],
        status: Status::Usage,
        text: "error: usage\n",
        ..REHEARSAL
    },
];

/// Half of the chunks have 4 events and half of them 7: 5,500,000 events.
static TOO_LONG: Run = Run {
    status: Status::TooLong,
    text: "error: too long: events\n",
    ..REHEARSAL
};

fn too_long(alloc: Global, data: &[u8]) -> Result<(), Fail> {
    ends_over_bytes(alloc, CHAIN.as_bytes(), data, &TOO_LONG)
}

#[test]
fn rehearses_plans(rt: HostRuntime) -> Result<(), Fail> {
    end_so(rt.alloc(), &REHEARSALS)
}

#[test]
fn refuses_a_million_chunks(rt: HostRuntime) -> Result<(), Fail> {
    too_long(rt.alloc(), &vec![in rt.alloc(); 97; 1000000]?)
}
