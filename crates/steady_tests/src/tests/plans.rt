//! The plans and the certificate of the platforms.

pub const LONE_MASTER_PLAN: &str =
    "plan 1 tasking\nunit 1\nperiod 2\ntasks 1\ndepth 0\nrate 1/2\nroute 0 1 m\nslot 2\nend\n";

pub const ONE_WORKER_PLAN: &str =
    "plan 1 tasking\nunit 1\nperiod 3\ntasks 1\ndepth 1\nrate 1/3\nroute 0 1 m w\nslot 3 0:1\nend\n";

pub const TWO_WORKERS_PLAN: &str =
    "plan 1 tasking\nunit 1\nperiod 3\ntasks 2\ndepth 1\nrate 2/3\nroute 0 1 m u\nroute 1 1 m v\nslot 1 0:1\nslot 2 1:1\nend\n";

pub const HALVES_PLAN: &str =
    "plan 1 tasking\nunit 2\nperiod 3\ntasks 1\ndepth 1\nrate 2/3\nroute 0 1 m w\nslot 1 0:1\nslot 2\nend\n";

pub const CHAIN_PLAN: &str =
    "plan 1 tasking\nunit 1\nperiod 2\ntasks 2\ndepth 2\nrate 1/1\nroute 0 1 m a\nroute 1 1 m a b\nslot 1 0:1 2:1\nslot 1 1:1\nend\n";

pub const DIAMOND_PLAN: &str =
    "plan 1 tasking\nunit 1\nperiod 40\ntasks 16\ndepth 2\nrate 2/5\nroute 0 4 s a d\nroute 1 12 s b d\nslot 4 0:4 1:1\nslot 12 1:3 2:4\nslot 24 2:8 3:12\nend\n";

pub const SMALL_CLUSTER_PLAN: &str =
    "plan 1 tasking\nunit 2\nperiod 8\ntasks 8\ndepth 2\nrate 2/1\nroute 0 1 front\nroute 1 2 front r1\nroute 2 1 front r2\nroute 3 4 front r1 g1\nslot 4 0:2 2:2 3:4\nslot 2 2:2\nslot 2 1:1\nend\n";

pub const FRACTION_PLAN: &str =
    "plan 1 tasking\nunit 2\nperiod 3\ntasks 1\ndepth 0\nrate 2/3\nroute 0 1 m\nslot 3\nend\n";

pub const OUT_OF_REACH_PLAN: &str =
    "plan 1 tasking\nunit 1\nperiod 1\ntasks 0\ndepth 0\nrate 0/1\nslot 1\nend\n";

/// 5/3 time units are 10 ticks of a sixth.
pub const ONLY_BACK_PLAN: &str =
    "plan 1 tasking\nunit 6\nperiod 10\ntasks 1\ndepth 0\nrate 3/5\nroute 0 1 m\nslot 10\nend\n";

/// The certificate of two workers.
pub const TWO_WORKERS_PRICES: &str =
    "prices 1 tasking\nrows 10\nscale 6\nbest 4\nprice 0 1\nprice 1 0\nprice 2 3\nprice 3 0\nprice 4 0\nprice 5 0\nprice 6 0\nprice 7 0\nprice 8 3\nprice 9 6\nend\n";

/// A message for each of two workers.
pub const TWO_WORKERS_MESSAGES: &str =
    "plan 1 scatter\nunit 1\nperiod 3\ntasks 1\ndepth 1\nrate 1/3\nroute 0 1 m u\nroute 1 1 m v\nslot 1 0:1\nslot 2 1:1\nend\n";

/// A message for each node of a chain, the second one relayed.
pub const CHAIN_MESSAGES: &str =
    "plan 1 scatter\nunit 1\nperiod 2\ntasks 1\ndepth 2\nrate 1/2\nroute 0 1 m a\nroute 1 1 m a b\nslot 1 0:1 2:1\nslot 1 1:1\nend\n";

/// The master's send port, a tick for the first worker's message and two for the second's.
pub const TWO_WORKERS_MESSAGE_PRICES: &str =
    "prices 1 scatter\nrows 10\nscale 3\nbest 1\nprice 0 1\nprice 1 0\nprice 2 0\nprice 3 0\nprice 4 0\nprice 5 0\nprice 6 1\nprice 7 0\nprice 8 0\nprice 9 2\nend\n";
