//! Refusals of pivots and periods, and the numbers of the statuses.

use super::runs::sink;
use outside_io::MemorySink;
use planner::{PeriodStep, PlanFault};
use std::alloc::Global;
use std::test::Fail;
use steady_top::{Status, TopFault, refuse};

/// Why a platform isn't planned, and how the program ends and what it writes.
static FAULTS: [(PlanFault, Status, &str); 4] = [
    (
        PlanFault::Pivot {
            pivots: 7,
            row: 1,
            column: 2,
        },
        Status::Overflow,
        "error: pivot overflow after 7 pivots at cell 1 2\n",
    ),
    (
        PlanFault::Spent { limit: 100000 },
        Status::Spent,
        "error: pivot limit 100000 spent\n",
    ),
    (
        PlanFault::Period {
            step: PeriodStep::Costs,
            left: 6,
            right: 35,
        },
        Status::Overflow,
        "error: period overflow at costs: 6 and 35\n",
    ),
    (
        PlanFault::Period {
            step: PeriodStep::Product,
            left: 6,
            right: 35,
        },
        Status::Overflow,
        "error: period overflow at product: 6 and 35\n",
    ),
];

fn writes(
    alloc: Global,
    fault: PlanFault,
    out: &mut MemorySink,
    status: Status,
    text: &str,
) -> bool {
    refuse(alloc, &TopFault::from(fault), out) == status && out.written() == text.as_bytes()
}

fn refuses(alloc: Global, row: &(PlanFault, Status, &str)) -> Result<bool, Fail> {
    Ok(writes(alloc, row.0, &mut sink(alloc, 4096, &[])?, row.1, row.2))
}

#[test]
fn names_pivots_and_periods(rt: HostRuntime) -> Result<(), Fail> {
    for row in &FAULTS {
        if !refuses(rt.alloc(), row)? {
            return Err(row.2.into());
        }
    }
    Ok(())
}

static CODES: [(Status, u8); 10] = [
    (Status::Done, 0),
    (Status::Usage, 1),
    (Status::Platform, 2),
    (Status::Overflow, 3),
    (Status::Spent, 4),
    (Status::ReadFault, 5),
    (Status::WriteFault, 6),
    (Status::NoMemory, 7),
    (Status::TooLong, 8),
    (Status::Refused, 9),
];

#[test]
fn statuses_have_their_numbers(_rt: HostRuntime) -> Result<(), Fail> {
    for (status, code) in &CODES {
        if status.code() != *code {
            return Err(Fail::new(format_args!("{status:?}")));
        }
    }
    Ok(())
}
