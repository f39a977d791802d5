//! The programme of a chain of workers: node 0 has the tasks and doesn't compute, and each node sends to the next.

ghost use Rattle.std.specs.Prelude.{◌≡◌, ℕ, ℤ, pos, ◌+◌, ◌*◌, ◌^◌, ◌<◌, ◌≤◌, ◌≤ℤ◌, nat_abs, All, length, cond, nat_lt, slice_index_or, OnOk, IfOk, [], ◌∷◌, ◌++◌};
ghost use Rattle.linear_program.specs.Programmes.{IsRow};
ghost use Rattle.linear_program.specs.Duality.{IsBounded};
ghost use Rattle.bench_loads.specs.Chains.{IsChain};

use linear_program::{Lp, Row};
use listed::{Listed, NoMemory};
use std::alloc::Global;

/// The most workers of a chain.
pub const MOST_WORKERS: u32 = 1000;

/// The time of a task at a worker, in ticks.
fn time_of(worker: u32) -> i128
    ensures least { pos 1 ≤ℤ result }
    ensures most { result ≤ℤ pos 15 }
{
    i128::from(5 + worker % 11 * 7 % 11)
}

/// The cost of a task on the link to a worker, in ticks.
fn cost_of(worker: u32) -> i128
    ensures least { pos 1 ≤ℤ result }
    ensures most { result ≤ℤ pos 7 }
{
    i128::from(1 + worker % 7 * 5 % 7)
}

/// Appends a row of these cells.
fn push_row(
    alloc: Global,
    rows: &mut Listed<Row>,
    cells: &[(u32, i128)],
    rhs: i128,
) -> Result<(), NoMemory>
    ensures { OnOk result (rows.new ≡ rows.old ++ record { cells = cells.now; rhs = rhs } ∷ []) }
{
    let mut listed = Listed::new(alloc);
    for cell in cells {
        listed.push(*cell)?;
    }
    rows.push(Row::new(listed, rhs))
}

/// Appends the row of a worker's time: what it computes in a tick takes at most the tick.
fn push_time(
    alloc: Global,
    rows: &mut Listed<Row>,
    workers: u32,
    worker: u32,
) -> Result<(), NoMemory>
    requires few { workers ≤ 1000 }
    requires next { worker ≡ length rows.old }
    requires left { worker < workers }
    requires chain { IsChain workers rows.old }
    ensures chain { OnOk result (IsChain workers rows.new) }
    ensures length { OnOk result (length rows.new ≡ length rows.old + 1) }
{
    push_row(alloc, rows, &[(worker, time_of(worker))], 1)?;
    Ok(())
}

/// Appends a row behind those of the times.
fn push_behind(
    alloc: Global,
    rows: &mut Listed<Row>,
    workers: u32,
    cells: &[(u32, i128)],
    rhs: i128,
) -> Result<(), NoMemory>
    requires behind { workers ≤ length rows.old }
    requires chain { IsChain workers rows.old }
    requires row { IsRow (2 * workers) (record { cells = cells.now; rhs = rhs }) }
    ensures chain { OnOk result (IsChain workers rows.new) }
    ensures length { OnOk result (length rows.new ≡ length rows.old + 1) }
{
    push_row(alloc, rows, cells, rhs)?;
    Ok(())
}

/// Appends a row for each link: what it carries takes at most the tick.
fn push_costs(alloc: Global, rows: &mut Listed<Row>, workers: u32) -> Result<(), NoMemory>
    requires few { workers ≤ 1000 }
    requires behind { workers ≤ length rows.old }
    requires chain { IsChain workers rows.old }
    ensures chain { OnOk result (IsChain workers rows.new) }
    ensures length { OnOk result (length rows.new ≡ length rows.old + workers) }
{
    for worker in 0..workers {
        push_behind(
            alloc,
            rows,
            workers,
            &[(workers + worker, cost_of(worker))],
            1,
        )?;
    }
    Ok(())
}

/// Appends the rows of the ports: what a node sends, and then what it receives, takes at most the tick.
fn push_ports(alloc: Global, rows: &mut Listed<Row>, workers: u32) -> Result<(), NoMemory>
    requires few { workers ≤ 1000 }
    requires behind { workers ≤ length rows.old }
    requires chain { IsChain workers rows.old }
    ensures chain { OnOk result (IsChain workers rows.new) }
    ensures length { OnOk result (length rows.new ≡ length rows.old + 2 * workers + 2) }
{
    push_costs(alloc, rows, workers)?;
    push_behind(alloc, rows, workers, &[], 1)?;
    push_behind(alloc, rows, workers, &[], 1)?;
    push_costs(alloc, rows, workers)
}

/// Appends the rows of supply: a worker computes and sends at most what it receives.
fn push_supply(alloc: Global, rows: &mut Listed<Row>, workers: u32) -> Result<(), NoMemory>
    requires few { workers ≤ 1000 }
    requires behind { workers ≤ length rows.old }
    requires chain { IsChain workers rows.old }
    ensures chain { OnOk result (IsChain workers rows.new) }
    ensures length { OnOk result (length rows.new ≡ length rows.old + workers) }
{
    for worker in 0..workers {
        let flow = workers + worker;
        if worker + 1 < workers {
            push_behind(
                alloc,
                rows,
                workers,
                &[(worker, 1), (flow, -1), (flow + 1, 1)],
                0,
            )?;
        } else {
            push_behind(alloc, rows, workers, &[(worker, 1), (flow, -1)], 0)?;
        }
    }
    Ok(())
}

/// The gain of a column.
fn gain_of(workers: u32, column: u32) -> i128
    ensures { result ≡ cond (nat_lt column workers) (pos 1) (pos 0) }
{
    if column < workers { 1 } else { 0 }
}

/// The gains: 1 for each worker's tasks and 0 for each flow.
fn gains(alloc: Global, workers: u32) -> Result<Listed<i128>, NoMemory>
    requires { workers ≤ 1000 }
    ensures length { IfOk result (λ gain. length gain ≡ 2 * workers) }
    ensures gains { IfOk result
        (λ gain. (j : ℕ) → j < 2 * workers → slice_index_or gain j (pos 0) ≡ cond (nat_lt j workers) (pos 1) (pos 0)) }
    ensures small { IfOk result (λ gain. All (λ g. nat_abs g < 2 ^ 127) gain) }
{
    let mut gain = Listed::new(alloc);
    for column in 0..2 * workers {
        gain.push(gain_of(workers, column))?;
    }
    Ok(gain)
}

/// The programme of a chain of so many workers, from 1 to 1000: the tasks that each computes in a tick, and those that it receives.
pub fn chain(alloc: Global, workers: u32) -> Result<Lp, NoMemory>
    requires some { 1 ≤ workers }
    requires few { workers ≤ 1000 }
    ensures { IfOk result (λ lp. IsBounded lp) }
{
    let mut rows = Listed::new(alloc);
    for worker in 0..workers {
        push_time(alloc, &mut rows, workers, worker)?;
    }
    push_ports(alloc, &mut rows, workers)?;
    push_supply(alloc, &mut rows, workers)?;
    let gain = gains(alloc, workers)?;
    Ok(Lp::new(2 * workers, rows, gain))
}
