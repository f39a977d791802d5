//! The flows of a solution.

ghost use Rattle.std.specs.Prelude.{◌≡◌, ℕ, ◌≤◌, ◌<◌, All, length, map, cond, nat_eq, get_or, slice_index, IfOk};
ghost use Rattle.ratio_core.specs.Fraction.{whole};
ghost use Rattle.exact_simplex.specs.Optima.{first_terms};
ghost use Rattle.programme_rows.specs.LookUps.{value_of};
ghost use Rattle.tasking_program.specs.Columns.{columns_of as task_columns, Exists as ExistsForTasks};
ghost use Rattle.tasking_program.specs.Points.{same_column as same_task_column};
ghost use Rattle.scatter_program.specs.Columns.{target_of, columns_of as message_columns, Exists as ExistsForMessages};
ghost use Rattle.scatter_program.specs.Points.{same_column as same_message_column};
ghost use Rattle.schedule_model.specs.declared.schedule.Series.TheVariants.{Tasking, Scatter};
ghost use Rattle.series_flows.specs.Programmes.{programme_of, kinds_of};
ghost use Rattle.series_flows.specs.Flows.{tasks_in, ends_of, flow_with, flow_of};

use flow_routes::Flow;
use listed::{Listed, NoMemory};
use platform_file::Timed;
use ratio_core::Ratio;
use scatter_program::{Column as MessageColumn, columns_of as message_columns};
use schedule_model::Series;
use std::alloc::Global;
use tasking_program::{Column as TaskColumn, columns_of as task_columns};

/// The most nodes that a platform has.
const NODES: usize = 32;

/// The most links that a platform has.
const LINKS: usize = 128;

/// What each node uses and each link carries of a kind.
#[derive(Drop)]
struct Amounts {
    uses: [u128; NODES],
    flows: [u128; LINKS],
}

/// How many tasks each node computes and each link carries in so many ticks.
fn task_amounts(timed: &Timed, columns: &[TaskColumn], values: &[Ratio], ticks: u128) -> Amounts
    requires exist { All (ExistsForTasks timed.now) columns.now }
    requires one_each { length values.now ≡ length columns.now }
    requires small { All (λ value. tasks_in ticks value ≤ ticks) values.now }
    ensures uses { (node : ℕ) → node < 32
        → get_or result.uses node 0 ≡ tasks_in ticks (value_of (same_task_column (TaskColumn.Computes node)) columns.now values.now) }
    ensures flows { (link : ℕ) → link < 128
        → get_or result.flows link 0 ≡ tasks_in ticks (value_of (same_task_column (TaskColumn.Flows link)) columns.now values.now) }
{
    timed.known();
    let mut uses = [0; NODES];
    let mut flows = [0; LINKS];
    for k in (0..columns.len()).rev() {
        let tasks = values[k].num() * (ticks / values[k].den());
        match columns[k] {
            TaskColumn::Computes(node) => uses[node as usize] = tasks,
            TaskColumn::Flows(link) => flows[link as usize] = tasks,
        }
    }
    Amounts { uses, flows }
}

/// How many messages of a kind its target gets and each link carries in so many ticks.
fn message_amounts(
    timed: &Timed,
    columns: &[MessageColumn],
    values: &[Ratio],
    ticks: u128,
    kind: u32,
) -> Amounts
    requires exist { All (ExistsForMessages timed.now) columns.now }
    requires one_each { length values.now ≡ length columns.now }
    requires small { All (λ value. tasks_in ticks value ≤ ticks) values.now }
    requires kind { kind < length timed.now.platform.targets }
    ensures uses { (node : ℕ) → node < 32 → get_or result.uses node 0
        ≡ tasks_in ticks (cond (nat_eq node (target_of timed.now kind)) (value_of (same_message_column MessageColumn.Rate) columns.now values.now) (whole 0)) }
    ensures flows { (link : ℕ) → link < 128
        → get_or result.flows link 0 ≡ tasks_in ticks (value_of (same_message_column (MessageColumn.Flows link kind)) columns.now values.now) }
{
    timed.known();
    let target = timed.platform().targets()[kind as usize];
    let mut uses = [0; NODES];
    let mut flows = [0; LINKS];
    for k in (0..columns.len()).rev() {
        let tasks = values[k].num() * (ticks / values[k].den());
        match columns[k] {
            MessageColumn::Rate => uses[target as usize] = tasks,
            MessageColumn::Flows(link, own) if own == kind => flows[link as usize] = tasks,
            MessageColumn::Flows(..) => {}
        }
    }
    Amounts { uses, flows }
}

/// The ends of all links, in their order.
fn ends(alloc: Global, timed: &Timed) -> Result<Listed<(u32, u32)>, NoMemory>
    ensures { IfOk result (λ ends. ends ≡ map ends_of timed.now.platform.links) }
{
    let mut ends = Listed::new(alloc);
    for link in timed.platform().links() {
        ends.push((link.from(), link.to()))?;
    }
    Ok(ends)
}

/// The first ones of some numbers.
fn first_ones(alloc: Global, numbers: &[u128], count: usize) -> Result<Listed<u128>, NoMemory>
    requires { count ≤ length numbers.now }
    ensures { IfOk result (λ list. list ≡ first_terms (slice_index numbers.now) count) }
{
    let mut list = Listed::new(alloc);
    for k in 0..count {
        list.push(numbers[k])?;
    }
    Ok(list)
}

/// The flow of what the links carry and the nodes use.
fn flow_with(alloc: Global, timed: &Timed, amounts: &Amounts) -> Result<Flow, NoMemory>
    ensures { IfOk result (λ flow. flow ≡ flow_with timed.now (slice_index amounts.now.flows) (slice_index amounts.now.uses)) }
{
    timed.known();
    let platform = timed.platform();
    Ok(Flow {
        nodes: platform.nodes().len() as u32,
        master: platform.master(),
        links: ends(alloc, timed)?,
        amounts: first_ones(alloc, &amounts.flows, platform.links().len())?,
        demands: first_ones(alloc, &amounts.uses, platform.nodes().len())?,
    })
}

/// The one flow of tasks.
fn task_flows(
    alloc: Global,
    timed: &Timed,
    values: &[Ratio],
    ticks: u128,
) -> Result<Listed<Flow>, NoMemory>
    requires one_each { length values.now ≡ (programme_of timed.now Tasking).columns }
    requires small { All (λ value. tasks_in ticks value ≤ ticks) values.now }
    ensures { IfOk result (λ flows. flows ≡ first_terms (flow_of timed.now Tasking values.now ticks) 1) }
{
    timed.known();
    let columns = task_columns(alloc, timed)?;
    let amounts = task_amounts(timed, columns.as_slice(), values, ticks);
    let mut flows = Listed::new(alloc);
    flows.push(flow_with(alloc, timed, &amounts)?)?;
    Ok(flows)
}

/// The flow of messages to each target, in their order.
fn message_flows(
    alloc: Global,
    timed: &Timed,
    values: &[Ratio],
    ticks: u128,
) -> Result<Listed<Flow>, NoMemory>
    requires one_each { length values.now ≡ (programme_of timed.now Scatter).columns }
    requires small { All (λ value. tasks_in ticks value ≤ ticks) values.now }
    ensures { IfOk result (λ flows. flows ≡ first_terms (flow_of timed.now Scatter values.now ticks) (length timed.now.platform.targets)) }
{
    timed.known();
    let columns = message_columns(alloc, timed)?;
    let mut flows = Listed::new(alloc);
    for kind in 0..timed.platform().targets().len() as u32 {
        let amounts = message_amounts(timed, columns.as_slice(), values, ticks, kind);
        flows.push(flow_with(alloc, timed, &amounts)?)?;
    }
    Ok(flows)
}

/// The flow of each kind of a solution in so many ticks.
pub fn flows_of(
    alloc: Global,
    timed: &Timed,
    series: Series,
    values: &[Ratio],
    ticks: u128,
) -> Result<Listed<Flow>, NoMemory>
    requires one_each { length values.now ≡ (programme_of timed.now series).columns }
    requires small { All (λ value. tasks_in ticks value ≤ ticks) values.now }
    ensures { IfOk result (λ flows. flows ≡ first_terms (flow_of timed.now series values.now ticks) (kinds_of timed.now series)) }
{
    match series {
        Series::Tasking => task_flows(alloc, timed, values, ticks),
        Series::Scatter => message_flows(alloc, timed, values, ticks),
    }
}
