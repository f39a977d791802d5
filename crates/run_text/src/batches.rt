//! Batches and periods of a run.

ghost use Rattle.std.specs.Prelude.{◌≡◌, ◌≤◌, ◌<◌, ◌+◌, ◌^◌};
ghost use Rattle.actor_programs.specs.Tasks.{batches_of};
ghost use Rattle.actor_programs.specs.Programs.{run_periods};

use period_table::Table;

/// How many batches some chunks fill, the last one perhaps in part.
pub(crate) fn batches(tasks: u128, chunks: u64) -> u128
    requires small { tasks ≤ 2 ^ 107 }
    requires some { tasks ≡ 0 → chunks ≡ 0 }
    ensures batches { result ≡ batches_of tasks chunks }
    ensures few { result ≤ tasks + chunks }
{
    if chunks == 0 {
        return 0;
    }
    (u128::from(chunks) + (tasks - 1)) / tasks
}

/// How many periods a run has.
pub(crate) fn periods(table: &Table, chunks: u64) -> u128
    requires small { table.now.tasks ≤ 2 ^ 107 }
    requires some { table.now.tasks ≡ 0 → chunks ≡ 0 }
    ensures { result ≡ run_periods table.now chunks }
{
    if chunks == 0 {
        return 0;
    }
    batches(table.tasks, chunks) + u128::from(table.depth)
}
