//! What holds of every wiring of a table that fits.

ghost use Rattle.std.specs.Prelude.{◌≡◌, ℕ, ◌-◌, ◌*◌, ◌<◌, ◌≤◌, ◌↔◌, List, length, count_by, min};
ghost use Rattle.std.specs.List.{AllPairs, Contains};
ghost use Rattle.platform_file.specs.Ticks.{TimedView, IsTimed};
ghost use Rattle.schedule_model.specs.declared.schedule.Series.TheVariants.{Tasking};
ghost use Rattle.period_table.specs.declared.table.Table.{Table};
ghost use Rattle.period_table.specs.Lanes.{lanes_of};
ghost use Rattle.period_table.specs.Tables.{Fits};
ghost use Rattle.step_core.specs.declared.wiring.Event.{Event};
ghost use Rattle.step_core.specs.Wirings.{IsWellFormedWiring, program_of};
ghost use Rattle.step_core.specs.Paced.{IsPaced};
ghost use Rattle.step_core.specs.Tasks.{is_done};
ghost use Rattle.actor_programs.specs.Tasks.{route_tasks, route_of};
ghost use Rattle.actor_programs.specs.Programs.{wiring_of, periods_of};
ghost use Rattle.actor_programs.specs.Carried.{HasNumbers, CanRun, IsOfRoute, IsCarried, UsesAtOnce, ComputesAll};
ghost use Rattle.actor_programs.specs.Counted.{HasRun};

/// The wiring of a table that fits is well-formed, and paced by the periods of its events.
pub fn wirings_hold()
    ensures formed { (t : TimedView) (table : Table) (chunks : ℕ) → IsTimed t → Fits t Tasking table → HasNumbers table
        → IsWellFormedWiring (wiring_of t table chunks) }
    ensures paced { (t : TimedView) (table : Table) (chunks : ℕ) → IsTimed t → Fits t Tasking table
        → IsPaced (wiring_of t table chunks) (periods_of t table chunks) }
{}

/// The list of a route has the tasks of the route's places in each batch, those that exist, ascending.
pub fn routes_hold()
    ensures listed { (t : TimedView) (table : Table) (chunks route task : ℕ) → CanRun t table chunks
        → (Contains (route_tasks table chunks route) task ↔ IsOfRoute table chunks route task) }
    ensures ascending { (t : TimedView) (table : Table) (chunks route : ℕ) → CanRun t table chunks
        → AllPairs (λ a b. a < b) (route_tasks table chunks route) }
{}

/// On each lane the tasks of its route are opened, closed and taken, in order. What is taken is sent on or computed at once, and
/// each chunk's task is computed once.
pub fn tasks_hold()
    ensures carried { (t : TimedView) (table : Table) (chunks lane : ℕ) → CanRun t table chunks → lane < length (lanes_of table.routes)
        → IsCarried t table chunks lane (route_tasks table chunks (route_of table.routes lane)) }
    ensures used { (t : TimedView) (table : Table) (chunks actor : ℕ) → UsesAtOnce (program_of (wiring_of t table chunks) actor) }
    ensures computed { (t : TimedView) (table : Table) (chunks : ℕ) → CanRun t table chunks
        → ComputesAll (wiring_of t table chunks) chunks }
{}

/// A legal history that has every event of the first periods has computed the tasks of all of them but the first `depth`, or all
/// chunks.
pub fn counts_hold()
    ensures { (t : TimedView) (table : Table) (chunks n : ℕ) (h : List Event) → CanRun t table chunks → HasRun t table chunks n h
        → min ((n - table.depth) * table.tasks) chunks ≤ count_by is_done h }
{}
