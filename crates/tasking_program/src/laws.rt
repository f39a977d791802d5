//! Why the programme gives the best rate.

ghost use Rattle.std.specs.Prelude.{◌≡◌, ℕ, ◌*◌, ◌/◌, List, length, cond, ℤ, pos, ◌≤ℤ◌};
ghost use Rattle.platform_file.specs.Ticks.{TimedView, IsTimed};
ghost use Rattle.schedule_model.specs.declared.schedule.Schedule.{Schedule};
ghost use Rattle.schedule_model.specs.declared.schedule.Series.TheVariants.{Tasking};
ghost use Rattle.schedule_model.specs.Validity.{IsValid, completed};
ghost use Rattle.schedule_model.specs.Throughput.{IsUpperRate};
ghost use Rattle.linear_program.specs.Programmes.{gain_value};
ghost use Rattle.linear_program.specs.Duality.{priced_sides, IsFeasible, IsDualFeasible, IsBounded};
ghost use Rattle.programme_rows.specs.Listings.{total_below};
ghost use Rattle.tasking_program.specs.Columns.{computes};
ghost use Rattle.tasking_program.specs.Programme.{tasking_programme};
ghost use Rattle.tasking_program.specs.Counts.{counts_of};
ghost use Rattle.tasking_program.specs.declared.columns.Column.{Column};
ghost use Rattle.tasking_program.specs.Points.{amounts_of, AreLookedUp, IsSteady};

/// The counts of every schedule that a platform can carry out, over its length, are a feasible point of the programme, and its gain is
/// what the schedule completes. A schedule of no tick completes nothing, since a feasible direction can't gain.
pub fn counts_are_feasible()
    ensures feasible { (t : TimedView) (s : Schedule) → IsTimed t → IsValid t Tasking s → IsFeasible (tasking_programme t) (counts_of t s) s.length }
    ensures gain { (t : TimedView) (s : Schedule) → IsTimed t → IsValid t Tasking s
        → gain_value (tasking_programme t) (counts_of t s) ≡ pos (completed t Tasking s * (s.ticks_per_unit / t.unit)) }
{}

/// The programme of every platform is bounded, as each processor is.
pub fn programmes_are_bounded()
    ensures { (t : TimedView) → IsTimed t → IsBounded (tasking_programme t) }
{}

/// Prices that cover every column of the programme bound the rate of every schedule that the platform can carry out: at every resolution,
/// of every length, and for every list of operations.
pub fn prices_bound_rates()
    ensures { (t : TimedView) (prices : List ℤ) (scale best : ℕ) → IsTimed t → IsDualFeasible (tasking_programme t) prices (pos scale)
        → priced_sides (tasking_programme t).rows prices ≤ℤ pos best → IsUpperRate t Tasking (best * t.unit) scale }
{}

/// The amounts of a feasible point keep every processor and every port in time, and no node but the master passes on and computes more
/// than it gets. Any amounts gain what the nodes compute.
pub fn points_are_steady()
    ensures steady { (t : TimedView) (amount : Column → ℕ) (ticks : ℕ) → IsFeasible (tasking_programme t) (amounts_of t amount) ticks
        → IsSteady t amount ticks }
    ensures gain { (t : TimedView) (amount : Column → ℕ)
        → gain_value (tasking_programme t) (amounts_of t amount) ≡ pos (total_below (length t.platform.nodes) (λ node. cond (computes t node) (amount (Column.Computes node)) 0)) }
{}

/// Each column of the programme stands for another rate or flow.
pub fn columns_are_looked_up()
    ensures { (t : TimedView) → AreLookedUp t }
{}
