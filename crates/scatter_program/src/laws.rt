//! Why the programme gives the best rate.

ghost use Rattle.std.specs.Prelude.{◌≡◌, ℕ, ◌*◌, ◌/◌, ◌≤◌, List, length, ℤ, pos, ◌≤ℤ◌};
ghost use Rattle.platform_file.specs.Ticks.{TimedView, IsTimed};
ghost use Rattle.schedule_model.specs.declared.schedule.Schedule.{Schedule};
ghost use Rattle.schedule_model.specs.declared.schedule.Series.TheVariants.{Scatter};
ghost use Rattle.schedule_model.specs.Validity.{IsValid, completed};
ghost use Rattle.schedule_model.specs.Throughput.{IsUpperRate};
ghost use Rattle.linear_program.specs.Programmes.{gain_value};
ghost use Rattle.linear_program.specs.Duality.{priced_sides, IsFeasible, IsDualFeasible, IsBounded};
ghost use Rattle.scatter_program.specs.Programme.{scatter_programme};
ghost use Rattle.scatter_program.specs.Counts.{counts_of};
ghost use Rattle.scatter_program.specs.declared.columns.Column.{Column};
ghost use Rattle.scatter_program.specs.Points.{amounts_of, AreLookedUp, IsSteady};

/// The counts of every schedule that a platform can carry out, over its length, are a feasible point of the programme, and its gain is
/// what the schedule completes: as many messages as every target gets. A schedule of no tick completes nothing, since a feasible
/// direction can't gain.
pub fn counts_are_feasible()
    ensures feasible { (t : TimedView) (s : Schedule) → IsTimed t → IsValid t Scatter s → IsFeasible (scatter_programme t) (counts_of t s) s.length }
    ensures gain { (t : TimedView) (s : Schedule) → IsTimed t → IsValid t Scatter s
        → gain_value (scatter_programme t) (counts_of t s) ≡ pos (completed t Scatter s * (s.ticks_per_unit / t.unit)) }
{}

/// The programme of every platform with a target is bounded, as the target's receive port is.
pub fn programmes_are_bounded()
    ensures { (t : TimedView) → IsTimed t → 1 ≤ length t.platform.targets → IsBounded (scatter_programme t) }
{}

/// Prices that cover every column of the programme bound the rate of every schedule that the platform can carry out: at every resolution,
/// of every length, and for every list of operations.
pub fn prices_bound_rates()
    ensures { (t : TimedView) (prices : List ℤ) (scale best : ℕ) → IsTimed t → 1 ≤ length t.platform.targets
        → IsDualFeasible (scatter_programme t) prices (pos scale) → priced_sides (scatter_programme t).rows prices ≤ℤ pos best
        → IsUpperRate t Scatter (best * t.unit) scale }
{}

/// The amounts of a feasible point keep every port in time, and no node but the master passes on more messages of a kind than it gets,
/// with what the target keeps. Any amounts gain the common rate.
pub fn points_are_steady()
    ensures steady { (t : TimedView) (amount : Column → ℕ) (ticks : ℕ) → IsFeasible (scatter_programme t) (amounts_of t amount) ticks
        → IsSteady t amount ticks }
    ensures gain { (t : TimedView) (amount : Column → ℕ) → gain_value (scatter_programme t) (amounts_of t amount) ≡ pos (amount Column.Rate) }
{}

/// Each column of the programme stands for another rate or flow.
pub fn columns_are_looked_up()
    ensures { (t : TimedView) → AreLookedUp t }
{}
