//! Why routes and slots can be made of a solution.

ghost use Rattle.std.specs.Prelude.{◌≡◌, ℕ, ◌≤◌, ◌%◌, ◌*ℤ◌, All, List, false, length, pos};
ghost use Rattle.ratio_core.specs.Fraction.{Fraction};
ghost use Rattle.platform_file.specs.Ticks.{TimedView, IsTimed};
ghost use Rattle.schedule_model.specs.declared.schedule.Series.{Series};
ghost use Rattle.linear_program.specs.Programmes.{gain_value};
ghost use Rattle.programme_rows.specs.Listings.{total_below};
ghost use Rattle.series_flows.specs.Programmes.{programme_of, lacks_targets};
ghost use Rattle.series_flows.specs.Flows.{tasks_in, flow_in, use_in};
ghost use Rattle.series_flows.specs.Points.{IsPoint};
ghost use Rattle.series_flows.specs.Amounts.{AreAmounts};

use scatter_program::{
    columns_are_looked_up as messages_are_looked_up, points_are_steady as message_points_are_steady,
};
use tasking_program::{
    columns_are_looked_up as tasks_are_looked_up, points_are_steady as task_points_are_steady,
};

/// In as many ticks as make its values whole, a solution has amounts of which routes and slots can be made; none of its numbers exceeds
/// the ticks, and what the nodes use of the first kind is what it gains.
pub fn points_are_amounts()
    ensures amounts { (t : TimedView) (series : Series) (values : List Fraction) (ticks : ℕ) → IsTimed t → lacks_targets t series ≡ false
        → IsPoint t series values → All (λ value. ticks % value.den ≡ 0) values
        → AreAmounts t series (flow_in t series values ticks) (use_in t series values ticks) ticks }
    ensures small { (t : TimedView) (series : Series) (values : List Fraction) (ticks : ℕ) → IsTimed t → lacks_targets t series ≡ false
        → IsPoint t series values → All (λ value. ticks % value.den ≡ 0) values → All (λ value. tasks_in ticks value ≤ ticks) values }
    ensures gain { (t : TimedView) (series : Series) (values : List Fraction) (ticks : ℕ) → IsTimed t → lacks_targets t series ≡ false
        → (p : IsPoint t series values) → All (λ value. ticks % value.den ≡ 0) values
        → pos p.den *ℤ pos (total_below (length t.platform.nodes) (use_in t series values ticks 0)) ≡ pos ticks *ℤ gain_value (programme_of t series) p.point }
{
    tasks_are_looked_up();
    task_points_are_steady();
    messages_are_looked_up();
    message_points_are_steady();
}
