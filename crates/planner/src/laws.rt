//! What holds of all plans.

ghost use Rattle.std.specs.Prelude.{◌≡◌, ℕ};
ghost use Rattle.platform_file.specs.Ticks.{TimedView};
ghost use Rattle.schedule_model.specs.declared.schedule.Series.{Series};
ghost use Rattle.planner.specs.declared.planned.Plan.{Plan};
ghost use Rattle.planner.specs.Plans.{IsPlan};

/// A platform has one plan of a series for a bound on pivots: the same values, and the same table. So all commands that plan go by the same
/// table.
pub fn plans_are_one()
    ensures { (limit : ℕ) (t : TimedView) (series : Series) (plan other : Plan) → IsPlan limit t series plan → IsPlan limit t series other → plan ≡ other }
{}
