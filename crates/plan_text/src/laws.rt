//! What printing and reading have in common.

ghost use Rattle.std.specs.Prelude.{◌≡◌, ℕ, ◌<◌, ◌^◌, All, length};
ghost use Rattle.platform_file.specs.Ticks.{TimedView, IsTimed};
ghost use Rattle.schedule_model.specs.declared.schedule.Series.{Series};
ghost use Rattle.period_table.specs.declared.table.Table.{Table};
ghost use Rattle.period_table.specs.Tables.{Fits};
ghost use Rattle.plan_text.specs.Texts.{plan_text};
ghost use Rattle.plan_text.specs.Reading.{HasLanes32, IsFaultAt};

/// Reading stops nowhere in the text of a table that fits and whose lanes have numbers of 32 bits, and such a text is that of one series
/// and one table alone. The texts are those that a memory of 64 bits holds.
pub fn readable_texts_are_read()
    ensures read { (t : TimedView) (series : Series) (table : Table) (number : ℕ) → IsTimed t → Fits t series table → All HasLanes32 table.slots
        → length (plan_text t series table) < 2 ^ 64 → IsFaultAt t (plan_text t series table) number → ⊥ }
    ensures determined { (t : TimedView) (series other : Series) (table second : Table) → IsTimed t → Fits t series table → Fits t other second
        → All HasLanes32 table.slots → All HasLanes32 second.slots → length (plan_text t series table) < 2 ^ 64
        → plan_text t series table ≡ plan_text t other second → (series ≡ other) × (table ≡ second) }
{}
