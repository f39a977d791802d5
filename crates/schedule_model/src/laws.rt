//! What holds of every valid schedule.

ghost use Rattle.std.specs.Prelude.{ℕ, ◌≤◌};
ghost use Rattle.platform_file.specs.Ticks.{TimedView, IsTimed};
ghost use Rattle.schedule_model.specs.declared.schedule.Series.{Series};
ghost use Rattle.schedule_model.specs.declared.schedule.Schedule.{Schedule};
ghost use Rattle.schedule_model.specs.Validity.{IsValid};
ghost use Rattle.schedule_model.specs.Throughput.{send_ticks, receive_ticks, compute_ticks};

/// The operations that use one port follow each other, so that together they last no longer than the schedule. This is the
/// bound from which every upper rate comes.
pub fn ports_have_time()
    ensures sends { (t : TimedView) (series : Series) (s : Schedule) (node : ℕ) → IsTimed t → IsValid t series s → send_ticks t s node ≤ s.length }
    ensures receives { (t : TimedView) (series : Series) (s : Schedule) (node : ℕ) → IsTimed t → IsValid t series s → receive_ticks t s node ≤ s.length }
    ensures computes { (t : TimedView) (series : Series) (s : Schedule) (node : ℕ) → IsTimed t → IsValid t series s → compute_ticks t s node ≤ s.length }
{}
