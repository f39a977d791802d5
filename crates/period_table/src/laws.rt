//! What holds of every table that fits and keeps the ports.

ghost use Rattle.std.specs.Prelude.{◌≡◌, ℕ, ◌+◌, ◌-◌, ◌*◌, ◌<◌, ◌≤◌, List, All, length, sum_by};
ghost use Rattle.platform_file.specs.Ticks.{TimedView, IsTimed};
ghost use Rattle.schedule_model.specs.declared.schedule.Series.{Series};
ghost use Rattle.schedule_model.specs.Validity.{IsValid, completed};
ghost use Rattle.period_table.specs.declared.table.Table.{Table};
ghost use Rattle.flow_routes.specs.declared.flow.Route.{Route};
ghost use Rattle.bipartite_slots.specs.declared.weights.SlotPart.{SlotPart};
ghost use Rattle.period_table.specs.Cuts.{IsSeparate, carried_on, room_of, cut_slots};
ghost use Rattle.period_table.specs.Lanes.{LaneAt, lane_at};
ghost use Rattle.period_table.specs.Tables.{IsRoute, IsSlot, IsMatching, Fits, KeepsPorts, moved_over};
ghost use Rattle.period_table.specs.TableSchedules.{table_schedule};

/// The schedule of n periods is valid for every n, and completes the tasks of all periods but the first `depth`.
pub fn table_schedules_hold()
    ensures valid { (t : TimedView) (series : Series) (table : Table) (n : ℕ) → IsTimed t → Fits t series table → KeepsPorts t series table
        → IsValid t series (table_schedule t series table n) }
    ensures completes { (t : TimedView) (series : Series) (table : Table) (n : ℕ) → IsTimed t → Fits t series table
        → (n - table.depth) * table.tasks ≤ completed t series (table_schedule t series table n) }
{}

/// A table that fits has a period of at least a tick, and routes that end at nodes of the platform.
pub fn fitting_tables_hold()
    ensures lasts { (t : TimedView) (series : Series) (table : Table) → Fits t series table → 1 ≤ table.period }
    ensures ends { (t : TimedView) (series : Series) (route : Route) → IsTimed t → IsRoute t series route → route.end < length t.platform.nodes }
{}

/// What is cut by parts in which no two links meet are slots that keep the ports, one a part, each as long as its part. Where the parts
/// have time for what each link carries, they move what each lane carries.
pub fn cuts_keep_ports()
    ensures slots { (t : TimedView) (lanes : List LaneAt) (parts : List SlotPart) → All (IsSeparate t) parts
        → All (IsSlot lanes) (cut_slots t lanes parts) }
    ensures matchings { (t : TimedView) (lanes : List LaneAt) (parts : List SlotPart) → All (IsSeparate t) parts
        → All (IsMatching t lanes) (cut_slots t lanes parts) }
    ensures moved { (t : TimedView) (lanes : List LaneAt) (parts : List SlotPart) → ((link : ℕ) → carried_on link lanes ≤ room_of t link parts)
        → (lane : ℕ) → lane < length lanes → moved_over lane (cut_slots t lanes parts) ≡ (lane_at lanes lane).count }
    ensures as_many { (t : TimedView) (lanes : List LaneAt) (parts : List SlotPart) → length (cut_slots t lanes parts) ≡ length parts }
    ensures as_long { (t : TimedView) (lanes : List LaneAt) (parts : List SlotPart)
        → sum_by (λ slot. slot.duration) (cut_slots t lanes parts) ≡ sum_by (λ part. part.duration) parts }
{}
