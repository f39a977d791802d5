//! Tells whether a platform can carry a schedule out.

ghost use Rattle.std.specs.Prelude.{◌≡◌, ◌<◌, ◌↔◌, ◌%◌, ◌&&◌, nat_lt, nat_eq, length, IsOk, IfOk, IfErr};
ghost use Rattle.schedule_model.specs.declared.schedule.Series.TheVariants.{Scatter};
ghost use Rattle.schedule_model.specs.Validity.{IsValid, completed};
ghost use Rattle.schedule_model.specs.Breaches.{IsFirstBreach};

use crate::breach::{Breach, Rule};
use crate::schedule::{Schedule, Series};
use crate::tally::Tally;
use platform_file::Timed;

/// Whether a time unit has a multiple of the platform's ticks, and not none.
fn has_whole_unit(timed: &Timed, ticks_per_unit: u64) -> bool
    ensures { result ≡ (nat_lt 0 ticks_per_unit && nat_eq (ticks_per_unit % timed.now.unit) 0) }
{
    0 < ticks_per_unit && ticks_per_unit % timed.unit() == 0
}

/// How many tasks or messages the schedule completes, where the platform can carry it out: where it is well-formed, one-port
/// and supplied. Otherwise the first operation that breaks a rule, and the first rule that it breaks.
///
/// Goes once over the operations and takes no memory.
pub fn check_schedule(timed: &Timed, series: Series, schedule: &Schedule) -> Result<u64, Breach>
    requires { series ≡ Scatter → 0 < length timed.now.platform.targets }
    ensures valid { IsOk result ↔ IsValid timed.now series schedule.now }
    ensures count { IfOk result (λ count. count ≡ completed timed.now series schedule.now) }
    ensures breach { IfErr result (IsFirstBreach timed.now series schedule.now) }
{
    timed.known();
    if !has_whole_unit(timed, schedule.ticks_per_unit) {
        return Err(Breach {
            index: 0,
            rule: Rule::Unit,
        });
    }
    let mut tally = Tally::new();
    let mut index = 0;
    for op in schedule.ops.as_slice() {
        if let Err(rule) = tally.admit(
            timed,
            series,
            schedule.ticks_per_unit,
            schedule.length,
            *op,
        ) {
            return Err(Breach { index, rule });
        }
        index += 1;
    }
    Ok(tally.completed(timed, series))
}
