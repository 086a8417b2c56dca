// The clock rule: the scan time of a handheld that has no calendar, only a 32-bit millisecond tick that wraps.
#![tactic(auto)]

ghost use Rattle.std.specs.Prelude.{◌≡◌};
ghost use Rattle.choice.specs.Refusals.{numbered, no};
ghost use Rattle.clock.specs.Clock.{clock_rule_no, clock_rule};

use choice::refusals::{Refusal, refuse_unless};

// The greatest time, in milliseconds: 2^48 - 1.
const GREATEST_TIME: u64 = 281_474_976_710_655;

// At the dock, age is dock tick less scan tick, modulo 2^32; scan time is dock time less age.
pub fn scan_time(dock: u32, scan: u32, time: u64) -> Result<u64, Refusal>
    ensures { (numbered result ≡ clock_rule dock scan time) × (no result ≡ clock_rule_no dock scan time) }
{
    refuse_unless(time <= GREATEST_TIME, Refusal::TimeOutOfRange)?;
    let age = u64::from(dock.wrapping_sub(scan));
    refuse_unless(age <= time, Refusal::TimeOutOfRange)?;
    Ok(time - age)
}
