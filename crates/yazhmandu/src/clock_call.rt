// The clock rule: 0 and the scan's time, or 9.
ghost use Rattle.std.specs.Prelude.{◌≡◌};
ghost use Rattle.choice.specs.Refusals.{no};
ghost use Rattle.clock.specs.Clock.{clock_rule_no, clock_rule, clock_time};

use choice::refusals::Refusal;

pub fn ymd_clock(
    dock_tick: u32,
    scan_tick: u32,
    dock_time: u64,
    time: &mut u64,
) -> Result<(), Refusal>
    ensures { (no result ≡ clock_rule_no dock_tick scan_tick dock_time)
        × (time.new ≡ clock_time (clock_rule dock_tick scan_tick dock_time) time.old) }
{
    *time = clock::scan_time(dock_tick, scan_tick, dock_time)?;
    Ok(())
}
