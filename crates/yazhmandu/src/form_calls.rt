// The readers' verdict on bytes: ok, or the reader's refusal. Each name is C's, and what the readers give differs in type.
ghost use Rattle.std.specs.Prelude.{◌≡◌};
ghost use Rattle.choice.specs.Refusals.{no};
ghost use Rattle.forms.specs.Forms.{form_no};
ghost use Rattle.scan_table.specs.Table.{read_table};
ghost use Rattle.schedule.specs.Schedule.{read_schedule};

use choice::refusals::Refusal;

pub fn ymd_check_schedule(bytes: &[u8]) -> Result<(), Refusal>
    ensures { no result ≡ form_no (read_schedule bytes.now) }
{
    schedule::check_schedule(bytes)?;
    Ok(())
}

pub fn ymd_check_table(bytes: &[u8]) -> Result<(), Refusal>
    ensures { no result ≡ form_no (read_table bytes.now) }
{
    scan_table::check_table(bytes)?;
    Ok(())
}
