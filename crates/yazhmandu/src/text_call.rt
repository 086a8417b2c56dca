// The run printer's text of a schedule.
ghost use Rattle.std.specs.Prelude.{◌≡◌};
ghost use Rattle.choice.specs.Refusals.{no};
ghost use Rattle.numbers.specs.Coding.{written_next};
ghost use Rattle.printer.specs.Text.{text_written_no, text_written, after_text};
ghost use Rattle.printer.specs.Printing.{text};

use choice::refusals::Refusal;

// The text of the schedule goes to the start of `output` and its length to `length`; 8 where `output` is shorter. A refused schedule has a text too.
pub fn ymd_run_text(output: &mut [u8], bytes: &[u8], length: &mut usize) -> Result<(), Refusal>
    ensures { (no result ≡ text_written_no (text bytes.now) output.old)
        × (output.new ≡ after_text (text bytes.now) output.old)
        × (length.new ≡ written_next (text_written (text bytes.now) output.old) length.old) }
{
    *length = printer::print(output, bytes)?;
    Ok(())
}
