// The shelf question. The answer's four numbers are whether a scan is shown (0 or 1), its number, its shelf and its time.
// Each call gives 0 or the refusal's number, and on a refusal the four keep what they held.
ghost use Rattle.std.specs.Prelude.{◌≡◌};
ghost use Rattle.choice.specs.Refusals.{numbered, no};
ghost use Rattle.scan_table.specs.Table.{read_table};
ghost use Rattle.shelf.specs.Shelf.{where_is, where_is_no, where_is_written, where_is_written_no, shelf_numbers};
ghost use Rattle.test_calls.specs.Words.{scans_of};

use choice::refusals::Refusal;
use sets::scans::Scans;
use shelf::Shown;

// The number of an answer, and its four numbers.
fn told(answer: Result<Option<Shown>, Refusal>, numbers: &mut [u64; 4]) -> u8
    ensures { (result ≡ no answer) × (numbers.new ≡ shelf_numbers (numbered answer) numbers.old) }
{
    match answer {
        Ok(None) => {
            *numbers = [0, 0, 0, 0];
            0
        }
        Ok(Some(shown)) => {
            *numbers = [1, shown.scan.0 as u64, shown.shelf, shown.time];
            0
        }
        Err(refusal) => u8::from(refusal),
    }
}

#[unsafe(no_mangle)]
pub extern "C" fn test_where_is(fields: &[u64], set: u64, tag: u64, numbers: &mut [u64; 4]) -> u8
    ensures { (result ≡ where_is_no fields.now (scans_of set) tag)
        × (numbers.new ≡ shelf_numbers (where_is fields.now (scans_of set) tag) numbers.old) }
{
    let answer = shelf::where_is(fields, Scans::from(set), tag);
    told(answer, numbers)
}

#[unsafe(no_mangle)]
pub extern "C" fn test_where_is_written(
    bytes: &[u8],
    set: u64,
    tag: u64,
    numbers: &mut [u64; 4],
) -> u8
    ensures { (result ≡ where_is_written_no (read_table bytes.now) (scans_of set) tag)
        × (numbers.new ≡ shelf_numbers (where_is_written (read_table bytes.now) (scans_of set) tag) numbers.old) }
{
    let answer = shelf::where_is_written(bytes, Scans::from(set), tag);
    told(answer, numbers)
}
