// The scan table's written form: S, then for each of S scans tag, shelf, device and time.
// In lent room a scan is four numbers in a row, as C lends it: tag, shelf, device, time. Numbers that are no whole scans are refused (`check_fields`).
#![tactic(auto)]

ghost use Rattle.std.specs.Prelude.{◌≡◌, get_or};
ghost use Rattle.choice.specs.Refusals.{numbered, no};
ghost use Rattle.numbers.specs.Coding.{limit_no};
ghost use Rattle.numbers.specs.declared.Limit.TheVariants.{Table};
ghost use Rattle.forms.specs.Forms.{place_of, row, rows, row_no, rows_no, form_no, room_no, into_room, after_room};
ghost use Rattle.scan_table.specs.Table.{tag_no, shelf_no, device_no, time_no, scan_tests, written_tests, tests_of, fields_of, scan_at, scans_in, table_no, read_table, table_answer, table_written, after_table, table_written_no};

use choice::refusals::{Refusal, first_refusal, refuse_unless};
use numbers::Limit;
use sets::ScanId;

// One scan. Its ranges: tag to 2^32 - 1, shelf to 65,535, device 1 to 255, time to 2^48 - 1.
#[derive(Clone, Copy, Debug, PartialEq, Eq, Hash)]
pub struct Scan {
    pub tag: u64,
    pub shelf: u64,
    pub device: u64,
    pub time: u64,
}

// Which tests the numbers of a table go through: those of a table that has been read, or those of one that is to be written.
#[derive(Clone, Copy, Debug, PartialEq, Eq, Hash)]
pub enum Tests {
    Reading,
    Writing,
}

// ---- the tests of one scan: a line for each field, whose limit, refusal and definition are its own

#[tactic(auto, unfolding(crate::specs::Table::tag_no))]
fn check_tag(tag: u64) -> Result<(), Refusal>
    ensures { no result ≡ tag_no tag }
{
    refuse_unless(tag <= 4_294_967_295, Refusal::NotThere)
}

#[tactic(auto, unfolding(crate::specs::Table::shelf_no))]
fn check_shelf(shelf: u64) -> Result<(), Refusal>
    ensures { no result ≡ shelf_no shelf }
{
    refuse_unless(shelf <= 65_535, Refusal::NotThere)
}

#[tactic(auto, unfolding(crate::specs::Table::device_no))]
fn check_device(device: u64) -> Result<(), Refusal>
    ensures { no result ≡ device_no device }
{
    refuse_unless((1..=255).contains(&device), Refusal::NoSuchDevice)
}

#[tactic(auto, unfolding(crate::specs::Table::time_no))]
fn check_time(time: u64) -> Result<(), Refusal>
    ensures { no result ≡ time_no time }
{
    refuse_unless(time <= 281_474_976_710_655, Refusal::NotShortest)
}

// 12 where a number is too large for the coding.
#[tactic(auto, unfolding(numbers::specs::Coding::limit_no))]
fn check_coding(value: u64) -> Result<(), Refusal>
    ensures { no result ≡ limit_no Table value }
{
    refuse_unless(value <= Limit::Table.most(), Refusal::NotShortest)
}

impl Scan {
    // The first field out of its range.
    #[tactic(auto, unfolding(forms::specs::Forms::row_no))]
    pub fn check(self) -> Result<(), Refusal>
        ensures { no result ≡ row_no scan_tests (fields_of self) }
    {
        check_tag(self.tag)?;
        check_shelf(self.shelf)?;
        check_device(self.device)?;
        check_time(self.time)
    }

    // The same, tested as the reader would: a number too large for the coding gives 12.
    #[tactic(auto, using(crate::proofs::Testing::as_read_lem), unfolding(forms::specs::Forms::row_no))]
    fn check_written(self) -> Result<(), Refusal>
        ensures { no result ≡ row_no written_tests (fields_of self) }
    {
        first_refusal(check_coding(self.tag), check_tag(self.tag))?;
        first_refusal(check_coding(self.shelf), check_shelf(self.shelf))?;
        first_refusal(check_coding(self.device), check_device(self.device))?;
        first_refusal(check_coding(self.time), check_time(self.time))
    }
}

impl Tests {
    fn check(self, scan: Scan) -> Result<(), Refusal>
        ensures { no result ≡ row_no (tests_of self) (fields_of scan) }
    {
        match self {
            Tests::Reading => scan.check(),
            Tests::Writing => scan.check_written(),
        }
    }
}

// A number of a table, 0 past its end: one line of the library's `get`, as `byte_at` of `layouts` is of bytes.
fn number_at(fields: &[u64], place: usize) -> u64
    ensures { result ≡ get_or fields.now place 0 }
{
    fields.get(place).copied().unwrap_or(0)
}

// A scan of a table's numbers; past their end its numbers are 0.
#[tactic(auto, unfolding(crate::specs::Table::scan_at))]
pub fn scan_at(fields: &[u64], scan: ScanId) -> Scan
    ensures { result ≡ scan_at fields.now scan.0 }
{
    let first = scan.0 as usize * 4;
    Scan {
        tag: number_at(fields, first),
        shelf: number_at(fields, first + 1),
        device: number_at(fields, first + 2),
        time: number_at(fields, first + 3),
    }
}

// The first refusal of whole scans, four numbers at a time.
fn check_records(fields: &[u64], tests: Tests) -> Result<(), Refusal>
    ensures { no result ≡ rows_no (scans_in fields.now) (tests_of tests) fields.now }
{
    for four in fields.chunks_exact(4) {
        tests.check(Scan {
            tag: four[0],
            shelf: four[1],
            device: four[2],
            time: four[3],
        })?;
    }
    Ok(())
}

// The first refusal of a table's numbers; where they are to be written, tested as the reader would.
#[tactic(auto, unfolding(crate::specs::Table::table_no, crate::specs::Table::whole_table))]
pub fn check_fields(fields: &[u64], tests: Tests) -> Result<(), Refusal>
    ensures { no result ≡ table_no (tests_of tests) fields.now }
{
    let whole = fields.len() % 4 == 0 && sizes::scans_in_range((fields.len() / 4) as u64);
    refuse_unless(whole, Refusal::OutOfRange)?;
    check_records(fields, tests)
}

// ---- reading

// One record: tag, shelf, device, time.
#[tactic(auto, using(crate::proofs::Checking::place_scan))]
fn check_scan(bytes: &[u8], at: usize) -> Result<usize, Refusal>
    ensures { numbered result ≡ place_of (row scan_tests Table bytes.now at) }
{
    let tag = numbers::read_number(bytes, at, Limit::Table)?;
    check_tag(tag.value)?;
    let shelf = numbers::read_number(bytes, tag.next, Limit::Table)?;
    check_shelf(shelf.value)?;
    let device = numbers::read_number(bytes, shelf.next, Limit::Table)?;
    check_device(device.value)?;
    let time = numbers::read_number(bytes, device.next, Limit::Table)?;
    check_time(time.value)?;
    Ok(time.next)
}

// So many records.
fn check_scans(bytes: &[u8], at: usize, scans: usize) -> Result<usize, Refusal>
    ensures { numbered result ≡ place_of (rows scans scan_tests Table bytes.now at) }
{
    let mut next = at;
    for _ in 0..scans {
        next = check_scan(bytes, next)?;
    }
    Ok(next)
}

// Whether the bytes are a scan table: how many scans it has, or the refusal.
#[tactic(auto, using(crate::proofs::Tables::table_checked, crate::proofs::Tables::table_number), unfolding(crate::specs::Table::size_no))]
pub fn check_table(bytes: &[u8]) -> Result<usize, Refusal>
    ensures { (numbered result ≡ table_answer (read_table bytes.now))
        × (no result ≡ form_no (read_table bytes.now)) }
{
    let size = numbers::read_number(bytes, 0, Limit::Table)?;
    refuse_unless(sizes::scans_in_range(size.value), Refusal::OutOfRange)?;
    let scans = size.value as usize;
    let end = check_scans(bytes, size.next, scans)?;
    forms::ended::<Refusal>(bytes.len(), Ok(end))?;
    Ok(scans)
}

// Reads a scan table into lent room, four numbers for each scan. A refusal leaves the room as it was; so do the places past the last scan.
pub fn read_table(room: &mut [u64], bytes: &[u8]) -> Result<usize, Refusal>
    ensures { (numbered result ≡ table_answer (into_room (read_table bytes.now) room.old))
        × (room.new ≡ after_room (read_table bytes.now) room.old)
        × (no result ≡ room_no (read_table bytes.now) room.old) }
{
    let scans = check_table(bytes)?;
    refuse_unless(scans <= room.len() / 4, Refusal::NoRoom)?;
    let first = numbers::width(scans as u64);
    forms::take_numbers(room, bytes, first, Limit::Table, scans * 4);
    Ok(scans)
}

// ---- writing

// Writes the table of whole scans, four numbers for each. A refusal leaves the buffer as it was; so do the bytes past the text.
pub fn write_table(buffer: &mut [u8], fields: &[u64]) -> Result<usize, Refusal>
    ensures { (numbered result ≡ table_written fields.now buffer.old)
        × (buffer.new ≡ after_table fields.now buffer.old)
        × (no result ≡ table_written_no fields.now buffer.old) }
{
    check_fields(fields, Tests::Writing)?;
    let scans = (fields.len() / 4) as u64;
    let length = buffer.len();
    let first = numbers::width(scans);
    refuse_unless(first <= length, Refusal::NoRoom)?;
    refuse_unless(forms::fit_in(fields, length - first), Refusal::NoRoom)?;
    let at = numbers::put_number(buffer, 0, scans);
    Ok(forms::put_numbers(buffer, at, fields))
}
