// The shelf question: where a crate was seen last, by the scans of its tag in a set.
#![tactic(auto)]

ghost use Rattle.std.specs.Prelude.{◌≡◌, ◌<◌};
ghost use Rattle.std.specs.Prelude.{if◌then◌else◌};
ghost use Rattle.choice.specs.Refusals.{numbered, no};
ghost use Rattle.scan_table.specs.Table.{scans_in, read_table};
ghost use Rattle.shelf.specs.Shelf.{comes_before, seen_at, is_candidate, better, newest, shown_of, question_no, ask, where_is, where_is_no, where_is_written, where_is_written_no};

use choice::refusals::{Refusal, refuse_unless};
use scan_table::{Scan, Tests};
use sets::ScanId;
use sets::scans::{MOST_SCANS, Scans};

// Room for the numbers of the greatest table: memory is fixed, with no heap.
const MOST_NUMBERS: usize = MOST_SCANS as usize * 4;

// A scan of a table and its number.
#[derive(Clone, Copy, Debug, PartialEq, Eq, Hash)]
pub struct Seen {
    pub number: ScanId,
    pub scan: Scan,
}

// The scan to show.
#[derive(Clone, Copy, Debug, PartialEq, Eq, Hash)]
pub struct Shown {
    pub scan: ScanId,
    pub shelf: u64,
    pub time: u64,
}

impl From<Seen> for Shown {
    ghost from_gives = { λ seen it. it ≡ shown_of seen };

    fn from(seen: Seen) -> Shown {
        Shown {
            scan: seen.number,
            shelf: seen.scan.shelf,
            time: seen.scan.time,
        }
    }
}

// The order of scans: by time, and on equal times by scan number. It is no `Ord`, since a tag and a shelf do not count in it.
#[tactic(auto, unfolding(crate::specs::Shelf::comes_before))]
pub fn comes_before(a: Seen, b: Seen) -> bool
    ensures { result ≡ comes_before a b }
{
    (a.scan.time, a.number.0) < (b.scan.time, b.number.0)
}

// One more scan: it is shown where nothing was, or where it comes after what was.
#[tactic(auto, unfolding(crate::specs::Shelf::better))]
fn better_of(found: Option<Seen>, seen: Seen) -> Option<Seen>
    ensures { result ≡ better found seen }
{
    match found {
        Some(shown) if !comes_before(shown, seen) => found,
        _ => Some(seen),
    }
}

// A scan of a table, where it is of the set and has the tag.
#[tactic(auto, unfolding(crate::specs::Shelf::is_candidate))]
fn consider(
    fields: &[u64],
    found: Option<Seen>,
    number: ScanId,
    set: Scans,
    tag: u64,
) -> Option<Seen>
    ensures { result ≡ (if is_candidate (seen_at fields.now number.0) set tag
        then better found (seen_at fields.now number.0) else found) }
{
    let scan = scan_table::scan_at(fields, number);
    if scan.tag == tag && set.holds(number) {
        better_of(found, Seen { number, scan })
    } else {
        found
    }
}

// The newest of the scans of a table, of those in the set with the tag.
fn newest_of(fields: &[u64], set: Scans, tag: u64) -> Option<Seen>
    requires { scans_in fields.now < 65536 }
    ensures { result ≡ newest (scans_in fields.now) fields.now set tag }
{
    let scans = (fields.len() / 4) as u16;
    let mut found = None;
    for i in 0..scans {
        if fields[i as usize * 4] == tag {
            found = consider(fields, found, ScanId(i), set, tag);
        }
    }
    found
}

// The question on a table that is in range. Its set and its tag are two parameters throughout, as C asks it.
#[tactic(auto, unfolding(crate::specs::Shelf::ask, crate::specs::Shelf::asked_with, crate::specs::Shelf::question_no, crate::specs::Shelf::shown, scan_table::specs::Table::tag_no))]
fn ask_of(fields: &[u64], set: Scans, tag: u64) -> Result<Option<Shown>, Refusal>
    requires { scans_in fields.now < 65536 }
    ensures { (numbered result ≡ ask (scans_in fields.now) fields.now set tag)
        × (no result ≡ question_no (scans_in fields.now) set tag) }
{
    refuse_unless(tag <= 4_294_967_295, Refusal::NotThere)?;
    refuse_unless(set.fits((fields.len() / 4) as u32), Refusal::NotThere)?;
    Ok(newest_of(fields, set, tag).map(Shown::from))
}

// Where the crate of a tag is, by a set of scans of a table that has been read: none where the set has no scan of the tag.
#[tactic(auto, using(crate::proofs::Asking::table_small), unfolding(crate::specs::Shelf::where_is, crate::specs::Shelf::where_is_no, crate::specs::Shelf::ask, crate::specs::Shelf::asked_with))]
pub fn where_is(fields: &[u64], set: Scans, tag: u64) -> Result<Option<Shown>, Refusal>
    ensures { (numbered result ≡ where_is fields.now set tag)
        × (no result ≡ where_is_no fields.now set tag) }
{
    scan_table::check_fields(fields, Tests::Reading)?;
    ask_of(fields, set, tag)
}

// The same, of a table in its written form.
pub fn where_is_written(bytes: &[u8], set: Scans, tag: u64) -> Result<Option<Shown>, Refusal>
    ensures { (numbered result ≡ where_is_written (read_table bytes.now) set tag)
        × (no result ≡ where_is_written_no (read_table bytes.now) set tag) }
{
    let mut room = [0u64; MOST_NUMBERS];
    let scans = scan_table::read_table(&mut room, bytes)?;
    ask_of(&room[..scans * 4], set, tag)
}
