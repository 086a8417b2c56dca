// The shelf question on a table in its written form. The answer's four numbers are whether a scan is shown (0 or 1), its number, its shelf and its time.
ghost use Rattle.std.specs.Prelude.{◌≡◌};
ghost use Rattle.choice.specs.Refusals.{numbered, no};
ghost use Rattle.yazhmandu.specs.Calls.{where_is_bytes};
ghost use Rattle.yazhmandu.specs.Asking.{WhereIsCall};

use choice::refusals::Refusal;
use layouts::fields::{SET_SIZE, set_at};
use shelf::Shown;

// The whole table is read first; then a set of another length than a set's is not within S.
#[tactic(auto, using(crate::proofs::Unasked::unasked_read, crate::proofs::Unasked::unasked_refused), unfolding(crate::specs::Calls::where_is_bytes))]
fn answer_of(table: &[u8], set: &[u8], tag: u64) -> Result<Option<Shown>, Refusal>
    ensures { numbered result ≡ where_is_bytes table.now set.now tag }
{
    if set.len() == SET_SIZE as usize {
        return shelf::where_is_written(table, set_at(set, 0), tag);
    }
    scan_table::check_table(table)?;
    Err(Refusal::NotThere)
}

pub fn ymd_where_is(table: &[u8], set: &[u8], tag: u64, found: &mut [u64; 4]) -> Result<(), Refusal>
    ensures { WhereIsCall table.now set.now tag found.old (no result) found.new }
{
    *found = match answer_of(table, set, tag)? {
        None => [0, 0, 0, 0],
        Some(shown) => [1, shown.scan.0 as u64, shown.shelf, shown.time],
    };
    Ok(())
}
