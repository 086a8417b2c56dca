// Numbers of the coding one after the other, as every written form has them: passed over, taken into lent room, put and written.
#![tactic(auto)]

ghost use Rattle.std.specs.Prelude.{◌≡◌, leb, length};
ghost use Rattle.std.proofs.lemmas.List.Edits.{sets};
ghost use Rattle.choice.specs.Refusals.{numbered_by, numbered, no};
ghost use Rattle.numbers.specs.Coding.{put_end};
ghost use Rattle.forms.specs.Forms.{place_of, plain, numbers_at, ended_at, forms, all_within, numbers_written, after_numbers, numbers_written_no};

use choice::refusals::{Reason, Refusal, refuse_unless};
use numbers::Limit;

// Passes over `count` numbers from a place on, and gives the place after them.
pub fn skip_numbers(bytes: &[u8], at: usize, limit: Limit, count: usize) -> Result<usize, Refusal>
    ensures { numbered result ≡ place_of (plain count limit bytes.now at) }
{
    let mut next = at;
    for _ in 0..count {
        next = numbers::read_number(bytes, next, limit)?.next;
    }
    Ok(next)
}

// Takes `count` numbers from a place on into the first places of the room, as far as they can be read and the room goes.
pub fn take_numbers(room: &mut [u64], bytes: &[u8], at: usize, limit: Limit, count: usize)
    ensures { room.new ≡ sets room.old 0 (numbers_at count limit bytes.now at) }
{
    let mut next = at;
    for i in 0..count.min(room.len()) {
        let Ok(number) = numbers::read_number(bytes, next, limit) else {
            return
        };
        room[i] = number.value;
        next = number.next;
    }
}

// The end of a form of so many bytes whose numbers end at a place: 13 where bytes follow; a refusal stays.
pub fn ended<R: Reason>(length: usize, place: Result<usize, R>) -> Result<usize, R>
    ensures { numbered_by R.number_of result ≡ ended_at length (numbered_by R.number_of place) }
{
    match place {
        Ok(next) if next < length => Err(R::of(Refusal::BytesFollow)),
        _ => place,
    }
}

// Whether the written forms of the numbers, one after the other, take at most `room` bytes.
pub fn fit_in(values: &[u64], room: usize) -> bool
    ensures { result ≡ leb (length (forms values.now)) room }
{
    let mut left = room;
    for value in values {
        let n = numbers::width(*value);
        if left < n {
            return false;
        }
        left -= n;
    }
    true
}

// Whether all the numbers are within the limit.
#[tactic(auto, unfolding(crate::specs::Forms::all_within))]
pub fn all_within(values: &[u64], limit: Limit) -> bool
    ensures { result ≡ all_within limit values.now }
{
    let most = limit.most();
    values.iter().all(|value| *value <= most)
}

// Puts the numbers one after the other from a place on, and gives the place after them. What would stand past the buffer's end is left out.
pub fn put_numbers(buffer: &mut [u8], at: usize, values: &[u64]) -> usize
    ensures { (result ≡ put_end (forms values.now) buffer.old at)
        × (buffer.new ≡ sets buffer.old at (forms values.now)) }
{
    let mut next = at;
    for number in values {
        next = numbers::put_number(buffer, next, *number);
    }
    next
}

// Writes the numbers one after the other from a place on; 12 where one is above the limit, 8 where there is no room, and then no byte changes.
pub fn write_numbers(
    buffer: &mut [u8],
    at: usize,
    values: &[u64],
    limit: Limit,
) -> Result<usize, Refusal>
    ensures { (numbered result ≡ numbers_written limit values.now buffer.old at)
        × (buffer.new ≡ after_numbers limit values.now buffer.old at)
        × (no result ≡ numbers_written_no limit values.now buffer.old at) }
{
    refuse_unless(all_within(values, limit), Refusal::NotShortest)?;
    let length = buffer.len();
    refuse_unless(at <= length && fit_in(values, length - at), Refusal::NoRoom)?;
    Ok(put_numbers(buffer, at, values))
}
