// The number coding of the written forms: groups of seven bits, low group first, the top bit set while more follow.
#![tactic(auto)]

ghost use Rattle.std.specs.Prelude.{◌≡◌, length};
ghost use Rattle.std.proofs.lemmas.List.Edits.{sets};
ghost use Rattle.choice.specs.Refusals.{numbered, no};
ghost use Rattle.numbers.specs.Coding.{groups_of, most_of, read_number, form, put_end, number_written, after_number, number_written_no};

use choice::refusals::{Refusal, refuse_unless};

// How large a number may be: as a schedule has it, or as a scan table has it.
#[derive(Clone, Copy, Debug, PartialEq, Eq, Hash)]
pub enum Limit {
    Schedule,
    Table,
}

// A number that was read, and the place after it.
#[derive(Clone, Copy, Debug, PartialEq, Eq, Hash)]
pub struct Number {
    pub value: u64,
    pub next: usize,
}

impl Limit {
    // The most groups that a number may have.
    #[tactic(auto, unfolding(crate::specs::Coding::groups_of))]
    fn groups(self) -> usize
        ensures { result ≡ groups_of self }
    {
        match self {
            Limit::Schedule => 3,
            Limit::Table => 7,
        }
    }

    // The greatest number.
    #[tactic(auto, unfolding(crate::specs::Coding::most_of))]
    pub fn most(self) -> u64
        ensures { result ≡ most_of self }
    {
        match self {
            Limit::Schedule => 65_535,
            Limit::Table => 281_474_976_710_655,
        }
    }
}

// The number at a place of the bytes, with the place after it; 11 where the bytes end before it does, 12 where it is not in shortest form or too large.
pub fn read_number(bytes: &[u8], at: usize, limit: Limit) -> Result<Number, Refusal>
    ensures { numbered result ≡ read_number limit bytes.now at }
{
    let Some(rest) = bytes.get(at..) else {
        return Err(Refusal::EndsEarly)
    };
    let mut low: u64 = 0;
    let mut weight: u64 = 1;
    for earlier in 0..limit.groups() {
        let Some(byte) = rest.get(earlier) else {
            return Err(Refusal::EndsEarly)
        };
        let group = u64::from(*byte);
        if group < 128 {
            if group == 0 && 0 < earlier {
                return Err(Refusal::NotShortest);
            }
            let value = low + group * weight;
            if limit.most() < value {
                return Err(Refusal::NotShortest);
            }
            return Ok(Number {
                value,
                next: at + earlier + 1,
            });
        }
        low += (group - 128) * weight;
        weight *= 128;
    }
    Err(Refusal::NotShortest)
}

// How many bytes the shortest form of a number takes: one for every seven bits, the last of them in part, where 0 has one bit.
#[tactic(auto, using(crate::proofs::Bits::bytes_of))]
pub fn width(value: u64) -> usize
    ensures { result ≡ length (form value) }
{
    let bits = 64 - u64::leading_zeros(value / 2 * 2 + 1);
    ((bits + 6) / 7) as usize
}

// Puts the shortest form of a number at a place, and gives the place after it. What would stand past the buffer's end is left out.
// The buffer and the place are two parameters, here and in the crates above: a promise speaks of the caller's own slice at exit.
pub fn put_number(buffer: &mut [u8], at: usize, value: u64) -> usize
    ensures { (result ≡ put_end (form value) buffer.old at)
        × (buffer.new ≡ sets buffer.old at (form value)) }
{
    let mut rest = value;
    for i in at..buffer.len() {
        if rest < 128 {
            buffer[i] = rest as u8;
            return i + 1;
        }
        buffer[i] = (rest % 128 + 128) as u8;
        rest /= 128;
    }
    at.max(buffer.len())
}

// Writes the shortest form of a number at a place; 12 where the number is above the limit, 8 where there is no room, and then no byte changes.
pub fn write_number(
    buffer: &mut [u8],
    at: usize,
    value: u64,
    limit: Limit,
) -> Result<usize, Refusal>
    ensures { (numbered result ≡ number_written limit value buffer.old at)
        × (buffer.new ≡ after_number limit value buffer.old at)
        × (no result ≡ number_written_no limit value buffer.old at) }
{
    refuse_unless(value <= limit.most(), Refusal::NotShortest)?;
    let n = width(value);
    let room = buffer.len();
    refuse_unless(n <= room && at <= room - n, Refusal::NoRoom)?;
    Ok(put_number(buffer, at, value))
}
