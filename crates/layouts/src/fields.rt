// Values out of bytes, and into them: every number low byte first. Past the end a byte reads 0, and one that is put there is left out.
ghost use Rattle.std.specs.Prelude.{[], ◌∷◌, ◌≡◌, ℕ, ◌+◌, ◌<◌, min, get_or, if◌then◌else◌};
ghost use Rattle.std.proofs.lemmas.List.Edits.{sets};
ghost use Rattle.layouts.specs.Layout.{sizes_of, word_at, set_at, set_bytes, number_at, number_bytes, acceptors_at, acceptors_bytes, is_flag, flag_at, flag_bytes, is_set, is_answer, flagged};

use model::proposers::GREATEST_NUMBER;
use sets::acceptors::Acceptors;
use sets::scans::{MOST_SCANS, Scans};
use sizes::Sizes;
use std::array;

// A set is one word, 8 bytes; before it a flag is one.
pub const SET_SIZE: u16 = 8;

pub const FLAGGED_SIZE: u16 = 1 + SET_SIZE;

// The number, or the greatest where it is above that.
pub(crate) fn at_most(n: u64, greatest: u16) -> u16
    ensures { result ≡ min n greatest }
{
    n.min(u64::from(greatest)) as u16
}

// The sizes of a run, as a call takes them; the others are the least. One of more than 16 bits counts as 65,535, which is out of every range.
pub(crate) fn sizes_of(proposers: u64, acceptors: u64, scans: u64) -> Sizes
    ensures { result ≡ sizes_of (min proposers 65_535) (min acceptors 65_535) (min scans 65_535) }
{
    let proposers = at_most(proposers, u16::MAX);
    let acceptors = at_most(acceptors, u16::MAX);
    let scans = at_most(scans, u16::MAX);
    Sizes {
        proposers,
        acceptors,
        learners: 1,
        slots: 16,
        scans,
    }
}

fn byte_at(bytes: &[u8], at: usize) -> u8
    ensures { result ≡ get_or bytes.now at 0 }
{
    bytes.get(at).copied().unwrap_or(0)
}

// The bytes from a place on, as many as are asked for.
fn read<const N: usize>(bytes: &[u8], at: u16) -> [u8; N]
    ensures { (k : ℕ) → k < N → get_or result k 0 ≡ get_or bytes.now (at + k) 0 }
{
    match bytes.get(at as usize..) {
        Some(there) => match there.first_chunk() {
            Some(all) => *all,
            None => array::from_fn(|i| byte_at(there, i)),
        },
        None => [0; N],
    }
}

// The place is tested, and not asked for by `get_mut`, whose contract leaves open what the bytes are where it gives none: no proof closes.
fn put_byte(bytes: &mut [u8], at: usize, byte: u8)
    ensures { bytes.new ≡ sets bytes.old at (byte ∷ []) }
{
    if at < bytes.len() {
        bytes[at] = byte;
    }
}

// Puts the bytes of a field from a place on. Inlined, as is what puts a set, so that a field is stored at once where a caller knows that the bytes are there.
#[inline(always)]
fn put<const N: usize>(bytes: &mut [u8], at: u16, field: &[u8; N])
    ensures { bytes.new ≡ sets bytes.old at field.now }
{
    let from = at as usize;
    if from + field.len() <= bytes.len() {
        bytes[from..from + field.len()].copy_from_slice(field);
        return;
    }
    for (i, byte) in field.iter().enumerate() {
        put_byte(bytes, from + i, *byte);
    }
}

// Each kind of field has a reader and a writer of its own, each one line over `read` and `put`: a trait would be longer, and no code is over a field of any kind.

// A word of a set.
fn word_at(bytes: &[u8], at: u16) -> u64
    ensures { result ≡ word_at 8 bytes.now at }
{
    u64::from_le_bytes(read(bytes, at))
}

pub fn set_at(bytes: &[u8], at: u16) -> Scans
    ensures { result ≡ set_at bytes.now at }
{
    Scans::from(word_at(bytes, at))
}

#[inline(always)]
pub(crate) fn put_set(bytes: &mut [u8], at: u16, set: Scans)
    ensures { bytes.new ≡ sets bytes.old at (set_bytes set) }
{
    let word = u64::from(set);
    put(bytes, at, &word.to_le_bytes());
}

// Whether the bytes are a set within so many scans. More than a set can hold count as that many.
pub fn is_set(bytes: &[u8], scans: u64) -> bool
    ensures { result ≡ is_set scans bytes.now }
{
    if bytes.len() != SET_SIZE as usize {
        return false;
    }
    let scans = at_most(scans, MOST_SCANS as u16);
    set_at(bytes, 0).fits(u32::from(scans))
}

// The set within so many scans that the bytes are, or none.
pub fn read_set(bytes: &[u8], scans: u64) -> Option<Scans>
    ensures { result ≡ (if is_set scans bytes.now then Some (set_at bytes.now 0) else None) }
{
    is_set(bytes, scans).then(|| set_at(bytes, 0))
}

pub(crate) fn number_at(bytes: &[u8], at: u16) -> u16
    ensures { result ≡ number_at bytes.now at }
{
    u16::from_le_bytes(read(bytes, at))
}

pub(crate) fn put_number(bytes: &mut [u8], at: u16, number: u16)
    ensures { bytes.new ≡ sets bytes.old at (number_bytes number) }
{
    put(bytes, at, &number.to_le_bytes());
}

pub(crate) fn acceptors_at(bytes: &[u8], at: u16) -> Acceptors
    ensures { result ≡ acceptors_at bytes.now at }
{
    Acceptors {
        bits: byte_at(bytes, at as usize),
    }
}

pub(crate) fn put_acceptors(bytes: &mut [u8], at: u16, acceptors: Acceptors)
    ensures { bytes.new ≡ sets bytes.old at (acceptors_bytes acceptors) }
{
    put(bytes, at, &[acceptors.bits]);
}

// Whether it is an answer of an acceptor of the run, to a proposal's number.
pub fn is_answer(acceptors: u64, acceptor: u64, number: u64) -> bool
    ensures { result ≡ is_answer acceptors acceptor number }
{
    acceptor < acceptors && 1 <= number && number <= u64::from(GREATEST_NUMBER)
}

// A flag is 0 or 1.
pub fn is_flag(bytes: &[u8], at: u16) -> bool
    ensures { result ≡ is_flag bytes.now at }
{
    byte_at(bytes, at as usize) <= 1
}

pub fn flag_at(bytes: &[u8], at: u16) -> bool
    ensures { result ≡ flag_at bytes.now at }
{
    byte_at(bytes, at as usize) == 1
}

pub(crate) fn put_flag(bytes: &mut [u8], at: u16, flag: bool)
    ensures { bytes.new ≡ sets bytes.old at (flag_bytes flag) }
{
    put(bytes, at, &[u8::from(flag)]);
}

// Puts a flag and a set.
pub fn put_flagged(bytes: &mut [u8], flag: bool, set: Scans)
    ensures { bytes.new ≡ sets bytes.old 0 (flagged flag set) }
{
    put_flag(bytes, 0, flag);
    put_set(bytes, 1, set);
}
