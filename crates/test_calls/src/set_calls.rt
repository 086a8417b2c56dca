// Sets as their words: a set of scans is a u64, a set of acceptors a u8; a test is 0 or 1.
ghost use Rattle.std.specs.Prelude.{◌≡◌};
ghost use Rattle.sets.specs.Scans.{only, ◌∪◌, within, strictly_within, holds, is_empty, fits, first_word};
ghost use Rattle.sets.specs.Acceptors.{with_one, together, fits_run, size, is_majority};
ghost use Rattle.test_calls.specs.Words.{scans_of, acceptors_of, bit};

use sets::acceptors::Acceptors;
use sets::scans::Scans;
use sets::{AcceptorId, ScanId};

#[unsafe(no_mangle)]
pub extern "C" fn test_scans_of_one(scan: u16) -> u64
    ensures { result ≡ first_word (only scan) }
{
    u64::from(Scans::of_one(ScanId(scan)))
}

#[unsafe(no_mangle)]
pub extern "C" fn test_scans_union(a: u64, b: u64) -> u64
    ensures { result ≡ first_word (scans_of a ∪ scans_of b) }
{
    let both = Scans::from(a).union(Scans::from(b));
    u64::from(both)
}

#[unsafe(no_mangle)]
pub extern "C" fn test_scans_contained(a: u64, b: u64) -> u32
    ensures { result ≡ bit (within (scans_of a) (scans_of b)) }
{
    u32::from(Scans::from(a).is_contained_in(Scans::from(b)))
}

#[unsafe(no_mangle)]
pub extern "C" fn test_scans_strictly_contained(a: u64, b: u64) -> u32
    ensures { result ≡ bit (strictly_within (scans_of a) (scans_of b)) }
{
    u32::from(Scans::from(a).is_strictly_contained_in(Scans::from(b)))
}

#[unsafe(no_mangle)]
pub extern "C" fn test_scans_holds(a: u64, scan: u16) -> u32
    ensures { result ≡ bit (holds (scans_of a) scan) }
{
    u32::from(Scans::from(a).holds(ScanId(scan)))
}

#[unsafe(no_mangle)]
pub extern "C" fn test_scans_is_empty(a: u64) -> u32
    ensures { result ≡ bit (is_empty (scans_of a)) }
{
    u32::from(Scans::from(a).is_empty())
}

#[unsafe(no_mangle)]
pub extern "C" fn test_scans_fits(a: u64, scans: u32) -> u32
    ensures { result ≡ bit (fits (scans_of a) scans) }
{
    u32::from(Scans::from(a).fits(scans))
}

#[unsafe(no_mangle)]
pub extern "C" fn test_acceptors_with(q: u8, acceptor: u8) -> u8
    ensures { result ≡ (with_one (acceptors_of q) acceptor).bits }
{
    Acceptors { bits: q }.with(AcceptorId(acceptor)).bits
}

#[unsafe(no_mangle)]
pub extern "C" fn test_acceptors_union(q: u8, r: u8) -> u8
    ensures { result ≡ (together (acceptors_of q) (acceptors_of r)).bits }
{
    Acceptors { bits: q }.union(Acceptors { bits: r }).bits
}

#[unsafe(no_mangle)]
pub extern "C" fn test_acceptors_fits(q: u8, acceptors: u32) -> u32
    ensures { result ≡ bit (fits_run (acceptors_of q) acceptors) }
{
    u32::from(Acceptors { bits: q }.fits(acceptors))
}

#[unsafe(no_mangle)]
pub extern "C" fn test_acceptors_size(q: u8) -> u32
    ensures { result ≡ size (acceptors_of q) }
{
    Acceptors { bits: q }.size()
}

#[unsafe(no_mangle)]
pub extern "C" fn test_acceptors_majority(q: u8, acceptors: u32) -> u32
    ensures { result ≡ bit (is_majority (acceptors_of q) acceptors) }
{
    u32::from(Acceptors { bits: q }.is_majority_of(acceptors))
}
