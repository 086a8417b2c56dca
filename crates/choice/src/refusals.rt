// Refusals: why an event, a form or a question is refused, each with its number, and tests that refuse.
ghost use Rattle.std.specs.Prelude.{◌≡◌, ℕ};
ghost use Rattle.choice.specs.Tests.{◌unless◌, refusal, ◌⨾◌, ok};
ghost use Rattle.choice.specs.Refusals.{number, no};

// The refusals by their numbers, from 1.
#[derive(Clone, Copy, Debug, PartialEq, Eq, Hash)]
pub enum Refusal {
    // A size, how many records there are, or a field of one.
    OutOfRange = 1,
    NoSuchCode = 2,
    // An argument beyond the run's sizes, or a tag, shelf or number of events above its limit.
    NotThere = 3,
    FreeSlot = 4,
    Crashed = 5,
    NotEnabled = 6,
    LastNumber = 7,
    // In the table of messages, a buffer or lent room.
    NoRoom = 8,
    // A time above the greatest, or an age above the time.
    TimeOutOfRange = 9,
    NoSuchDevice = 10,
    EndsEarly = 11,
    // A number that is not in shortest form, or too large.
    NotShortest = 12,
    BytesFollow = 13,
}

impl From<Refusal> for u8 {
    ghost from_gives = { λ r n. n ≡ number r };

    fn from(refusal: Refusal) -> u8 {
        refusal as u8
    }
}

// What says why something is refused, in an answer that is handed on: the refusal, or the number that C and a log have of one.
pub trait Reason: Copy {
    ghost number_of: { Self → ℕ };

    fn of(refusal: Refusal) -> Self
        ensures { number_of result ≡ number refusal };
}

impl Reason for Refusal {
    ghost number_of = { number };

    fn of(refusal: Refusal) -> Refusal {
        refusal
    }
}

impl Reason for u8 {
    ghost number_of = { λ n. n };

    fn of(refusal: Refusal) -> u8 {
        u8::from(refusal)
    }
}

// A test that gives the refusal unless it holds.
pub fn refuse_unless(holds: bool, refusal: Refusal) -> Result<(), Refusal>
    ensures { no result ≡ (number refusal unless holds ⨾ ok) }
{
    if holds { Ok(()) } else { Err(refusal) }
}

// The first refusal of two tests.
pub fn first_refusal(first: Result<(), Refusal>, second: Result<(), Refusal>) -> Result<(), Refusal>
    ensures { no result ≡ (refusal (no first) ⨾ no second) }
{
    first.and(second)
}

// The answer's number: 0, or the refusal's.
pub fn no_of<T: Copy>(answer: Result<T, Refusal>) -> u8
    ensures { result ≡ no answer }
{
    match answer {
        Ok(_) => 0,
        Err(refusal) => u8::from(refusal),
    }
}
