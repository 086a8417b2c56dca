// The schedule's written form: P, A, L, M, S, E, then for each of E events code, a and b.
// In lent room an event is three numbers in a row, as C lends it: code, a, b. Numbers that are no whole events are refused (`write_schedule`).
#![tactic(auto)]

ghost use Rattle.std.specs.Prelude.{◌≡◌, ℕ, ◌<◌, length, get_or};
ghost use Rattle.choice.specs.Refusals.{numbered, no};
ghost use Rattle.forms.specs.Forms.{form_no, room_no, into_room, after_room, forms};
ghost use Rattle.schedule.specs.Schedule.{header_of, numbers_of, header_no, read_schedule, schedule_answer, schedule_no, schedule_written, after_schedule, schedule_written_no};
ghost use Rattle.schedule.specs.Steps.{checked};

use choice::refusals::{Refusal, refuse_unless};
use numbers::Limit;
use sizes::Sizes;

// The six numbers that a schedule begins with: the sizes of the run and how many events there are.
#[derive(Clone, Copy, Debug, PartialEq, Eq, Hash)]
pub struct Header {
    pub sizes: Sizes,
    pub events: u16,
}

// A schedule whose form is right, with the place of its first event.
#[derive(Clone, Copy, Debug, PartialEq, Eq, Hash)]
struct Form {
    header: Header,
    first: usize,
}

// The header of six numbers of the coding. It is no `From`, which has no `requires`.
fn header_of(six: [u64; 6]) -> Header
    requires { (k : ℕ) → get_or six k 0 < 65536 }
    ensures { result ≡ header_of six }
{
    let sizes = Sizes {
        proposers: six[0] as u16,
        acceptors: six[1] as u16,
        learners: six[2] as u16,
        slots: six[3] as u16,
        scans: six[4] as u16,
    };
    Header {
        sizes,
        events: six[5] as u16,
    }
}

// The six numbers of a header.
impl From<Header> for [u64; 6] {
    ghost from_gives = { λ header six. six ≡ numbers_of header };

    #[tactic(auto, unfolding(crate::specs::Schedule::numbers_of))]
    fn from(header: Header) -> [u64; 6] {
        let sizes = header.sizes;
        [
            u64::from(sizes.proposers),
            u64::from(sizes.acceptors),
            u64::from(sizes.learners),
            u64::from(sizes.slots),
            u64::from(sizes.scans),
            u64::from(header.events),
        ]
    }
}

// The refusal of a header: sizes first, then too many events.
#[tactic(auto, unfolding(crate::specs::Schedule::header_no))]
fn check_header(header: Header) -> Result<(), Refusal>
    ensures { no result ≡ header_no header }
{
    refuse_unless(header.sizes.in_range(), Refusal::OutOfRange)?;
    refuse_unless(header.events <= 4096, Refusal::NotThere)
}

// The whole form of a schedule.
fn check(bytes: &[u8]) -> Result<Form, Refusal>
    ensures { numbered result ≡ checked bytes.now }
{
    let first = forms::skip_numbers(bytes, 0, Limit::Schedule, 6)?;
    let mut six = [0u64; 6];
    forms::take_numbers(&mut six, bytes, 0, Limit::Schedule, 6);
    let header = header_of(six);
    check_header(header)?;
    let count = usize::from(header.events) * 3;
    let next = forms::skip_numbers(bytes, first, Limit::Schedule, count)?;
    forms::ended::<Refusal>(bytes.len(), Ok(next))?;
    Ok(Form { header, first })
}

// Whether the bytes are a schedule: its six numbers, or the refusal.
pub fn check_schedule(bytes: &[u8]) -> Result<Header, Refusal>
    ensures { (numbered result ≡ schedule_answer (read_schedule bytes.now))
        × (no result ≡ form_no (read_schedule bytes.now)) }
{
    Ok(check(bytes)?.header)
}

// Reads a schedule into lent room, three numbers for each event. A refusal leaves the room as it was; so do the places past the last event.
pub fn read_schedule(room: &mut [u64], bytes: &[u8]) -> Result<Header, Refusal>
    ensures { (numbered result ≡ schedule_answer (into_room (read_schedule bytes.now) room.old))
        × (room.new ≡ after_room (read_schedule bytes.now) room.old)
        × (no result ≡ room_no (read_schedule bytes.now) room.old) }
{
    let Form { header, first } = check(bytes)?;
    let count = usize::from(header.events) * 3;
    refuse_unless(count <= room.len(), Refusal::NoRoom)?;
    forms::take_numbers(room, bytes, first, Limit::Schedule, count);
    Ok(header)
}

// How many bytes the six numbers of a header take.
fn header_width(header: Header) -> usize
    ensures { result ≡ length (forms (numbers_of header)) }
{
    let mut width = 0;
    for number in <[u64; 6]>::from(header) {
        width += numbers::width(number);
    }
    width
}

// The first refusal of a run's sizes and events, tested as the reader would.
#[tactic(auto, unfolding(crate::specs::Schedule::schedule_no, numbers::specs::Coding::most_of))]
fn check_values(sizes: Sizes, fields: &[u64]) -> Result<(), Refusal>
    ensures { no result ≡ schedule_no sizes fields.now }
{
    let events = fields.len() / 3;
    refuse_unless(events <= 65_535, Refusal::NotShortest)?;
    refuse_unless(fields.len() % 3 == 0, Refusal::OutOfRange)?;
    check_header(Header {
        sizes,
        events: events as u16,
    })?;
    refuse_unless(
        forms::all_within(fields, Limit::Schedule),
        Refusal::NotShortest,
    )
}

// Writes the schedule of a run's sizes and whole events, three numbers for each. A refusal leaves the buffer as it was; so do the bytes past the text.
pub fn write_schedule(buffer: &mut [u8], sizes: Sizes, fields: &[u64]) -> Result<usize, Refusal>
    ensures { (numbered result ≡ schedule_written sizes fields.now buffer.old)
        × (buffer.new ≡ after_schedule sizes fields.now buffer.old)
        × (no result ≡ schedule_written_no sizes fields.now buffer.old) }
{
    check_values(sizes, fields)?;
    let header = Header {
        sizes,
        events: (fields.len() / 3) as u16,
    };
    let length = buffer.len();
    let first = header_width(header);
    refuse_unless(
        first <= length && forms::fit_in(fields, length - first),
        Refusal::NoRoom,
    )?;
    let six = <[u64; 6]>::from(header);
    let at = forms::put_numbers(buffer, 0, &six);
    Ok(forms::put_numbers(buffer, at, fields))
}
