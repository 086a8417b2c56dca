// The text of a run: what the run printer prints.
#![tactic(auto)]

ghost use Rattle.std.specs.Prelude.{◌≡◌, ◌++◌, ◌+◌, ◌*◌, ◌^◌, ◌<◌, ◌≤◌, eqb, length, true};
ghost use Rattle.choice.specs.Refusals.{numbered, no};
ghost use Rattle.text.specs.Digits.{decimal};
ghost use Rattle.model.specs.Step.{answer_no};
ghost use Rattle.machine.specs.Log.{per_answer, read_numbers, answer_at, answers_in};
ghost use Rattle.sizes.specs.Sizes.{sizes_in_range};
ghost use Rattle.sizes.specs.Events.{most_events};
ghost use Rattle.printer.specs.Text.{refused_line, set_line, lines, end_with, run_text, refused_text, text_written, after_text, text_written_no};
ghost use Rattle.printer.specs.Printing.{text_of_run, text};

mod sinks;

use choice::refusals::{Refusal, refuse_unless};
use machine::PER_ANSWER;
use model::Answer;
use schedule::Header;
use sets::scans::Scans;
use sets::{LearnerId, ProposerId};
use sinks::{Count, Page, Sink, Text};

// The answer of a log whose numbers come first. A log may have a number that no `Refusal` has.
#[tactic(auto, unfolding(machine::specs::Log::read_answer_of, sets::specs::Scans::of_first_word, sets::specs::Scans::wordwise))]
fn answer_of(numbers: &[u64]) -> Result<Answer, u8>
    requires { per_answer ≤ length numbers.now }
    ensures { result ≡ read_numbers numbers.now }
{
    let code = numbers[0];
    let party = (code % 256) as u8;
    let set = Scans::from(numbers[1]);
    match code {
        0 => Ok(Answer::Done),
        1..=255 => Err(code as u8),
        256..=511 => Ok(Answer::Learnt {
            learner: LearnerId(party),
            set,
        }),
        _ => Ok(Answer::Decided {
            proposer: ProposerId(party),
            set,
        }),
    }
}

// Answer k of a log.
fn answer_at(log: &[u64], k: usize) -> Result<Answer, u8>
    requires { per_answer * (k + 1) ≤ length log.now }
    ensures { result ≡ answer_at log.now k }
{
    let at = PER_ANSWER * k;
    answer_of(&log[at..])
}

// A refused answer may have the number of ok.
fn is_ok(answer: Result<Answer, u8>) -> bool
    ensures { result ≡ eqb (answer_no answer) 0 }
{
    match answer {
        Ok(_) => true,
        Err(no) => no == 0,
    }
}

// A decimal number and a word after it.
fn add_number<S: Sink>(to: &mut S, value: u64, word: &[u8])
    ensures { S.adds (decimal value ++ word.now) to.old to.new }
{
    to.number(value);
    to.word(word)
}

fn add_refused_line<S: Sink>(to: &mut S, place: u64, no: u64)
    ensures { S.adds (refused_line place no) to.old to.new }
{
    add_number(to, place, b" refused ");
    add_number(to, no, b"\n")
}

fn add_set_line<S: Sink>(to: &mut S, scans: u16, place: u64, word: &[u8], party: u64, set: Scans)
    ensures { S.adds (set_line scans place word.now party set) to.old to.new }
{
    add_number(to, place, word);
    add_number(to, party, b" ");
    to.set(scans, set);
    to.word(b"\n")
}

// The lines of an event.
fn add_lines<S: Sink>(to: &mut S, scans: u16, place: u64, answer: Result<Answer, u8>)
    ensures { S.adds (lines scans place answer) to.old to.new }
{
    match answer {
        Ok(done) => {
            add_number(to, place, b" ok\n");
            match done {
                Answer::Done => (),
                Answer::Learnt { learner, set } => {
                    add_set_line(to, scans, place, b" learnt ", u64::from(learner.0), set)
                }
                Answer::Decided { proposer, set } => {
                    add_set_line(to, scans, place, b" decided ", u64::from(proposer.0), set)
                }
            }
        }
        Err(no) => add_refused_line(to, place, u64::from(no)),
    }
}

fn add_end_line<S: Sink>(to: &mut S, events: u64, ok: u64, refused: u64)
    ensures { S.adds (end_with events ok refused) to.old to.new }
{
    to.word(b"end ");
    add_number(to, events, b" ");
    add_number(to, ok, b" ");
    add_number(to, refused, b"\n")
}

// A run of so many scans and events whose answers stand in a log, which may be longer (`HasAnswers`). Nothing compares or prints it.
#[derive(Clone, Copy)]
struct Run<'a> {
    scans: u16,
    log: &'a [u64],
    events: u16,
}

impl Text for Run<'_> {
    ghost use Rattle.printer.specs.Sinks.{run, HasAnswers};

    ghost text = { run };

    ghost can_add = { HasAnswers };

    fn add<S: Sink>(&self, to: &mut S) {
        let mut ok: u64 = 0;
        for k in 0..self.events {
            let answer = answer_at(self.log, k as usize);
            add_lines(to, self.scans, k as u64 + 1, answer);
            ok += is_ok(answer) as u64;
        }
        add_end_line(to, self.events as u64, ok, self.events as u64 - ok)
    }
}

#[derive(Clone, Copy, Debug, PartialEq, Eq, Hash)]
struct RefusedSchedule {
    refusal: Refusal,
}

impl Text for RefusedSchedule {
    ghost use Rattle.printer.specs.Sinks.{refused};

    ghost text = { refused };

    fn add<S: Sink>(&self, to: &mut S) {
        to.word(b"schedule refused ");
        add_number(to, u64::from(u8::from(self.refusal)), b"\n")
    }
}

// The text goes into a buffer that has room for all of it, and no byte of it into any other.
fn print_text<T: Text>(buffer: &mut [u8], text: &T) -> Result<usize, Refusal>
    requires can { T.can_add text.now }
    requires short { length (T.text text.now) < 2 ^ 64 }
    ensures { (numbered result ≡ text_written (T.text text.now) buffer.old)
        × (buffer.new ≡ after_text (T.text text.now) buffer.old) }
{
    let mut count = Count { bytes: 0 };
    text.add(&mut count);
    refuse_unless(count.bytes <= buffer.len(), Refusal::NoRoom)?;
    let mut page = Page { buffer, at: 0 };
    text.add(&mut page);
    Ok(page.at)
}

// Room for the numbers of the most events that a schedule has, and for their answers: memory is fixed, with no heap.
const MOST_EVENTS: usize = 4_096;

const MOST_NUMBERS: usize = 3 * MOST_EVENTS;

const MOST_ANSWERS: usize = PER_ANSWER * MOST_EVENTS;

// The text of a run from fresh.
fn print_run(buffer: &mut [u8], events: &[u64], header: Header) -> Result<usize, Refusal>
    requires { (sizes_in_range header.sizes ≡ true)
        × ((header.events ≤ most_events) × (3 * header.events ≤ length events.now)) }
    ensures { (numbered result ≡ text_written (text_of_run header.sizes events.now header.events) buffer.old)
        × (buffer.new ≡ after_text (text_of_run header.sizes events.now header.events) buffer.old) }
{
    let mut log: [u64; MOST_ANSWERS] = [0; MOST_ANSWERS];
    // The run of a schedule that is read is never refused.
    let _ = machine::calls::whole_run(header.sizes, events, &mut log, header.events);
    let run = Run {
        scans: header.sizes.scans,
        log: &log,
        events: header.events,
    };
    print_text(buffer, &run)
}

// What the bytes of a schedule print: the text goes into the buffer, and its length is answered.
pub fn print(buffer: &mut [u8], bytes: &[u8]) -> Result<usize, Refusal>
    ensures { (numbered result ≡ text_written (text bytes.now) buffer.old)
        × (buffer.new ≡ after_text (text bytes.now) buffer.old)
        × (no result ≡ text_written_no (text bytes.now) buffer.old) }
{
    let mut room: [u64; MOST_NUMBERS] = [0; MOST_NUMBERS];
    match schedule::read_schedule(&mut room, bytes) {
        Ok(header) => print_run(buffer, &room, header),
        Err(refusal) => print_text(buffer, &RefusedSchedule { refusal }),
    }
}
