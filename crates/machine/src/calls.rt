// The calls on records that a caller lends: fresh, one step, a run; and a whole run from fresh on records of its own. Each tests all that it is given.
ghost use Rattle.std.specs.Prelude.{◌≡◌, ◌&&◌};
ghost use Rattle.choice.specs.Refusals.{no, numbered};
ghost use Rattle.sizes.specs.Sizes.{sizes_in_range};
ghost use Rattle.machine.specs.Slots.{taken_slot};
ghost use Rattle.machine.specs.Calls.{lent, FreshCall, StepCall, SaidCall, RunCall, WholeRunCall, enough_of};
ghost use Rattle.machine.specs.Counting.{lengths_are, are_sound, events_no};

use crate::PER_ANSWER;
use crate::lent::{all_in_range, free_first};
use crate::running::{drive, said_of};
use crate::step::step;
use choice::refusals::{Refusal, refuse_unless};
use model::records::Record;
use model::{Acceptor, Answer, Event, Kind, Learner, Message, Proposer};
use sizes::Sizes;

// Sizes are in range, and there are as many records and slots as they say.
fn sized(z: Sizes, p: usize, a: usize, l: usize, m: usize) -> bool
    ensures { result ≡ (sizes_in_range z && lengths_are z p a l m) }
{
    z.in_range()
        & ((p == z.proposers as usize)
            & (a == z.acceptors as usize)
            & (l == z.learners as usize)
            & (m == z.slots as usize))
}

// The sizes, how many records and slots there are, and what they hold, are in range.
fn is_sound(z: Sizes, ps: &[Proposer], acs: &[Acceptor], ls: &[Learner], t: &[Message]) -> bool
    ensures { result ≡ are_sound z ps.now acs.now ls.now t.now }
{
    sized(z, ps.len(), acs.len(), ls.len(), t.len())
        & all_in_range(ps, z)
        & all_in_range(acs, z)
        & all_in_range(ls, z)
        & all_in_range(t, z)
}

// Every record fresh and every slot free, or 1 and all as it was.
pub fn machine_fresh(
    z: Sizes,
    ps: &mut [Proposer],
    acs: &mut [Acceptor],
    ls: &mut [Learner],
    t: &mut [Message],
) -> Result<(), Refusal>
    ensures { FreshCall z (lent ps.old acs.old ls.old t.old) (no result)
        (lent ps.new acs.new ls.new t.new) }
{
    let sized = sized(z, ps.len(), acs.len(), ls.len(), t.len());
    refuse_unless(sized, Refusal::OutOfRange)?;
    ps.fill(Proposer::fresh());
    acs.fill(Acceptor::fresh());
    ls.fill(Learner::fresh());
    t.fill(Message::fresh());
    Ok(())
}

// One event, where the sizes, the lengths and all records are in range; otherwise a refusal with 1 and all as it was.
pub fn single_step(
    z: Sizes,
    ps: &mut [Proposer],
    acs: &mut [Acceptor],
    ls: &mut [Learner],
    t: &mut [Message],
    e: Event,
) -> Result<Answer, Refusal>
    ensures { StepCall z (lent ps.old acs.old ls.old t.old) e (numbered result)
        (lent ps.new acs.new ls.new t.new) }
{
    let sound = is_sound(z, ps, acs, ls, t);
    refuse_unless(sound, Refusal::OutOfRange)?;
    step(z, ps, acs, ls, t, e)
}

// An answer as the two numbers that a log, and so C, has of it: 0 for ok, a refusal's number, 256 and the learner, 512 and the proposer; and the set.
#[repr(C)]
#[derive(Clone, Copy, Debug, PartialEq, Eq, Hash)]
pub struct Said {
    pub no: u64,
    pub set: u64,
}

// One event as above, its answer as two numbers.
pub fn machine_step(
    z: Sizes,
    ps: &mut [Proposer],
    acs: &mut [Acceptor],
    ls: &mut [Learner],
    t: &mut [Message],
    e: Event,
) -> Said
    ensures { SaidCall z (lent ps.old acs.old ls.old t.old) e result
        (lent ps.new acs.new ls.new t.new) }
{
    let answer = single_step(z, ps, acs, ls, t, e);
    said_of(answer)
}

// There are numbers for `n` events, three for each, and room for their answers.
fn enough(numbers: usize, room: usize, n: u16) -> bool
    ensures { result ≡ enough_of numbers room n }
{
    let n = n as usize;
    (3 * n <= numbers) & (PER_ANSWER * n <= room)
}

// 3 for more than 4,096 events, and 8 where there is not enough for them.
fn check_events(numbers: usize, room: usize, n: u16) -> Result<(), Refusal>
    ensures { no result ≡ events_no numbers room n }
{
    refuse_unless(n <= 4096, Refusal::NotThere)?;
    refuse_unless(enough(numbers, room, n), Refusal::NoRoom)
}

// The first `n` events of a schedule's numbers, and their answers into the log; or a refusal and all as it was.
pub fn machine_run(
    z: Sizes,
    ps: &mut [Proposer],
    acs: &mut [Acceptor],
    ls: &mut [Learner],
    t: &mut [Message],
    events: &[u64],
    log: &mut [u64],
    n: u16,
) -> Result<(), Refusal>
    ensures { RunCall z (lent ps.old acs.old ls.old t.old)
        events.now n log.old (no result)
        (lent ps.new acs.new ls.new t.new) log.new }
{
    refuse_unless(is_sound(z, ps, acs, ls, t), Refusal::OutOfRange)?;
    check_events(events.len(), log.len(), n)?;
    drive(z, ps, acs, ls, t, events, log, n as usize);
    Ok(())
}

// A slot that is not free.
fn taken_slot() -> Message
    ensures { result ≡ taken_slot }
{
    Message {
        kind: Kind::Internal as u8,
        ..Message::fresh()
    }
}

// A run of `n` events from fresh, on records of its own, as many as any run has: memory is fixed, with no heap. Slots past the run's number are taken. The answers go into the log; a refusal leaves the log as it was.
pub fn whole_run(z: Sizes, events: &[u64], log: &mut [u64], n: u16) -> Result<(), Refusal>
    ensures { WholeRunCall z events.now n log.old (no result) log.new }
{
    refuse_unless(z.in_range(), Refusal::OutOfRange)?;
    check_events(events.len(), log.len(), n)?;
    let mut ps = [Proposer::fresh(); 8];
    let mut acs = [Acceptor::fresh(); 7];
    let mut ls = [Learner::fresh(); 8];
    let mut t = [taken_slot(); 512];
    free_first(&mut t, z.slots as usize);
    drive(
        z, &mut ps, &mut acs, &mut ls, &mut t, events, log, n as usize,
    );
    Ok(())
}
