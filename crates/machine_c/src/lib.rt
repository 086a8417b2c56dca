// The calls of machine on lent records, under C's rules. A struct is laid out as in C, a slice is a pointer and a length, and a refusal its number, or 0.
#![tactic(auto)]

ghost use Rattle.machine.specs.Calls.{lent, FreshCall, SaidCall, RunCall};

use choice::refusals::no_of;
use machine::calls::Said;
use model::{Acceptor, Event, Learner, Message, Proposer};
use sizes::Sizes;

#[unsafe(no_mangle)]
pub extern "C" fn machine_fresh(
    z: Sizes,
    ps: &mut [Proposer],
    acs: &mut [Acceptor],
    ls: &mut [Learner],
    t: &mut [Message],
) -> u8
    ensures { FreshCall z (lent ps.old acs.old ls.old t.old) result
        (lent ps.new acs.new ls.new t.new) }
{
    no_of(machine::calls::machine_fresh(z, ps, acs, ls, t))
}

#[unsafe(no_mangle)]
pub extern "C" fn machine_step(
    z: Sizes,
    ps: &mut [Proposer],
    acs: &mut [Acceptor],
    ls: &mut [Learner],
    t: &mut [Message],
    e: Event,
) -> Said
    ensures { SaidCall z (lent ps.old acs.old ls.old t.old) e result
        (lent ps.new acs.new ls.new t.new) }
{
    machine::calls::machine_step(z, ps, acs, ls, t, e)
}

#[unsafe(no_mangle)]
pub extern "C" fn machine_run(
    z: Sizes,
    ps: &mut [Proposer],
    acs: &mut [Acceptor],
    ls: &mut [Learner],
    t: &mut [Message],
    events: &[u64],
    log: &mut [u64],
    n: u16,
) -> u8
    ensures { RunCall z (lent ps.old acs.old ls.old t.old)
        events.now n log.old result
        (lent ps.new acs.new ls.new t.new) log.new }
{
    no_of(machine::calls::machine_run(z, ps, acs, ls, t, events, log, n))
}
