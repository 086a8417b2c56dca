// The calls of include/yazhmandu.h, under C's rules: each is the call of the same name of yazhmandu. A slice is a pointer and a length, and a refusal its number, or 0.
#![tactic(auto)]

ghost use Rattle.std.specs.Prelude.{◌≡◌};
ghost use Rattle.numbers.specs.Coding.{written_next};
ghost use Rattle.clock.specs.Clock.{clock_rule_no, clock_rule, clock_time};
ghost use Rattle.forms.specs.Forms.{form_no};
ghost use Rattle.scan_table.specs.Table.{read_table};
ghost use Rattle.schedule.specs.Schedule.{read_schedule};
ghost use Rattle.model.specs.Rules.{propose_no, proposing, refine_no, refining, decide_no, deciding};
ghost use Rattle.printer.specs.Text.{text_written_no, text_written, after_text};
ghost use Rattle.printer.specs.Printing.{text};
ghost use Rattle.yazhmandu.specs.Asking.{WhereIsCall};
ghost use Rattle.yazhmandu.specs.Calls.{proposal_no, answer_record, answer_reply, hear_no, hear_record, hear_learns, buffer_no, buffer_record, acknowledged_no, acknowledged_record, rejected_no, rejected_record, call_no, call_record};

use choice::refusals::no_of;
use yazhmandu::acceptor_call::REPLY_SIZE;

#[unsafe(no_mangle)]
pub extern "C" fn ymd_clock(dock_tick: u32, scan_tick: u32, dock_time: u64, time: &mut u64) -> u8
    ensures { (result ≡ clock_rule_no dock_tick scan_tick dock_time)
        × (time.new ≡ clock_time (clock_rule dock_tick scan_tick dock_time) time.old) }
{
    no_of(yazhmandu::clock_call::ymd_clock(dock_tick, scan_tick, dock_time, time))
}

#[unsafe(no_mangle)]
pub extern "C" fn ymd_where_is(table: &[u8], set: &[u8], tag: u64, found: &mut [u64; 4]) -> u8
    ensures { WhereIsCall table.now set.now tag found.old result found.new }
{
    no_of(yazhmandu::shelf_call::ymd_where_is(table, set, tag, found))
}

#[unsafe(no_mangle)]
pub extern "C" fn ymd_answer_proposal(
    scans: u64,
    kept: &mut [u8],
    set: &[u8],
    reply: &mut [u8; REPLY_SIZE],
) -> u8
    ensures { (result ≡ proposal_no scans kept.old set.now)
        × (kept.new ≡ answer_record scans kept.old set.now)
        × (reply.new ≡ answer_reply scans kept.old set.now reply.old) }
{
    no_of(yazhmandu::acceptor_call::ymd_answer_proposal(scans, kept, set, reply))
}

#[unsafe(no_mangle)]
pub extern "C" fn ymd_hear(
    proposers: u64,
    acceptors: u64,
    scans: u64,
    kept: &mut [u8],
    proposer: u64,
    acceptor: u64,
    number: u64,
    set: &[u8],
    learns: &mut u8,
) -> u8
    ensures { (result ≡ hear_no proposers acceptors scans kept.old proposer acceptor number set.now)
        × (kept.new ≡ hear_record proposers acceptors scans kept.old proposer acceptor number set.now)
        × (learns.new ≡ hear_learns proposers acceptors scans kept.old proposer acceptor number set.now learns.old) }
{
    no_of(yazhmandu::learner_call::ymd_hear(
        proposers, acceptors, scans, kept, proposer, acceptor, number, set, learns,
    ))
}

#[unsafe(no_mangle)]
pub extern "C" fn ymd_buffer(acceptors: u64, scans: u64, kept: &mut [u8], set: &[u8]) -> u8
    ensures { (result ≡ buffer_no acceptors scans kept.old set.now)
        × (kept.new ≡ buffer_record acceptors scans kept.old set.now) }
{
    no_of(yazhmandu::proposer_calls::ymd_buffer(acceptors, scans, kept, set))
}

#[unsafe(no_mangle)]
pub extern "C" fn ymd_acknowledged(
    acceptors: u64,
    scans: u64,
    kept: &mut [u8],
    acceptor: u64,
    number: u64,
) -> u8
    ensures { (result ≡ acknowledged_no acceptors scans kept.old acceptor number)
        × (kept.new ≡ acknowledged_record acceptors scans kept.old acceptor number) }
{
    no_of(yazhmandu::proposer_calls::ymd_acknowledged(acceptors, scans, kept, acceptor, number))
}

#[unsafe(no_mangle)]
pub extern "C" fn ymd_rejected(
    acceptors: u64,
    scans: u64,
    kept: &mut [u8],
    acceptor: u64,
    number: u64,
    set: &[u8],
) -> u8
    ensures { (result ≡ rejected_no acceptors scans kept.old acceptor number set.now)
        × (kept.new ≡ rejected_record acceptors scans kept.old acceptor number set.now) }
{
    no_of(yazhmandu::proposer_calls::ymd_rejected(acceptors, scans, kept, acceptor, number, set))
}

#[unsafe(no_mangle)]
pub extern "C" fn ymd_propose(acceptors: u64, scans: u64, kept: &mut [u8]) -> u8
    ensures { (result ≡ call_no acceptors scans kept.old propose_no)
        × (kept.new ≡ call_record acceptors scans kept.old propose_no proposing) }
{
    no_of(yazhmandu::proposer_calls::ymd_propose(acceptors, scans, kept))
}

#[unsafe(no_mangle)]
pub extern "C" fn ymd_refine(acceptors: u64, scans: u64, kept: &mut [u8]) -> u8
    ensures { (result ≡ call_no acceptors scans kept.old (refine_no acceptors))
        × (kept.new ≡ call_record acceptors scans kept.old (refine_no acceptors) refining) }
{
    no_of(yazhmandu::proposer_calls::ymd_refine(acceptors, scans, kept))
}

#[unsafe(no_mangle)]
pub extern "C" fn ymd_decide(acceptors: u64, scans: u64, kept: &mut [u8]) -> u8
    ensures { (result ≡ call_no acceptors scans kept.old (decide_no acceptors))
        × (kept.new ≡ call_record acceptors scans kept.old (decide_no acceptors) deciding) }
{
    no_of(yazhmandu::proposer_calls::ymd_decide(acceptors, scans, kept))
}

#[unsafe(no_mangle)]
pub extern "C" fn ymd_check_schedule(bytes: &[u8]) -> u8
    ensures { result ≡ form_no (read_schedule bytes.now) }
{
    no_of(yazhmandu::form_calls::ymd_check_schedule(bytes))
}

#[unsafe(no_mangle)]
pub extern "C" fn ymd_check_table(bytes: &[u8]) -> u8
    ensures { result ≡ form_no (read_table bytes.now) }
{
    no_of(yazhmandu::form_calls::ymd_check_table(bytes))
}

#[unsafe(no_mangle)]
pub extern "C" fn ymd_run_text(output: &mut [u8], bytes: &[u8], length: &mut usize) -> u8
    ensures { (result ≡ text_written_no (text bytes.now) output.old)
        × (output.new ≡ after_text (text bytes.now) output.old)
        × (length.new ≡ written_next (text_written (text bytes.now) output.old) length.old) }
{
    no_of(yazhmandu::text_call::ymd_run_text(output, bytes, length))
}
