// The records that a caller lends: one read or stored by its party's number, a learner by one place, all tested; and the table of messages searched and posted to.
ghost use Rattle.std.specs.Prelude.{◌≡◌, ◌++◌, ◌<◌, ◌≤◌, ℕ, length, get_or, set, drop, replicate};
ghost use Rattle.model.specs.Records.{fresh_learner, free_slot, unheard};
ghost use Rattle.model.specs.Ranges.{all};
ghost use Rattle.model.specs.Table.{post};
ghost use Rattle.decisions.specs.Sending.{items_of, lacking};
ghost use Rattle.machine.specs.Roles.{ear_of, put_ear};
ghost use Rattle.machine.specs.Slots.{left_after, lowest_from, FreeFrom, Ready};

use crate::sending::item;
use decisions::arms::Ear;
use decisions::sending::Send;
use model::records::Record;
use model::{Acceptor, Heard, Learner, Message, Proposer};
use sets::{AcceptorId, LearnerId, ProposerId};
use sizes::Sizes;

// ---- by the number of a party, which is of its role's type

// A party's number, and the kind of record that it finds: a number of another role is a type error.
pub(crate) trait Number: Copy {
    type Party: Record;

    ghost index: { Self → ℕ };

    fn place(self) -> usize
        ensures { result ≡ index self };
}

impl Number for ProposerId {
    type Party = Proposer;

    ghost index = { λ i. i.0 };

    fn place(self) -> usize {
        self.0 as usize
    }
}

impl Number for AcceptorId {
    type Party = Acceptor;

    ghost index = { λ i. i.0 };

    fn place(self) -> usize {
        self.0 as usize
    }
}

impl Number for LearnerId {
    type Party = Learner;

    ghost index = { λ i. i.0 };

    fn place(self) -> usize {
        self.0 as usize
    }
}

pub(crate) fn load<I: Number>(t: &[I::Party], i: I) -> I::Party
    requires { I.index i < length t.now }
    ensures { result ≡ get_or t.now (I.index i) I.Party.fresh_record }
{
    t[i.place()]
}

pub(crate) fn store<I: Number>(t: &mut [I::Party], i: I, x: I::Party)
    requires { I.index i < length t.old }
    ensures { t.new ≡ set t.old (I.index i) x }
{
    t[i.place()] = x;
}

// What is heard of a proposer: nothing of one past the places. The places are lent: `Learner::heard_of` takes all eight by value.
fn heard_of(places: &[Heard; 8], p: ProposerId) -> Heard
    ensures { result ≡ get_or places.now p.0 unheard }
{
    let at = p.0 as usize;
    if at < 8 { places[at] } else { Heard::unheard() }
}

// And nothing is held of one.
fn hold(places: &mut [Heard; 8], p: ProposerId, heard: Heard)
    ensures { places.new ≡ set places.old p.0 heard }
{
    let at = p.0 as usize;
    if at < 8 {
        places[at] = heard;
    }
}

// What a learner has of itself and of one proposer: the other places are not read.
pub(crate) fn load_ear(t: &[Learner], i: LearnerId, p: ProposerId) -> Ear
    requires { i.0 < length t.now }
    ensures { result ≡ ear_of (get_or t.now i.0 fresh_learner) p.0 }
{
    let learner = &t[i.place()];
    Ear {
        alive: learner.alive,
        learnt: learner.learnt,
        heard: heard_of(&learner.heard, p),
    }
}

pub(crate) fn store_ear(t: &mut [Learner], i: LearnerId, p: ProposerId, x: Ear)
    requires { i.0 < length t.old }
    ensures { t.new ≡ set t.old i.0 (put_ear (get_or t.old i.0 fresh_learner) p.0 x) }
{
    let learner = &mut t[i.place()];
    learner.alive = x.alive;
    learner.learnt = x.learnt;
    hold(&mut learner.heard, p, x.heard);
}

// Whether every record is in range, for a run of these sizes. All are tested: joined tests without a branch are faster than an early end.
pub(crate) fn all_in_range<R: Record>(t: &[R], z: Sizes) -> bool
    ensures { result ≡ all (R.is_in_range z) t.now }
{
    let mut sound = true;
    for x in t {
        sound &= x.in_range(z);
    }
    sound
}

// The first `n` slots free.
pub(crate) fn free_first(t: &mut [Message], n: usize)
    requires { n ≤ length t.old }
    ensures { t.new ≡ replicate n free_slot ++ drop n t.old }
{
    t[..n].fill(Message::fresh());
}

// Of `left` free slots still to be found, those left after a slot.
fn left_after(m: Message, left: u8) -> u8
    requires { 0 < left }
    ensures { result ≡ left_after m left }
{
    if m.is_free() {
        return left - 1;
    }
    left
}

// How many of `need` free slots the table lacks. The search ends where it has found them.
pub(crate) fn room(t: &[Message], need: u8) -> u8
    ensures { result ≡ lacking need t.now }
{
    let mut left = need;
    for m in t {
        if left == 0 {
            break;
        }
        left = left_after(*m, left);
    }
    left
}

// The lowest free slot from `from` on, where there is one. A `for` over the slots would have to answer for a table without one.
pub(crate) fn next_free(t: &[Message], from: usize) -> usize
    requires { FreeFrom from t.now }
    ensures { result ≡ lowest_from from t.now }
{
    let mut at = from;
    while !t[at].is_free() {
        at += 1;
    }
    at
}

// Each message into the lowest free slot at that moment. No slot below `at` is free.
pub(crate) fn send_all(t: &mut [Message], s: Send)
    requires { Ready s t.old }
    ensures { t.new ≡ post (items_of s) t.old }
{
    let mut at: usize = 0;
    for j in 0..s.count() {
        let k = next_free(t, at);
        t[k] = item(s, j);
        at = k + 1;
    }
}
