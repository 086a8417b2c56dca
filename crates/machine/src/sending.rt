// The messages that an event sends, one by one, of what describes them.
ghost use Rattle.std.specs.Prelude.{◌≡◌, ◌<◌, ◌-◌, eqb};
ghost use Rattle.std.specs.Prelude.{if◌then◌else◌};
ghost use Rattle.decisions.specs.Sending.{addressed_to, skipping, to_proposer, item_of};

use decisions::sending::Send;
use model::records::Record;
use model::{Kind, Message};
use sets::ProposerId;

fn addressed_to(mut message: Message, addressee: u8) -> Message
    ensures { result ≡ addressed_to message addressee }
{
    message.addressee = addressee;
    message
}

// Number `k` of all but one.
fn skipping(except: u8, k: u8) -> u8
    requires { k < 255 }
    ensures { result ≡ skipping except k }
{
    if k < except { k } else { k + 1 }
}

// The acknowledgement to the proposer, of that to a learner.
fn to_proposer(m: Message) -> Message
    ensures { result ≡ to_proposer m }
{
    let addressee = m.proposer.0;
    let acceptor = m.acceptor;
    let set = m.set;
    Message {
        kind: Kind::Acknowledgement as u8,
        addressee,
        proposer: ProposerId(0),
        acceptor,
        number: m.number,
        set,
    }
}

// Acknowledgement `k`: the first to the proposer, the others to the learners.
fn acknowledgement(m: Message, k: u8) -> Message
    ensures { result ≡ if eqb k 0 then to_proposer m else addressed_to m (k - 1) }
{
    if k == 0 {
        to_proposer(m)
    } else {
        addressed_to(m, k - 1)
    }
}

// Message `k` of what is to be sent.
#[tactic(auto, unfolding(decisions::specs::Sending::item_of))]
pub(crate) fn item(send: Send, k: u8) -> Message
    requires { k < 255 }
    ensures { result ≡ item_of send k }
{
    match send {
        Send::Nothing => Message::fresh(),
        Send::One(message) => message,
        Send::Everyone { message, .. } => addressed_to(message, k),
        Send::Others {
            except,
            message,
            ..
        } => addressed_to(message, skipping(except, k)),
        Send::Acknowledgements { message, .. } => acknowledgement(message, k),
    }
}
