// The messages that an event sends, described by how many there are and what they are made of.
ghost use Rattle.std.specs.Prelude.{◌≡◌};
ghost use Rattle.decisions.specs.Sending.{count_of};

use model::Message;

// The messages to send, `count` of them, made of one.
#[derive(Clone, Copy, Debug, PartialEq, Eq, Hash)]
pub enum Send {
    Nothing,
    One(Message),
    // To everyone from 0.
    Everyone {
        count: u8,
        message: Message,
    },
    // To all from 0 but one.
    Others {
        count: u8,
        except: u8,
        message: Message,
    },
    // An acknowledgement to its proposer, then to every learner.
    Acknowledgements {
        count: u8,
        message: Message,
    },
}

impl Send {
    pub fn count(self) -> u8
        ensures { result ≡ count_of self }
    {
        match self {
            Send::Nothing => 0,
            Send::One(_) => 1,
            Send::Everyone { count, .. } => count,
            Send::Others { count, .. } => count,
            Send::Acknowledgements { count, .. } => count,
        }
    }
}
