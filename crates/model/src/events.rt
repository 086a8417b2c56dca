// The codes of events and the roles of parties, of their numbers.
ghost use Rattle.std.specs.Prelude.{◌≡◌};
ghost use Rattle.model.specs.Records.{role_of};
ghost use Rattle.model.specs.Events.{code_of};

use crate::{Code, Role};

impl From<u64> for Code {
    ghost from_gives = { λ n code. code ≡ code_of n };

    fn from(number: u64) -> Code {
        match number {
            1 => Code::Receive,
            2 => Code::Deliver,
            3 => Code::Drop,
            4 => Code::Duplicate,
            5 => Code::Propose,
            6 => Code::Refine,
            7 => Code::Decide,
            8 => Code::Crash,
            _ => Code::NoCode,
        }
    }
}

impl From<u64> for Role {
    ghost from_gives = { λ n role. role ≡ role_of n };

    fn from(number: u64) -> Role {
        match number {
            1 => Role::Proposer,
            2 => Role::Acceptor,
            3 => Role::Learner,
            _ => Role::NoRole,
        }
    }
}
