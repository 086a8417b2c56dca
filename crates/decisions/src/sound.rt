// Sizes that are in range. Nothing compares or prints them.
ghost use Rattle.std.specs.Prelude.{◌≡◌, true};
ghost use Rattle.sizes.specs.Sizes.{sizes_in_range};
ghost use Rattle.sizes.specs.declared.Sizes.{Sizes};
ghost use Rattle.choice.specs.Refusals.{numbered};
ghost use Rattle.choice.specs.Tests.{◌unless◌, ◌⨾◌, ok};
ghost use Rattle.decisions.specs.Arms.{given};

use choice::refusals::{Refusal, refuse_unless};
use sizes::Sizes;
use std::marker::Model;

#[derive(Clone, Copy)]
pub(crate) struct Sound {
    sizes: Sizes,
}

impl Model for Sound {
    ghost Value = { Sizes };

    ghost view = { λ s. s.sizes };

    ghost invariant = { λ s. sizes_in_range s.sizes ≡ true };

    ghost inverse = { λ z. record { sizes = z } };
}

impl Sound {
    pub(crate) fn check(sizes: Sizes) -> Result<Sound, Refusal>
        ensures { numbered result ≡ given (2 unless sizes_in_range sizes ⨾ ok) sizes }
    {
        refuse_unless(sizes.in_range(), Refusal::NoSuchCode)?;
        Ok(Sound { sizes })
    }

    pub(crate) fn sizes(self) -> Sizes
        ensures same { result ≡ self }
        ensures in_range { sizes_in_range result ≡ true }
    {
        self.sizes
    }
}
