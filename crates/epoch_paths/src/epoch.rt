ghost use Rattle.std.specs.Prelude.{◌≡◌, ◌+◌, ◌<◌, ◌^◌};

use std::marker::Model;

/// The number of an epoch, below 65,536. Contracts see it as that number.
#[derive(Clone, Copy)]
pub struct Epoch {
    number: u32,
}

impl Model for Epoch {
    ghost use Rattle.std.specs.Prelude.{ℕ, ◌<◌, ◌^◌};

    ghost Value = { ℕ };

    ghost view = { λ e. e.number };

    ghost invariant = { λ e. e.number < 2 ^ 16 };

    ghost inverse = { λ n. record { number = n } };
}

impl Epoch {
    /// The epoch of this number.
    #[inline(always)]
    pub fn of(number: u32) -> Epoch
        requires { number < 2 ^ 16 }
        ensures { result ≡ number }
    {
        Epoch { number }
    }

    /// Its number.
    #[inline(always)]
    pub fn number(self) -> u32
        ensures { result ≡ self }
    {
        self.number
    }

    /// By what lists note it: its number and 1, since 0 stands for none.
    #[inline(always)]
    pub fn note(self) -> u32
        ensures note { result ≡ self + 1 }
        ensures short { self < 2 ^ 16 }
    {
        1 + self.number
    }
}
