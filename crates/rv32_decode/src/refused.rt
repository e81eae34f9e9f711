ghost use Rattle.std.specs.Prelude.{◌≡◌};
ghost use Rattle.rv32_decode.specs.Refused.{name_of};

use thiserror::Error;

/// Why a word is not executed.
#[derive(Clone, Copy, Debug, PartialEq, Eq, Error)]
pub enum Refused {
    /// The word is no RV32I instruction.
    #[error("Illegal")]
    Illegal,
    /// The word is ECALL or EBREAK, which ask for an execution environment that an epoch does not have.
    #[error("System")]
    System,
}

impl Refused {
    /// The printed name: `Illegal` or `System`.
    pub fn name(self) -> &'static str
        ensures { result.now ≡ name_of self }
    {
        match self {
            Refused::Illegal => "Illegal",
            Refused::System => "System",
        }
    }
}
