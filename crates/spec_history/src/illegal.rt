ghost use Rattle.std.specs.Prelude.{◌≡◌};
ghost use Rattle.spec_history.specs.Names.{name_of};

use thiserror::Error;

/// Why the flat machine refuses an entry.
#[derive(Clone, Copy, Debug, PartialEq, Eq, Error)]
pub enum Illegal {
    /// The core isn't there, doesn't run an epoch, is hurt or straight where it must not be, or, at a `Hurt` or a
    /// `Cancel`, there is no such epoch to be hurt or cancelled.
    #[error("NotThere")]
    NotThere,
    /// It isn't what comes next: the next epoch, or the next access, end or fault of the core's epoch.
    #[error("NotNext")]
    NotNext,
    /// A load doesn't give the bytes that its epoch sees.
    #[error("WrongValue")]
    WrongValue,
    /// The core's epoch isn't the homefree one.
    #[error("NotHomefree")]
    NotHomefree,
    /// A committed byte would change that another core, which isn't hurt, has read.
    #[error("HurtMissing")]
    HurtMissing,
    /// The loop is over.
    #[error("Over")]
    Over,
    /// Memory ran out.
    #[error("NoMemory")]
    NoMemory,
    /// The core's epoch ends the loop, and another core runs an epoch.
    #[error("NotCancelled")]
    NotCancelled,
}

impl Illegal {
    /// The printed name, which is the variant's.
    pub fn name(self) -> &'static str
        ensures { result.now ≡ name_of self }
    {
        match self {
            Illegal::NotThere => "NotThere",
            Illegal::NotNext => "NotNext",
            Illegal::WrongValue => "WrongValue",
            Illegal::NotHomefree => "NotHomefree",
            Illegal::HurtMissing => "HurtMissing",
            Illegal::Over => "Over",
            Illegal::NoMemory => "NoMemory",
            Illegal::NotCancelled => "NotCancelled",
        }
    }
}
