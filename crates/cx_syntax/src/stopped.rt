ghost use Rattle.std.specs.Prelude.{◌≡◌};

use cx_base::{Kind, Place};
use std::alloc::{AllocError, AllocFailed};

/// Why a reader gives no tree.
#[derive(Clone, Copy, Debug, PartialEq, Eq)]
pub enum Stopped {
    /// Memory ran out. No definition gives it.
    NoMemory,
    /// The tokens end where more are wanted.
    Ended,
    /// The grammar is nested deeper than the levels that are asked.
    Exhausted,
    /// A token does not fit.
    Fault(Kind, Place),
    /// More constructs are open at a token than the limit Depth admits.
    Deep(Place),
}

impl From<AllocError> for Stopped {
    ghost use Rattle.std.specs.Prelude.{◌≡◌};
    ghost use Rattle.cx_syntax.specs.declared.stopped.Stopped.TheVariants.{NoMemory};

    ghost from_gives = { λ _ e. e ≡ NoMemory };

    fn from(_e: AllocError) -> Stopped {
        Stopped::NoMemory
    }
}

impl<T: Drop> From<AllocFailed<T>> for Stopped {
    ghost use Rattle.std.specs.Prelude.{◌≡◌};
    ghost use Rattle.cx_syntax.specs.declared.stopped.Stopped.TheVariants.{NoMemory};

    ghost from_gives = { λ _ e. e ≡ NoMemory };

    fn from(_e: AllocFailed<T>) -> Stopped {
        Stopped::NoMemory
    }
}
