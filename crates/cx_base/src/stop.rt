ghost use Rattle.std.specs.Prelude.{◌≡◌};

use crate::fault::Fault;
use crate::limit::Limit;
use crate::place::Place;
use std::alloc::{AllocError, AllocFailed};

/// Why a call stops without its answer.
#[derive(Debug, Drop)]
pub enum Stop {
    /// The unit has a fault.
    Fault(Fault),
    /// The unit passes a limit at this place.
    Limit(Limit, Place),
    /// Memory ran out.
    NoMemory,
}

impl From<AllocError> for Stop {
    ghost use Rattle.std.specs.Prelude.{◌≡◌};
    ghost use Rattle.cx_base.specs.declared.stop.Stop.TheVariants.{NoMemory};

    ghost from_gives = { λ _ e. e ≡ NoMemory };

    fn from(_e: AllocError) -> Stop {
        Stop::NoMemory
    }
}

impl<T: Drop> From<AllocFailed<T>> for Stop {
    ghost use Rattle.std.specs.Prelude.{◌≡◌};
    ghost use Rattle.cx_base.specs.declared.stop.Stop.TheVariants.{NoMemory};

    ghost from_gives = { λ _ e. e ≡ NoMemory };

    fn from(_e: AllocFailed<T>) -> Stop {
        Stop::NoMemory
    }
}
