//! The faults of forms and of names.

ghost use Rattle.std.specs.Prelude.{◌≡◌, [], ◌∷◌};
ghost use Rattle.cx_base.specs.declared.stop.Stop.TheVariants as stop;
ghost use Rattle.cx_engine.specs.Names.{redeclared, unknown_name};
ghost use Rattle.cx_engine.specs.Forms.{unsupported};

use cx_base::{Fault, Kind, Place, Places, Stop};
use std::alloc::Global;

/// A list of one place. It takes no memory.
fn one_place(alloc: Global, place: Place) -> Places
    ensures { result ≡ place ∷ [] }
{
    let mut places = Places::new(alloc);
    let _ = places.push(place);
    places
}

/// A name is declared again.
pub fn redeclared(alloc: Global, at: Place, earlier: Place) -> Stop
    ensures { result ≡ stop.Fault (redeclared at earlier) }
{
    Stop::Fault(Fault {
        kind: Kind::Redeclared,
        at,
        also: one_place(alloc, earlier),
        chain: Places::new(alloc),
    })
}

/// A name is not declared before.
pub fn unknown_name(alloc: Global, at: Place) -> Stop
    ensures { result ≡ stop.Fault (unknown_name at) }
{
    Stop::Fault(Fault {
        kind: Kind::UnknownName,
        at,
        also: Places::new(alloc),
        chain: Places::new(alloc),
    })
}

/// A form that is not built.
pub fn unsupported(alloc: Global, at: Place) -> Stop
    ensures { result ≡ stop.Fault (unsupported at) }
{
    Stop::Fault(Fault {
        kind: Kind::Unsupported,
        at,
        also: Places::new(alloc),
        chain: Places::new(alloc),
    })
}
