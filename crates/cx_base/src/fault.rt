use crate::kind::Kind;
use crate::place::Place;
use crate::places::Places;

/// A fault of a unit.
#[derive(Debug, Drop)]
pub struct Fault {
    pub kind: Kind,
    /// Where it stands.
    pub at: Place,
    /// The other places that it is about, as the earlier declaration of a name that is declared again.
    pub also: Places,
    /// The uses that led to it, outermost last.
    pub chain: Places,
}
