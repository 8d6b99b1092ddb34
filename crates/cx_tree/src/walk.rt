ghost use Rattle.std.specs.Prelude.{◌≡◌};
ghost use Rattle.cx_tree.specs.Nodes.{stepped};

use cx_base::Place;

/// A walk over the nodes of a tree to one of them.
#[derive(Clone, Copy)]
pub enum Walk {
    /// So many nodes stand before it.
    Left(u32),
    /// It is found, at this place.
    Found(Place),
}

/// One node further, which stands at a place. A walk that has found its node stays there.
pub fn step(walk: Walk, at: Place) -> Walk
    ensures { result ≡ stepped walk at }
{
    match walk {
        Walk::Left(0) => Walk::Found(at),
        Walk::Left(left) => Walk::Left(left - 1),
        Walk::Found(place) => Walk::Found(place),
    }
}
