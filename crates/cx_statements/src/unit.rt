ghost use Rattle.std.specs.Prelude.{◌≡◌, ◌<◌, length, slice_get, Some};
ghost use Rattle.std.specs.Option.{option_map};
ghost use Rattle.cx_tree.specs.UnitNodes.{unit_nodes};
ghost use Rattle.cx_statements.specs.DeclarationViews.{unit_tree};

use crate::declaration::Decl;
use crate::declarations::walk_decl;
use cx_base::{NodeId, Place};
use cx_tree::Walk;

/// A unit: its declarations in order ([basic.link]).
#[derive(Drop)]
pub struct Unit<'s> {
    pub declarations: Vec<Decl<'s>>,
}

impl Unit<'_> {
    /// The place of a node of the unit. Takes no memory.
    ///
    /// In a unit whose nodes are numbered from 0 the node of number `n` stands at `n` of the unit's nodes.
    pub fn place(&self, n: NodeId) -> Place
        requires { n.0 < length (unit_nodes (unit_tree self.now)) }
        ensures { option_map (λ m. m.at) (slice_get (unit_nodes (unit_tree self.now)) n.0) ≡ Some result }
    {
        let mut walk = Walk::Left(n.0);
        for declaration in &self.declarations {
            walk = walk_decl(declaration, walk);
        }
        match walk {
            Walk::Found(place) => place,
            Walk::Left(_) => unreachable!(),
        }
    }
}
