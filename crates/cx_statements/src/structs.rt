//! The nodes of structs with their members, walked over in order.
#![tactic(auto, using(cx_tree::proofs::Walks::walked_append))]

ghost use Rattle.std.specs.Prelude.{◌≡◌, map};
ghost use Rattle.std.specs.List.{flat_map};
ghost use Rattle.cx_tree.specs.Nodes.{walked};
ghost use Rattle.cx_tree.specs.UnitNodes.{alias_nodes, constant_nodes, member_nodes, struct_nodes};
ghost use Rattle.cx_statements.specs.DeclarationViews.{alias_tree, constant_tree, member_tree, struct_tree};

use crate::declaration::{Alias, Constant, Member, Struct};
use crate::functions::walk_function;
use crate::variables::walk_init;
use cx_tree::{Walk, step, walk_type};

/// Walks over the nodes of a name for a type.
pub(crate) fn walk_alias(alias: &Alias, walk: Walk) -> Walk
    ensures { result ≡ walked walk (alias_nodes (alias_tree alias.now)) }
{
    step(walk_type(&alias.of, walk), alias.at)
}

/// Walks over the nodes of a variable of the unit, or of a static constant.
pub(crate) fn walk_constant(constant: &Constant, walk: Walk) -> Walk
    ensures { result ≡ walked walk (constant_nodes (constant_tree constant.now)) }
{
    let walk = walk_type(&constant.of, walk);
    step(walk_init(&constant.init, walk), constant.at)
}

/// Walks over the nodes of a member.
fn walk_member(member: &Member, walk: Walk) -> Walk
    ensures { result ≡ walked walk (member_nodes (member_tree member.now)) }
{
    match member {
        Member::Empty { at, .. } => step(walk, *at),
        Member::Alias(alias) => walk_alias(alias, walk),
        Member::Field { at, of, .. } => step(walk_type(of, walk), *at),
        Member::Constant(constant) => walk_constant(constant, walk),
        Member::Function(function) => walk_function(function, walk),
    }
}

/// Walks over the nodes of members, in order.
fn walk_members(items: &[Member], walk: Walk) -> Walk
    ensures { result ≡ walked walk (flat_map member_nodes (map member_tree items.now)) }
{
    let mut walk = walk;
    for item in items {
        walk = walk_member(item, walk);
    }
    walk
}

/// Walks over the nodes of a struct.
pub(crate) fn walk_struct(item: &Struct, walk: Walk) -> Walk
    ensures { result ≡ walked walk (struct_nodes (struct_tree item.now)) }
{
    step(walk_members(&item.members, walk), item.at)
}
