//! What follows from the definitions. A caller that needs a law calls its function, which does nothing.

ghost use Rattle.std.specs.Prelude.{◌≡◌, ℕ, ◌+◌, ◌<◌, ◌≤◌, List, All, length, map, slice_index_or};
ghost use Rattle.cx_numbered.specs.Numbered.{DecidesEquality};
ghost use Rattle.cx_base.specs.declared.numbers.TermId.{TermId};
ghost use Rattle.cx_term.specs.declared.node.Node.{Node as ANode};
ghost use Rattle.cx_term.specs.Term.{Term, Arguments, arguments, members};
ghost use Rattle.cx_term.specs.Same.{same_term, same_terms};
ghost use Rattle.cx_term.specs.Size.{nodes, depth, all_nodes};
ghost use Rattle.cx_term.specs.Table.{Table, IsTerm, HasParts, Extends, tree_at, tree_of};

/// Equality of trees and of lists of trees is decided, and a list of trees and its members determine one
/// another.
#[tactic(auto, using(crate::proofs::Trees::terms_decided, crate::proofs::Trees::lists_decided, crate::proofs::Trees::members_arguments, crate::proofs::Trees::arguments_members))]
pub fn equality_is_decided()
    ensures terms { DecidesEquality same_term }
    ensures lists { DecidesEquality same_terms }
    ensures members { (ts : List Term) → members (arguments ts) ≡ ts }
    ensures arguments { (xs : Arguments) → arguments (members xs) ≡ xs }
{}

/// A tree has at least one node, no path in it has more nodes than the tree, and a member of a list is no larger
/// than the list.
#[tactic(auto, using(crate::proofs::Trees::has_nodes, crate::proofs::Trees::paths_within, crate::proofs::Trees::member_within))]
pub fn sizes_are_bounded()
    ensures some { (t : Term) → 1 ≤ depth t }
    ensures paths { (t : Term) → depth t ≤ nodes t }
    ensures members { (ts : List Term) (i : ℕ) (d : Term) → i < length ts → nodes (slice_index_or ts i d) ≤ all_nodes (arguments ts) }
{}

/// A table extends itself, one that extends a second that extends a third extends the third, and two that extend
/// one another are one.
#[tactic(auto, using(crate::proofs::Trees::extends_self, crate::proofs::Trees::extends_through, crate::proofs::Trees::extends_both))]
pub fn extending_is_an_order()
    ensures reflexive { (table : Table) → Extends table table }
    ensures transitive { (old now new : Table) → Extends old now → Extends now new → Extends old new }
    ensures antisymmetric { (a b : Table) → Extends a b → Extends b a → a ≡ b }
{}

/// What nodes and lists of numbers of a table stand for is the same in each table that extends it.
#[tactic(auto, using(crate::proofs::Trees::parts_kept, crate::proofs::Trees::tree_kept, crate::proofs::Trees::terms_kept, crate::proofs::Trees::list_kept))]
pub fn extending_keeps_trees()
    ensures parts { (old new : Table) (n : ANode) → Extends old new → HasParts old n → HasParts new n }
    ensures tree { (old new : Table) (n : ANode) → Extends old new → HasParts old n → tree_of new n ≡ tree_of old n }
    ensures terms { (old new : Table) (ts : List TermId) → Extends old new → All (IsTerm old) ts → All (IsTerm new) ts }
    ensures list { (old new : Table) (ts : List TermId) → Extends old new → All (IsTerm old) ts → map (tree_at new) ts ≡ map (tree_at old) ts }
{}
