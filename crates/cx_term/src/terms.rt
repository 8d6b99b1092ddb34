ghost use Rattle.std.specs.Prelude.{◌≡◌, ◌≤◌, ◌↔◌, All, Ok, Err, IfOk, IsErrOf, IsOk, IsTrue, OnOk, OnErr, map};
ghost use Rattle.std.specs.Bool.{OnTrue, OnFalse};
ghost use Rattle.cx_numbered.specs.Numbered.{IsNumberOf, is_among};
ghost use Rattle.cx_base.specs.declared.limit.Limit.TheVariants.{TermSize};
ghost use Rattle.cx_base.specs.declared.stop.Stop.TheVariants.{Limit as Limited, NoMemory};
ghost use Rattle.cx_term.specs.Layout.{Counts};
ghost use Rattle.cx_term.specs.Same.{same_term, same_terms};
ghost use Rattle.cx_term.specs.Size.{nodes, depth, all_nodes, all_depth, is_small};
ghost use Rattle.cx_term.specs.Term.{arguments};
ghost use Rattle.cx_term.specs.Table.{no_terms, IsTerm, IsList, HasParts, Extends, tree_at, list_at, tree_of, with_tree, with_list};

use crate::count::Count;
use crate::node::Node;
use cx_base::{ArgsId, Limit, Place, Stop, TermId};
use indexmap::IndexMap;
use std::alloc::Global;
use std::marker::Model;

/// A table of trees, in which each tree has one number, and so has each list of trees.
#[derive(Drop)]
pub struct Terms<'a> {
    nodes: IndexMap<Node<'a>, Count>,
    lists: IndexMap<Vec<TermId>, Count>,
}

impl<'a> Model for Terms<'a> {
    ghost use Rattle.cx_term.specs.Table.{Table};
    ghost use Rattle.cx_term.specs.Code.{table_code};

    ghost Value = { Table };

    ghost coded = { table_code };

    ghost use Rattle.cx_term.specs.Layout.{table_in, IsTable};

    ghost view = { λ s. table_in s.nodes.entries s.lists.entries };

    ghost invariant = { λ s. IsTable s.nodes.entries s.lists.entries };
}

// These numbers in a list of their own.
fn copied(alloc: Global, args: &[TermId]) -> Result<Vec<TermId>, Stop>
    ensures items { IfOk result (λ v. v.items ≡ args.now) }
    ensures only_memory { OnErr result (IsErrOf result NoMemory) }
{
    Ok(Vec::from_slice(alloc, args)?)
}

impl<'a> Terms<'a> {
    /// A table with no number. Takes no memory.
    pub fn new(alloc: Global) -> Result<Terms<'a>, Stop>
        ensures { result ≡ Ok no_terms }
    {
        Ok(Terms {
            nodes: IndexMap::new(alloc),
            lists: IndexMap::new(alloc),
        })
    }

    // The node at a number, and how large its tree is.
    fn stored(&self, t: TermId) -> (Node<'a>, Count)
        requires { IsTerm self.now t }
        ensures parts { HasParts self.now result.0 }
        ensures tree { tree_of self.now result.0 ≡ tree_at self.now t }
        ensures number { IsNumberOf self.now.trees t.0 (tree_at self.now t) }
        ensures small { IsTrue (is_small (tree_at self.now t)) }
        ensures counts { Counts result.1 (nodes (tree_at self.now t)) (depth (tree_at self.now t)) }
        ensures shallow { depth (tree_at self.now t) ≤ 512 }
    {
        let (node, count) = self.nodes.get_index(t.0).unwrap();
        (*node, *count)
    }

    // The list at a number, and how large it is.
    fn stored_list(&self, a: ArgsId) -> (&[TermId], Count)
        requires { IsList self.now a }
        ensures terms { All (IsTerm self.now) result.0.now }
        ensures list { map (tree_at self.now) result.0.now ≡ list_at self.now a }
        ensures number { IsNumberOf self.now.lists a.0 (list_at self.now a) }
        ensures small { All (λ t. IsTrue (is_small (tree_at self.now t))) result.0.now }
        ensures counts { Counts result.1 (all_nodes (arguments (list_at self.now a))) (all_depth (arguments (list_at self.now a))) }
        ensures shallow { all_depth (arguments (list_at self.now a)) ≤ 512 }
    {
        let (list, count) = self.lists.get_index(a.0).unwrap();
        (list.as_slice(), *count)
    }

    // How large the tree of a node is.
    #[tactic(auto, unfolding(crate::specs::Size::nodes, crate::specs::Size::depth), using(crate::proofs::Counting::counting))]
    fn count(&self, node: Node<'a>) -> Count
        requires { HasParts self.now node }
        ensures { Counts result (nodes (tree_of self.now node.entry)) (depth (tree_of self.now node.entry)) }
    {
        match node {
            Node::Const(t) => self.stored(t).1.below_one(),
            Node::Ref(t) => self.stored(t).1.below_one(),
            Node::Member(t, _) => self.stored(t).1.below_one(),
            Node::Decltype(t) => self.stored(t).1.below_one(),
            Node::Inst(_, a) => self.stored_list(a).1.below_one(),
            Node::Form(_, a) => self.stored_list(a).1.below_one(),
            Node::Param(_)
            | Node::Scalar(_)
            | Node::Void
            | Node::Struct(_)
            | Node::Val(_, _)
            | Node::Local(_)
            | Node::Functions(_, _) => Count::none().below_one(),
        }
    }

    // How large a list of trees is.
    fn count_all(&self, args: &[TermId]) -> Count
        requires { All (IsTerm self.now) args.now }
        ensures counts { Counts result (all_nodes (arguments (map (tree_at self.now) args.now))) (all_depth (arguments (map (tree_at self.now) args.now))) }
        ensures shallow { all_depth (arguments (map (tree_at self.now) args.now)) ≤ 512 }
    {
        let mut total = Count::none();
        for t in args {
            total = total.and(self.stored(*t).1);
        }
        total
    }

    /// The number of the tree of this node, whose numbers are of this table: the one that it has, or a new one.
    ///
    /// Refuses with Limit TermSize at the place exactly where the tree has more than 65,536 nodes or a node
    /// with more than 511 above it. Refuses besides for want of memory alone, and where the tree is there not at
    /// all. The table is as before where it refuses.
    pub fn intern(&mut self, node: Node<'a>, at: Place) -> Result<TermId, Stop>
        requires { HasParts self.old node }
        ensures number { IfOk result (λ t. IsNumberOf self.new.trees t.0 (tree_of self.old node.entry)) }
        ensures ok { OnOk result (self.new ≡ with_tree self.old (tree_of self.old node.entry)) }
        ensures extends { Extends self.old self.new }
        ensures err { OnErr result (self.new ≡ self.old) }
        ensures limit { OnFalse (is_small (tree_of self.old node.entry)) (result ≡ Err (Limited TermSize at)) }
        ensures only_memory { OnTrue (is_small (tree_of self.old node.entry)) (OnErr result (IsErrOf result NoMemory)) }
        ensures there { OnTrue (is_among same_term self.old.trees (tree_of self.old node.entry)) (IsOk result) }
    {
        if let Some(number) = self.nodes.get_index_of(&node) {
            return Ok(TermId(number));
        }
        let count = self.count(node);
        if count.is_too_large() {
            return Err(Stop::Limit(Limit::TermSize, at));
        }
        let number = self.nodes.len();
        self.nodes.insert(node, count)?;
        Ok(TermId(number))
    }

    /// The number of the list of these trees, by numbers of this table: the one that it has, or a new one.
    ///
    /// Refuses for want of memory alone, and where the list is there not at all. The table is as before where it
    /// refuses.
    pub fn intern_args(&mut self, args: &[TermId]) -> Result<ArgsId, Stop>
        requires { All (IsTerm self.old) args.now }
        ensures number { IfOk result (λ a. IsNumberOf self.new.lists a.0 (map (tree_at self.old) args.now)) }
        ensures ok { OnOk result (self.new ≡ with_list self.old (map (tree_at self.old) args.now)) }
        ensures extends { Extends self.old self.new }
        ensures err { OnErr result (self.new ≡ self.old) }
        ensures only_memory { OnErr result (IsErrOf result NoMemory) }
        ensures there { OnTrue (is_among same_terms self.old.lists (map (tree_at self.old) args.now)) (IsOk result) }
    {
        if let Some(number) = self.lists.get_index_of(args) {
            return Ok(ArgsId(number));
        }
        let count = self.count_all(args);
        let list = copied(*self.lists.allocator(), args)?;
        let number = self.lists.len();
        self.lists.insert(list, count)?;
        Ok(ArgsId(number))
    }

    /// The top of the tree that a number of this table stands for. The tree has this number alone, and is within
    /// the limits. Takes no memory.
    pub fn node(&self, t: TermId) -> Node<'a>
        requires { IsTerm self.now t }
        ensures parts { HasParts self.now result }
        ensures tree { tree_of self.now result ≡ tree_at self.now t }
        ensures number { IsNumberOf self.now.trees t.0 (tree_at self.now t) }
        ensures small { IsTrue (is_small (tree_at self.now t)) }
    {
        self.stored(t).0
    }

    /// The members of the list that a number of this table stands for. The list has this number alone, and each
    /// member is within the limits and no larger than the list. Takes no memory.
    pub fn args(&self, a: ArgsId) -> &[TermId]
        requires { IsList self.now a }
        ensures terms { All (IsTerm self.now) result.now }
        ensures list { map (tree_at self.now) result.now ≡ list_at self.now a }
        ensures number { IsNumberOf self.now.lists a.0 (list_at self.now a) }
        ensures small { All (λ t. IsTrue (is_small (tree_at self.now t))) result.now }
        ensures smaller { All (λ t. nodes (tree_at self.now t) ≤ all_nodes (arguments (list_at self.now a))) result.now }
    {
        self.stored_list(a).0
    }

    /// Whether two numbers of this table stand for one tree. Takes no memory.
    pub fn same(&self, a: TermId, b: TermId) -> bool
        requires left { IsTerm self.now a }
        requires right { IsTerm self.now b }
        ensures { IsTrue result ↔ (tree_at self.now a ≡ tree_at self.now b) }
    {
        let _ = &self.nodes;
        a == b
    }
}
