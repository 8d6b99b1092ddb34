//! The laws of scopes ([basic.scope]), over the definitions of names. A caller that needs a law calls its function, which does nothing.
#![tactic(auto)]

ghost use Rattle.cx_scope_laws.specs.Laws.{NotedHasKind, DeclaredHasKind, NotedKeepsOthers, DeclaredKeepsOthers, NotedKeepsOuter, DeclaredKeepsOuter, EnteredKeepsKinds, LeftAsEntered};

/// A name that is noted or declared has then that kind, or stays a function template where a function follows.
#[tactic(auto, using(crate::proofs::Lawful::noted_has_kind, crate::proofs::Lawful::declared_has_kind))]
pub fn declaring_sets_a_name()
    ensures noted { NotedHasKind }
    ensures declared { DeclaredHasKind }
{}

/// Noting or declaring a name changes what no other name is.
#[tactic(auto, using(crate::proofs::Lawful::noted_keeps_others, crate::proofs::Lawful::declared_keeps_others))]
pub fn declaring_keeps_other_names()
    ensures noted { NotedKeepsOthers }
    ensures declared { DeclaredKeepsOthers }
{}

/// Noting or declaring a name changes no scope but the innermost.
#[tactic(auto, using(crate::proofs::Lawful::noted_keeps_outer, crate::proofs::Lawful::declared_keeps_outer))]
pub fn declaring_keeps_outer_scopes()
    ensures noted { NotedKeepsOuter }
    ensures declared { DeclaredKeepsOuter }
{}

/// A scope that opens changes what no name is.
pub fn entering_keeps_names()
    ensures { EnteredKeepsKinds }
{}

/// A scope that opens and closes leaves nothing behind, whatever is noted in it.
#[tactic(auto, using(crate::proofs::Lawful::left_as_entered))]
pub fn leaving_undoes_entering()
    ensures { LeftAsEntered }
{}
