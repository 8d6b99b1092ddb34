//! Laws of formulas, over atoms of every kind: each is the contract of a function that does nothing.

ghost use Rattle.cx_prop.specs.Laws.{LawOfEquality, LawOfClauses, LawOfCounts, LawOfRenaming};

/// Equality of formulas is decided by a test of the equality of their atoms.
pub fn equality_is_decided<A>()
    ensures { LawOfEquality A }
{}

/// A formula subsumes another by clauses ([temp.constr.order]) exactly where it entails it.
pub fn subsumption_is_entailment<A>()
    ensures { LawOfClauses A }
{}

/// Counts are at least 1, and the product of counts in 64 bits passes a number exactly where the true one does.
pub fn counts_pass_alike<A>()
    ensures { LawOfCounts A }
{}

/// Renaming atoms keeps truth and counts; where different atoms get different names, also equality and entailment.
pub fn renaming_keeps_formulas<A, B>()
    ensures { LawOfRenaming A B }
{}
