//! Laws of derivations, over atoms of every kind: each is the contract of a function that does nothing.

ghost use Rattle.cx_derive.specs.Laws.{LawOfDerivations, LawOfSearch, LawOfCanonicalDerivations, LawOfRenamedDerivations};

/// A right derivation of one formula against another, whoever made it, shows that the first entails the second.
pub fn right_derivations_entail<A>()
    ensures { LawOfDerivations A }
{}

/// The search takes each sequent by its rule, and as many levels as a sequent has connectives are enough.
pub fn search_goes_by_rules<A>()
    ensures { LawOfSearch A }
{}

/// The search meets no open leaf exactly where the first formula entails the second; its steps are then a right
/// derivation of the one against the other.
pub fn canonical_derivations_are_right<A>()
    ensures { LawOfCanonicalDerivations A }
{}

/// Renaming that gives different atoms different names keeps canonical derivations, open leaves and right steps.
pub fn renaming_keeps_derivations<A, B>()
    ensures { LawOfRenamedDerivations A B }
{}
