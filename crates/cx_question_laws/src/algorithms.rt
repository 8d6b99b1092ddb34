//! Laws of the definitions that read as algorithms, each as the contract of a function that does nothing.

ghost use Rattle.cx_question_laws.specs.Algorithms.{LawOfDeduction, LawOfBest, LawOfOrders, LawOfRanking, LawOfSubsumption};

/// Deduction gives the least assignment that fits, and none exactly where no assignment fits ([temp.deduct.call]).
pub fn deduction_is_least()
    ensures { LawOfDeduction }
{}

/// The best of a list is better than every other member, and such a member is the best ([over.match.best]).
pub fn best_is_better<A>()
    ensures { LawOfBest A }
{}

/// No two functions, and no two specialisations, are better than one another.
pub fn better_is_asymmetric()
    ensures { LawOfOrders }
{}

/// "Worse" is a strict order of conversions ([over.ics.rank]).
pub fn worse_is_strict()
    ensures { LawOfRanking }
{}

/// One normal form subsumes another exactly where it entails it ([temp.constr.order]).
pub fn subsumption_is_entailment()
    ensures { LawOfSubsumption }
{}
