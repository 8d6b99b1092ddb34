//! Laws of the definitions: each is the contract of a function that does nothing.

ghost use Rattle.cx_questions.specs.Entailment.{LawOfEntailment};

/// The test of entailment is truth under every valuation ([temp.constr.order]).
pub fn entailment_is_truth<A>()
    ensures { LawOfEntailment A }
{}
