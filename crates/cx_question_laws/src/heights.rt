//! The laws of heights and of limits, as contracts of functions that do nothing.

ghost use Rattle.cx_question_laws.specs.Laws.{LawOfHeights, LawOfLimits};

/// An answer of a question at a height, other than that the limit Height is passed, is its answer at every greater
/// height. The same holds of substitution, of typing and of the value of a requires-expression.
pub fn answers_stay()
    ensures { LawOfHeights }
{}

/// An answer that is no limit is the answer with all limits greater, of each question and of the verdict on a unit; and a
/// unit that is refused by a fault is well formed with no limits.
pub fn verdicts_stay()
    ensures { LawOfLimits }
{}
