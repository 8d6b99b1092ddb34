//! Rows of texts with what the grammar answers on them: they show that its productions mean what the profile says. Each is
//! proved by computing, as the contract of a function that does nothing.
#![tactic(auto)]

ghost use Rattle.std.specs.Prelude.{◌≡◌, true};
ghost use Rattle.grammar_rows.specs.Answers.{all_right};
ghost use Rattle.grammar_rows.specs.ExpressionsRows.{expressions_rows_1, expressions_rows_2, expressions_rows_3, expressions_rows_4};
ghost use Rattle.grammar_rows.specs.RequiresRows.{requires_rows_1, requires_rows_2};
ghost use Rattle.grammar_rows.specs.StatementsRows.{statements_rows_1, statements_rows_2, statements_rows_3};
ghost use Rattle.grammar_rows.specs.UnitsRows.{units_rows_1, units_rows_2, units_rows_3, units_rows_4};

/// Expressions, types and the clauses of a requires.
#[tactic(auto, using(crate::proofs::Rows::expressions_rows_1_right, crate::proofs::Rows::expressions_rows_2_right, crate::proofs::Rows::expressions_rows_3_right, crate::proofs::Rows::expressions_rows_4_right))]
pub fn rows_of_expressions()
    ensures rows_1 { all_right expressions_rows_1 ≡ true }
    ensures rows_2 { all_right expressions_rows_2 ≡ true }
    ensures rows_3 { all_right expressions_rows_3 ≡ true }
    ensures rows_4 { all_right expressions_rows_4 ≡ true }
{}

/// Requires-expressions.
#[tactic(auto, using(crate::proofs::Rows::requires_rows_1_right, crate::proofs::Rows::requires_rows_2_right))]
pub fn rows_of_requires()
    ensures rows_1 { all_right requires_rows_1 ≡ true }
    ensures rows_2 { all_right requires_rows_2 ≡ true }
{}

/// Statements.
#[tactic(auto, using(crate::proofs::Rows::statements_rows_1_right, crate::proofs::Rows::statements_rows_2_right, crate::proofs::Rows::statements_rows_3_right))]
pub fn rows_of_statements()
    ensures rows_1 { all_right statements_rows_1 ≡ true }
    ensures rows_2 { all_right statements_rows_2 ≡ true }
    ensures rows_3 { all_right statements_rows_3 ≡ true }
{}

/// Units.
#[tactic(auto, using(crate::proofs::Rows::units_rows_1_right, crate::proofs::Rows::units_rows_2_right, crate::proofs::Rows::units_rows_3_right, crate::proofs::Rows::units_rows_4_right))]
pub fn rows_of_units()
    ensures rows_1 { all_right units_rows_1 ≡ true }
    ensures rows_2 { all_right units_rows_2 ≡ true }
    ensures rows_3 { all_right units_rows_3 ≡ true }
    ensures rows_4 { all_right units_rows_4 ≡ true }
{}
