//! Expressions and types: so many levels are enough as there is room for constructs.

ghost use Rattle.std.specs.Prelude.{ℕ};
ghost use Rattle.cx_syntax.specs.declared.context.Context.{Context};
ghost use Rattle.cx_syntax_laws.specs.GrammarLaws.{GrammarLaws};
ghost use Rattle.cx_productions.specs.Levels.{levels};
ghost use Rattle.cx_productions.specs.Types.{type_id};
ghost use Rattle.cx_productions.specs.Expressions.{expr};
ghost use Rattle.cx_productions.specs.Arguments.{argument};
ghost use Rattle.cx_productions.specs.Clauses.{clause};

/// Expressions of each level of precedence ([expr]).
#[tactic(auto, using(crate::proofs::Lasting::laws_of_expr))]
pub fn laws_of_expressions()
    ensures laws { (level : ℕ) (c : Context) → GrammarLaws c.room (λ n. expr (levels n) level c) }
{}

/// Types ([dcl.type]).
#[tactic(auto, using(crate::proofs::Lasting::laws_of_type))]
pub fn laws_of_types()
    ensures laws { (c : Context) → GrammarLaws c.room (λ n. type_id (levels n) c) }
{}

/// Template arguments ([temp.arg]).
#[tactic(auto, using(crate::proofs::Lasting::laws_of_argument))]
pub fn laws_of_arguments()
    ensures laws { (c : Context) → GrammarLaws c.room (λ n. argument (levels n) c) }
{}

/// The clause of a requires ([temp.pre]).
#[tactic(auto, using(crate::proofs::Lasting::laws_of_clause))]
pub fn laws_of_clauses()
    ensures laws { (c : Context) → GrammarLaws c.room (λ n. clause (levels n) c) }
{}
