//! What is read where requires-expressions are not ([expr.prim.req]) is of the language: each law is the contract of a
//! function that does nothing.

ghost use Rattle.std.specs.Prelude.{ℕ, true};
ghost use Rattle.cx_grammar.specs.Names.{Context};
ghost use Rattle.cx_grammar.specs.Types.{type_id};
ghost use Rattle.cx_grammar.specs.Expressions.{expr, clause, levels, no_requires};
ghost use Rattle.cx_grammar.specs.Statements.{stmt};
ghost use Rattle.cx_grammar.specs.Declarations.{decl, unit, unit_levels};
ghost use Rattle.cx_grammar_laws.specs.Language.{IsPartOf};

/// Expressions ([expr]), types ([dcl.type]) and the clause of a requires ([temp.pre]).
pub fn expressions_of_the_language()
    ensures expressions { (c : Context) (n : ℕ) → IsPartOf (λ level. expr (levels no_requires level) c n) (λ level. expr (levels true level) c n) }
    ensures types { (c : Context) (n : ℕ) → IsPartOf (λ level. type_id (levels no_requires level) c n) (λ level. type_id (levels true level) c n) }
    ensures clauses { (c : Context) (n : ℕ) → IsPartOf (λ level. clause (levels no_requires level) c n) (λ level. clause (levels true level) c n) }
{}

/// Statements ([stmt.stmt]), declarations ([dcl.dcl]) and units ([basic.link]).
pub fn units_of_the_language()
    ensures statements { (c : Context) (n : ℕ) → IsPartOf (λ level. stmt (unit_levels no_requires level) c n) (λ level. stmt (unit_levels true level) c n) }
    ensures declarations { (c : Context) (n : ℕ) → IsPartOf (λ level. decl (unit_levels no_requires level) c n) (λ level. decl (unit_levels true level) c n) }
    ensures units { IsPartOf (λ level. unit (unit_levels no_requires level)) (λ level. unit (unit_levels true level)) }
{}
