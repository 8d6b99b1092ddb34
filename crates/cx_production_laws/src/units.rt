//! Statements, declarations and units: so many levels are enough as there is room for constructs.

ghost use Rattle.std.specs.Prelude.{ℕ};
ghost use Rattle.cx_syntax.specs.declared.context.Context.{Context};
ghost use Rattle.cx_syntax_laws.specs.GrammarLaws.{GrammarLaws};
ghost use Rattle.cx_productions.specs.Statements.{stmt};
ghost use Rattle.cx_productions.specs.Declarations.{decl};
ghost use Rattle.cx_productions.specs.Units.{unit_levels, unit};

/// Statements ([stmt.stmt]).
#[tactic(auto, using(crate::proofs::Lasting::laws_of_stmt))]
pub fn laws_of_statements()
    ensures laws { (c : Context) → GrammarLaws c.room (λ n. stmt (unit_levels n) c) }
{}

/// Declarations ([dcl.dcl]).
#[tactic(auto, using(crate::proofs::Lasting::laws_of_decl))]
pub fn laws_of_declarations()
    ensures laws { (c : Context) → GrammarLaws c.room (λ n. decl (unit_levels n) c) }
{}

/// Units ([basic.link]).
#[tactic(auto, using(crate::proofs::Lasting::laws_of_unit))]
pub fn laws_of_units()
    ensures laws { (c : Context) → GrammarLaws c.room (λ n. unit (unit_levels n) c) }
{}
