//! The numbers of nodes: each law is the contract of a function that does nothing.

ghost use Rattle.std.specs.Prelude.{ℕ, Bool};
ghost use Rattle.cx_grammar.specs.Names.{Context};
ghost use Rattle.cx_grammar.specs.Statements.{stmt};
ghost use Rattle.cx_grammar.specs.Declarations.{decl, unit, unit_levels};
ghost use Rattle.cx_tree.specs.UnitNodes.{stmt_nodes, decl_nodes};
ghost use Rattle.cx_grammar_laws.specs.NodeLaws.{NamedNumberLaws, UnitNumberLaws};

/// The nodes of statements ([stmt.stmt]).
pub fn numbers_of_statements()
    ensures numbers { (requires : Bool) (c : Context) (n : ℕ) → NamedNumberLaws stmt_nodes n (λ level. stmt (unit_levels requires level) c n) }
{}

/// The nodes of declarations ([dcl.dcl]).
pub fn numbers_of_declarations()
    ensures numbers { (requires : Bool) (c : Context) (n : ℕ) → NamedNumberLaws decl_nodes n (λ level. decl (unit_levels requires level) c n) }
{}

/// The nodes of units ([basic.link]).
pub fn numbers_of_units()
    ensures numbers { (requires : Bool) → UnitNumberLaws (λ level. unit (unit_levels requires level)) }
{}
