//! The laws of the grammar: each is the contract of a function that does nothing.

ghost use Rattle.std.specs.Prelude.{◌≡◌, ℕ, Bool};
ghost use Rattle.cx_grammar.specs.Names.{Context};
ghost use Rattle.cx_grammar.specs.Types.{type_id};
ghost use Rattle.cx_grammar.specs.Expressions.{expr, clause, levels};
ghost use Rattle.cx_grammar.specs.Statements.{stmt};
ghost use Rattle.cx_grammar.specs.Declarations.{decl, unit, unit_levels};
ghost use Rattle.cx_grammar.specs.Laws.{GrammarLaws, WholeTokens, NumberLaws};
ghost use Rattle.cx_tree.specs.Nodes.{expr_nodes, type_nodes};

/// Expressions ([expr]).
pub fn laws_of_expressions()
    ensures laws { (requires : Bool) (c : Context) (n : ℕ) → GrammarLaws requires c.load (λ level. expr (levels requires level) c n) }
    ensures tokens { (requires : Bool) (c : Context) (n : ℕ) → c.angle ≡ 0 → WholeTokens (λ level. expr (levels requires level) c n) }
{}

/// Types ([dcl.type]).
pub fn laws_of_types()
    ensures laws { (requires : Bool) (c : Context) (n : ℕ) → GrammarLaws requires c.load (λ level. type_id (levels requires level) c n) }
    ensures tokens { (requires : Bool) (c : Context) (n : ℕ) → c.angle ≡ 0 → WholeTokens (λ level. type_id (levels requires level) c n) }
{}

/// The clause of a requires ([temp.pre]).
pub fn laws_of_clauses()
    ensures laws { (requires : Bool) (c : Context) (n : ℕ) → GrammarLaws requires c.load (λ level. clause (levels requires level) c n) }
    ensures tokens { (requires : Bool) (c : Context) (n : ℕ) → c.angle ≡ 0 → WholeTokens (λ level. clause (levels requires level) c n) }
{}

/// Statements ([stmt.stmt]).
pub fn laws_of_statements()
    ensures laws { (requires : Bool) (c : Context) (n : ℕ) → GrammarLaws requires c.load (λ level. stmt (unit_levels requires level) c n) }
    ensures tokens { (requires : Bool) (c : Context) (n : ℕ) → c.angle ≡ 0 → WholeTokens (λ level. stmt (unit_levels requires level) c n) }
{}

/// Declarations ([dcl.dcl]).
pub fn laws_of_declarations()
    ensures laws { (requires : Bool) (c : Context) (n : ℕ) → GrammarLaws requires c.load (λ level. decl (unit_levels requires level) c n) }
    ensures tokens { (requires : Bool) (c : Context) (n : ℕ) → c.angle ≡ 0 → WholeTokens (λ level. decl (unit_levels requires level) c n) }
{}

/// Units ([basic.link]).
pub fn laws_of_units()
    ensures laws { (requires : Bool) → GrammarLaws requires 0 (λ level. unit (unit_levels requires level)) }
    ensures tokens { (requires : Bool) → WholeTokens (λ level. unit (unit_levels requires level)) }
{}

/// The nodes of expressions.
pub fn numbers_of_expressions()
    ensures numbers { (requires : Bool) (c : Context) (n : ℕ) → NumberLaws expr_nodes n (λ level. expr (levels requires level) c n) }
{}

/// The nodes of types.
pub fn numbers_of_types()
    ensures numbers { (requires : Bool) (c : Context) (n : ℕ) → NumberLaws type_nodes n (λ level. type_id (levels requires level) c n) }
{}

/// The nodes of the clause of a requires.
pub fn numbers_of_clauses()
    ensures numbers { (requires : Bool) (c : Context) (n : ℕ) → NumberLaws expr_nodes n (λ level. clause (levels requires level) c n) }
{}
