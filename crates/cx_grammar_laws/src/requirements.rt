//! Requires-expressions ([expr.prim.req]) and their requirements: each law is the contract of a function that does
//! nothing.

ghost use Rattle.std.specs.Prelude.{ℕ, Bool};
ghost use Rattle.cx_grammar.specs.Names.{Context};
ghost use Rattle.cx_grammar.specs.Expressions.{levels};
ghost use Rattle.cx_grammar.specs.Laws.{GrammarLaws, WholeTokens, NumberLaws};
ghost use Rattle.cx_grammar.specs.Requires.{requirement, requires_expr};
ghost use Rattle.cx_tree.specs.Nodes.{expr_nodes};
ghost use Rattle.cx_grammar_laws.specs.RequirementNodes.{requirement_nodes};

/// Requirements ([expr.prim.req.simple] to [expr.prim.req.nested]).
pub fn laws_of_requirements()
    ensures laws { (requires : Bool) (c : Context) (n : ℕ) → GrammarLaws requires c.load (λ level. requirement (levels requires level) c n) }
    ensures tokens { (requires : Bool) (c : Context) (n : ℕ) → WholeTokens (λ level. requirement (levels requires level) c n) }
{}

/// Requires-expressions ([expr.prim.req]).
pub fn laws_of_requires_expressions()
    ensures laws { (requires : Bool) (c : Context) (n : ℕ) → GrammarLaws requires c.load (λ level. requires_expr (levels requires level) c n) }
    ensures tokens { (requires : Bool) (c : Context) (n : ℕ) → WholeTokens (λ level. requires_expr (levels requires level) c n) }
{}

/// The nodes of requirements.
pub fn numbers_of_requirements()
    ensures numbers { (requires : Bool) (c : Context) (n : ℕ) → NumberLaws requirement_nodes n (λ level. requirement (levels requires level) c n) }
{}

/// The nodes of requires-expressions.
pub fn numbers_of_requires_expressions()
    ensures numbers { (requires : Bool) (c : Context) (n : ℕ) → NumberLaws expr_nodes n (λ level. requires_expr (levels requires level) c n) }
{}
