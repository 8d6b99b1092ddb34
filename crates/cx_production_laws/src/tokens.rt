//! The tokens and the nodes of a tree.

ghost use Rattle.std.specs.Prelude.{◌≡◌, ℕ};
ghost use Rattle.cx_syntax.specs.declared.context.Context.{Context};
ghost use Rattle.cx_syntax.specs.declared.context.OpenLists.TheVariants as lists;
ghost use Rattle.cx_syntax_laws.specs.NumberLaws.{NumberBounds};
ghost use Rattle.cx_syntax_laws.specs.WholeTokens.{WholeTokens};
ghost use Rattle.cx_productions.specs.Levels.{levels};
ghost use Rattle.cx_productions.specs.Types.{type_id};
ghost use Rattle.cx_productions.specs.Expressions.{expr};
ghost use Rattle.cx_productions.specs.Arguments.{argument};
ghost use Rattle.cx_productions.specs.Clauses.{clause};
ghost use Rattle.cx_productions.specs.Statements.{stmt};
ghost use Rattle.cx_productions.specs.Declarations.{decl};
ghost use Rattle.cx_productions.specs.Units.{unit_levels, unit};

/// A tree takes whole tokens where no list of template arguments is open ([temp.names]).
pub fn whole_tokens()
    ensures expressions { (level : ℕ) (c : Context) → c.lists ≡ lists.None → WholeTokens (λ n. expr (levels n) level c) }
    ensures types { (c : Context) → c.lists ≡ lists.None → WholeTokens (λ n. type_id (levels n) c) }
    ensures arguments { (c : Context) → c.lists ≡ lists.None → WholeTokens (λ n. argument (levels n) c) }
    ensures clauses { (c : Context) → c.lists ≡ lists.None → WholeTokens (λ n. clause (levels n) c) }
    ensures statements { (c : Context) → c.lists ≡ lists.None → WholeTokens (λ n. stmt (unit_levels n) c) }
    ensures declarations { (c : Context) → c.lists ≡ lists.None → WholeTokens (λ n. decl (unit_levels n) c) }
    ensures units { (c : Context) → c.lists ≡ lists.None → WholeTokens (λ n. unit (unit_levels n) c) }
{}

/// A tree has no more nodes than eight for each piece, and sixteen for each token.
pub fn bounds_of_numbers()
    ensures expressions { (level : ℕ) (c : Context) → NumberBounds (λ n. expr (levels n) level c) }
    ensures types { (c : Context) → NumberBounds (λ n. type_id (levels n) c) }
    ensures arguments { (c : Context) → NumberBounds (λ n. argument (levels n) c) }
    ensures clauses { (c : Context) → NumberBounds (λ n. clause (levels n) c) }
    ensures statements { (c : Context) → NumberBounds (λ n. stmt (unit_levels n) c) }
    ensures declarations { (c : Context) → NumberBounds (λ n. decl (unit_levels n) c) }
    ensures units { (c : Context) → NumberBounds (λ n. unit (unit_levels n) c) }
{}
