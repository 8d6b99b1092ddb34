//! The laws of units of functions: each is the contract of a function that has no effect.

ghost use Rattle.std.specs.Prelude.{◌≡◌, ◌≤◌, ◌*◌, ◌⊎◌, ℕ, List, length, Ok, Err};
ghost use Rattle.cx_base.specs.Refusal.{Refusal};
ghost use Rattle.cx_lexer.specs.Division.{EndsOnce, AreSpelled};
ghost use Rattle.cx_lexer.specs.Tokens.{TokenTree};
ghost use Rattle.cx_tree.specs.Declarations.{UnitTree};
ghost use Rattle.cx_tree.specs.Nodes.{IsNumberedFrom};
ghost use Rattle.cx_tree.specs.UnitNodes.{unit_nodes};
ghost use Rattle.cx_grammar.specs.Expressions.{no_requires};
ghost use Rattle.cx_grammar.specs.Laws.{GrammarLaws, WholeTokens, IsTree, IsTreeWithin};
ghost use Rattle.cx_grammar.specs.Pieces.{Piece, pieces};
ghost use Rattle.cx_parse_decl.specs.Units.{units, IsUnit, IsMisfit, IsTooDeep, unit_at};
ghost use Rattle.cx_parse_decl.specs.Whole.{whole_units};

use cx_grammar_laws::units_of_the_language;

/// Units of functions ([basic.link], [dcl.fct.def]).
pub fn laws_of_functions()
    ensures laws { GrammarLaws no_requires 0 units }
    ensures tokens { WholeTokens units }

    // Each is a unit of the language, with no load above the same limit.
    ensures whole { (limit : ℕ) (ts : List Piece) (u : UnitTree) → IsTreeWithin limit units ts u → IsTreeWithin limit whole_units ts u }
{
    units_of_the_language();
}

/// What the tokens of a unit are.
pub fn one_unit()
    // Tokens are one unit at most, whatever their loads.
    ensures one { (ts : List TokenTree) (u v : UnitTree) → IsTree units (pieces ts) u → IsTree units (pieces ts) v → u ≡ v }

    // What is read is what the tokens are, and what they are with no load above the limit is read.
    ensures found { (ts : List TokenTree) (u : UnitTree) → EndsOnce ts → AreSpelled ts → unit_at ts ≡ Ok u → IsUnit ts u }
    ensures only { (ts : List TokenTree) (u : UnitTree) → IsUnit ts u → unit_at ts ≡ Ok u }

    // A refusal is that of the first token that does not fit, or before it of the first one whose load passes the limit.
    ensures stops { (ts : List TokenTree) (r : Refusal) → EndsOnce ts → AreSpelled ts → unit_at ts ≡ Err r → IsMisfit ts r ⊎ IsTooDeep ts r }

    // Where a token does not fit the tokens are no unit, whatever their loads.
    ensures none { (ts : List TokenTree) (r : Refusal) (u : UnitTree) → IsMisfit ts r → IsTree units (pieces ts) u → ⊥ }

    // The nodes of a unit are numbered from 0 on, and are at most 16 for each token.
    ensures numbered { (ts : List TokenTree) (u : UnitTree) → IsTree units (pieces ts) u → IsNumberedFrom 0 (unit_nodes u) }
    ensures few { (ts : List TokenTree) (u : UnitTree) → IsTree units (pieces ts) u → length (unit_nodes u) ≤ 16 * length ts }
{}
