//! What the stages of the verdict refuse, over the definitions alone.

ghost use Rattle.std.specs.Prelude.{◌≡◌, ◌⊎◌, ◌≤◌, ℕ, List, length, Ok, Err};
ghost use Rattle.cx_base.specs.Refusal.{Refusal, Refused, Passed};
ghost use Rattle.cx_base.specs.declared.fault.Fault.{Fault};
ghost use Rattle.cx_base.specs.declared.kind.Kind.TheVariants as fault;
ghost use Rattle.cx_base.specs.declared.limit.Limit.{Limit};
ghost use Rattle.cx_base.specs.declared.limit.Limit.TheVariants as limit;
ghost use Rattle.cx_base.specs.declared.place.Place.{Place};
ghost use Rattle.cx_tree.specs.Declarations.{UnitTree};
ghost use Rattle.cx_lexer.specs.Division.{AreTokens, IsLexical};
ghost use Rattle.cx_lexer.specs.Tokens.{TokenTree};
ghost use Rattle.cx_parse_decl.specs.Units.{IsMisfit, IsTooDeep};
ghost use Rattle.cx_engine.specs.Definitions.{Definition};
ghost use Rattle.cx_engine.specs.Forms.{IsFirstUnbuilt, unsupported, forms_unit};
ghost use Rattle.cx_engine.specs.Names.{names_unit};
ghost use Rattle.conceptc.specs.Decision.{IsTextOf, IsTooDeepText};
ghost use Rattle.conceptc.specs.Verdict.{IsNaming, tree_of, judged};

use cx_engine::{forms_of_a_unit, names_of_a_unit};
use cx_lexer::one_division;
use cx_parse_decl::one_unit;

/// The laws of the verdict. It does nothing.
pub fn stages()
    // The bytes are read as the unit that they are, and as no other.
    ensures spelled { (bytes : List ℕ) (unit : UnitTree) → tree_of bytes ≡ Ok unit → IsTextOf bytes unit }
    ensures only { (bytes : List ℕ) (unit : UnitTree) → IsTextOf bytes unit → tree_of bytes ≡ Ok unit }

    // A fault of the tokens, wherever it stands, comes before every fault of the stages behind, and is one of theirs alone.
    ensures lexical { (bytes : List ℕ) (r : Refusal) → AreTokens bytes (Err r) → (judged bytes ≡ Err r) × (f : Fault) × (r ≡ Refused f) × IsLexical f.kind }
    ensures lexical_only { (bytes : List ℕ) (f : Fault) → judged bytes ≡ Err (Refused f) → IsLexical f.kind → AreTokens bytes (Err (Refused f)) }

    // Bytes that are tokens throughout and no unit have a fault of the grammar, or pass the limit on the depth. The fault
    // is that of the first token that does not fit: the tokens before it begin a unit, and with it they begin none. The
    // limit is passed at the first token whose load is above it, where that one stands before.
    ensures syntax { (bytes : List ℕ) (ts : List TokenTree) (r : Refusal) → AreTokens bytes (Ok ts) → tree_of bytes ≡ Err r → (judged bytes ≡ Err r) × (IsMisfit ts r ⊎ IsTooDeep ts r) }
    ensures misfit { (bytes : List ℕ) (f : Fault) → judged bytes ≡ Err (Refused f) → f.kind ≡ fault.Syntax → (ts : List TokenTree) × AreTokens bytes (Ok ts) × IsMisfit ts (Refused f) }
    ensures limits { (bytes : List ℕ) (l : Limit) (at : Place) → judged bytes ≡ Err (Passed l at) → (l ≡ limit.Depth) × IsTooDeepText bytes at }

    // A unit with a form that is not built is refused at its first one, whatever its names are. What is unsupported is such
    // a form, or a token that does not fit.
    ensures forms { (bytes : List ℕ) (unit : UnitTree) (r : Refusal) → tree_of bytes ≡ Ok unit → forms_unit unit ≡ Err r
        → (judged bytes ≡ Err r) × (at : Place) × (r ≡ Refused (unsupported at)) × IsFirstUnbuilt unit at }
    ensures unsupported { (bytes : List ℕ) (f : Fault) → judged bytes ≡ Err (Refused f) → f.kind ≡ fault.Unsupported
        → ((ts : List TokenTree) × AreTokens bytes (Ok ts) × IsMisfit ts (Refused f))
        ⊎ ((unit : UnitTree) × (at : Place) × IsTextOf bytes unit × (f ≡ unsupported at) × IsFirstUnbuilt unit at) }

    // A fault of the names is that of a unit whose forms are built, by what is built of its functions.
    ensures names { (bytes : List ℕ) (f : Fault) → judged bytes ≡ Err (Refused f) → IsNaming f.kind
        → (unit : UnitTree) × (ds : List Definition) × IsTextOf bytes unit × (forms_unit unit ≡ Ok ds) × (names_unit ds ≡ Err (Refused f)) }

    // A fault of the tokens or of the syntax stands only where the bytes are no unit.
    ensures no_unit { (bytes : List ℕ) (f : Fault) → judged bytes ≡ Err (Refused f) → IsLexical f.kind ⊎ (f.kind ≡ fault.Syntax) → (unit : UnitTree) → IsTextOf bytes unit → ⊥ }
{
    one_division();
    one_unit();
    forms_of_a_unit();
    names_of_a_unit();
}
