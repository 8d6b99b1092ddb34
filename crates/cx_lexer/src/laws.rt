//! The laws of the lexical grammar: each is a clause of a function that does nothing.

ghost use Rattle.std.specs.Prelude.{◌≡◌, ◌≤◌, ◌+◌, ℕ, List, length, Result, Ok, Err};
ghost use Rattle.std.specs.List.{AllByRecursion};
ghost use Rattle.cx_base.specs.Refusal.{Refusal};
ghost use Rattle.cx_base.specs.declared.kind.Kind.{Kind};
ghost use Rattle.cx_base.specs.declared.place.Place.{Place};
ghost use Rattle.cx_lexer.specs.Division.{Piece, IsDivided, AreTokens, EndsOnce, AreSpelled, StandsIn, IsLexical};
ghost use Rattle.cx_lexer.specs.Reading.{lexed};
ghost use Rattle.cx_lexer.specs.Tokens.{TokenTree, fault_at};

/// A unit's bytes are read in one way: [lex.phases], [lex.pptoken].
pub fn one_division()
    // What a reader finds is what the bytes are read as.
    ensures found { (bytes : List ℕ) → AreTokens bytes (lexed bytes) }

    // The bytes are read as nothing else.
    ensures only { (bytes : List ℕ) (r : Result (List TokenTree) Refusal) → AreTokens bytes r → r ≡ lexed bytes }

    // A text has no two divisions.
    ensures one { (before text : List ℕ) (ps qs : List Piece) (r q : Result (List TokenTree) Refusal) → IsDivided before text ps r → IsDivided before text qs q → (ps ≡ qs) × (r ≡ q) }

    // Of tokens the end stands last and nowhere else.
    ensures ended { (bytes : List ℕ) (ts : List TokenTree) → AreTokens bytes (Ok ts) → EndsOnce ts }

    // The end has no text; another token's text is a spelling of its kind, and an Int's a literal with a type.
    ensures spelled { (bytes : List ℕ) (ts : List TokenTree) → AreTokens bytes (Ok ts) → AreSpelled ts }

    // Each token stands in the bytes at its place.
    ensures stand { (bytes : List ℕ) (ts : List TokenTree) → AreTokens bytes (Ok ts) → AllByRecursion (StandsIn bytes) ts }

    // There are no more tokens than bytes, and the end.
    ensures few { (bytes : List ℕ) (ts : List TokenTree) → AreTokens bytes (Ok ts) → length ts ≤ length bytes + 1 }

    // A refusal is a fault of tokens at a place.
    ensures faults { (bytes : List ℕ) (f : Refusal) → AreTokens bytes (Err f) → (k : Kind) × (at : Place) × IsLexical k × (f ≡ fault_at k at) }
{}
