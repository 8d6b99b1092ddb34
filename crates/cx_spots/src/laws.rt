ghost use Rattle.std.specs.Prelude.{◌≡◌, true, List};
ghost use Rattle.std.specs.List.{list_all};
ghost use Rattle.cx_lexer.specs.Division.{AreSpelled};
ghost use Rattle.cx_lexer.specs.Tokens.{TokenTree};
ghost use Rattle.cx_grammar.specs.Laws.{is_sound};

/// A token that is spelled `>>` is a punctuator. It does nothing.
#[tactic(auto, using(crate::proofs::Sound::all_sound))]
pub fn spelled_tokens()
    ensures { (ts : List TokenTree) → AreSpelled ts → list_all is_sound ts ≡ true }
{}
