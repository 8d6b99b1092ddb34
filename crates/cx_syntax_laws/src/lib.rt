//! The laws of productions, whatever they are made of. Each is the contract of a function that does nothing; the laws of
//! a grammar cite the lemmas on its combinators.
#![tactic(auto)]

ghost use Rattle.std.specs.Prelude.{◌≡◌, ℕ, true, false};
ghost use Rattle.cx_base.specs.declared.kind.Kind.TheVariants as fault;
ghost use Rattle.cx_tokens.specs.Tokens.{TokenTree};
ghost use Rattle.cx_tokens.specs.Pieces.{is_unsupported};
ghost use Rattle.cx_syntax.specs.declared.context.Context.{Context};
ghost use Rattle.cx_syntax.specs.declared.stopped.Stopped.TheVariants as stopped;
ghost use Rattle.cx_syntax.specs.States.{misfit};
ghost use Rattle.cx_syntax.specs.Productions.{Class, token};
ghost use Rattle.cx_syntax_laws.specs.GrammarLaws.{GrammarLaws};

/// One piece of a class: it is read, or it is the fault, or it is nested too deep.
#[tactic(auto, using(crate::proofs::Answers::token_laws))]
pub fn laws_of_tokens()
    ensures laws { (c : Context) (q : Class) → GrammarLaws 0 (λ level. token c q) }
{}

/// The fault of a piece that does not fit is Unsupported where the language has no use for its token, and only there.
#[tactic(auto, using(crate::proofs::Faults::unsupported_fault, crate::proofs::Faults::syntax_fault))]
pub fn faults_of_tokens()
    ensures unsupported { (t : TokenTree) → is_unsupported t.kind ≡ true → misfit t ≡ stopped.Fault fault.Unsupported t.at }
    ensures syntax { (t : TokenTree) → is_unsupported t.kind ≡ false → misfit t ≡ stopped.Fault fault.Syntax t.at }
{}
