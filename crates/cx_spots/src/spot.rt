ghost use Rattle.std.specs.Prelude.{◌≡◌, ◌+◌, ◌*◌, ◌^◌, ◌<◌, ◌≤◌, Bool, true, false, IsTrue, length, IfOk, map, not, ◌&&◌, [], ◌∷◌};
ghost use Rattle.cx_lexer.specs.Tokens.{token_tree};
ghost use Rattle.cx_grammar.specs.Pieces.{is_double};
ghost use Rattle.cx_spots.specs.Ends.{ends, fits_half};

use crate::class::Class;
use crate::context::Context;
use crate::misfits::misfit;
use crate::piece::{Half, Piece};
use cx_base::{Limit, NodeId, Place, Stop};
use cx_lexer::Token;
use cx_tree::Core;
use std::alloc::Global;

/// Where a unit is read: the tokens that are left, whether the first half of the first one is read, and the number of
/// the next node.
#[derive(Clone, Copy)]
pub struct Spot<'t, 's> {
    pub tokens: &'t [Token<'s>],
    pub half: bool,
    pub next: u32,
    ghost ends: { IsTrue (ends (map token_tree tokens.now)) },
    ghost fits: { IsTrue (fits_half half (map token_tree tokens.now)) },
}

/// What was read, and the spot behind it.
pub type Read<'t, 's, T> = Result<(T, Spot<'t, 's>), Stop>;

/// A core, and its place.
#[derive(Debug, Drop)]
pub struct Cored<'s> {
    pub at: Place,
    pub core: Core<'s>,
}

/// Whether a token is `>>`.
#[tactic(auto, unfolding(cx_grammar::specs::Pieces::is_double))]
fn is_double(token: &Token<'_>) -> bool
    ensures { result ≡ is_double (token_tree token.now) }
{
    token.text == ">>"
}

/// Whether only the first half of a token is read next, of which the first half is read or not.
fn is_first_half(half: bool, token: &Token<'_>) -> bool
    ensures { result ≡ (not half && is_double (token_tree token.now)) }
{
    !half && is_double(token)
}

impl<'t, 's> Spot<'t, 's> {
    ghost use Rattle.cx_lexer.specs.Tokens.{token_tree};
    ghost use Rattle.cx_grammar.specs.Pieces as pieces;
    ghost use Rattle.cx_grammar.specs.Production.{Gives, read_token, begins};
    ghost use Rattle.cx_spots.specs.Classes.{meaning};
    ghost use Rattle.cx_spots.specs.Spots.{context_of, left_at, piece_tree, end_piece, weight, Lightens, IsFirst};

    /// The spot before all of some tokens, the last of which is the end, with the number of the next node.
    #[tactic(auto, unfolding(crate::specs::Spots::left, crate::specs::Ends::fits_half))]
    pub fn before(tokens: &'t [Token<'s>], next: u32) -> Spot<'t, 's>
        requires { IsTrue (ends (map token_tree tokens.now)) }
        ensures left { left_at result ≡ pieces.pieces (map token_tree tokens.now) }
        ensures next { result.next ≡ next }
    {
        Spot {
            tokens,
            half: false,
            next,
        }
    }

    /// The next piece.
    #[tactic(auto, unfolding(crate::specs::Spots::left, crate::specs::Ends::ends, cx_grammar::specs::Production::begins))]
    pub fn piece(self) -> Piece<'s>
        ensures first { IsFirst (piece_tree result) (left_at self.entry) }
        ensures begins { (p : pieces.Piece → Bool) → begins p (left_at self.entry) ≡ p (piece_tree result) }
    {
        match self.tokens {
            [] => unreachable!(),
            [token, ..] => {
                let half = if self.half {
                    Half::Second
                } else if is_double(token) {
                    Half::First
                } else {
                    Half::All
                };
                Piece {
                    token: *token,
                    half,
                }
            }
        }
    }

    /// The spot behind the next piece, which is not the end.
    #[tactic(auto, using(crate::proofs::Takes::behind_lemmas), unfolding(crate::specs::Ends::ends, crate::specs::Ends::fits_half))]
    pub fn behind(self) -> Spot<'t, 's>
        requires { begins end_piece (left_at self) ≡ false }
        ensures parts { (p : pieces.Piece) × (left_at self.entry ≡ p ∷ left_at result) }
        ensures next { result.next ≡ self.entry.next }
    {
        match self.tokens {
            [] => unreachable!(),
            [token, rest @ ..] => {
                if is_first_half(self.half, token) {
                    return Spot {
                        tokens: self.tokens,
                        half: true,
                        next: self.next,
                    };
                }
                Spot {
                    tokens: rest,
                    half: false,
                    next: self.next,
                }
            }
        }
    }

    /// The next piece, where it fits, and the spot behind it. It has a load.
    #[tactic(auto, using(crate::proofs::Takes::take_lemmas))]
    fn take_if(
        self,
        alloc: Global,
        load: u32,
        fits: bool,
    ) -> Result<(Piece<'s>, Spot<'t, 's>), Stop>
        requires { fits ≡ true → begins end_piece (left_at self) ≡ false }
        ensures exact { Gives (λ x. (piece_tree x.0, left_at x.1)) result (read_token load (λ p. fits) 256 (left_at self.entry)) }
        ensures load { IfOk result (λ x. load ≤ 256) }
        ensures next { IfOk result (λ x. x.1.next ≡ self.entry.next) }
        ensures lightens { Lightens 8 self.entry result }
    {
        let piece = self.piece();
        if !fits {
            return Err(misfit(alloc, &piece.token));
        }
        if load > 256 {
            return Err(Stop::Limit(Limit::Depth, piece.token.at));
        }
        Ok((piece, self.behind()))
    }

    /// Whether the next piece is of a class.
    pub fn begins(self, context: Context<'_, 's>, class: Class<'_>) -> bool
        ensures { result ≡ begins (meaning class.entry (context_of context.entry)) (left_at self.entry) }
    {
        self.piece().is(class, context)
    }

    /// The next piece, which is of a class, and the spot behind it.
    #[tactic(auto, using(crate::proofs::Takes::class_lemmas))]
    pub fn take(
        self,
        context: Context<'_, 's>,
        load: u32,
        class: Class<'_>,
    ) -> Result<(Piece<'s>, Spot<'t, 's>), Stop>
        ensures exact { Gives (λ x. (piece_tree x.0, left_at x.1)) result (read_token load (meaning class.entry (context_of context.entry)) 256 (left_at self.entry)) }
        ensures fits { IfOk result (λ x. meaning class.entry (context_of context.entry) (piece_tree x.0) ≡ true) }
        ensures load { IfOk result (λ x. load ≤ 256) }
        ensures next { IfOk result (λ x. x.1.next ≡ self.entry.next) }
        ensures lightens { Lightens 8 self.entry result }
    {
        let fits = self.begins(context, class);
        self.take_if(context.alloc, load, fits)
    }

    /// The number of a node, and the spot with that of the next one.
    pub fn number(self) -> (NodeId, Spot<'t, 's>)
        requires { weight self + 1 < 2 ^ 32 }
        ensures number { result.0.0 ≡ self.entry.next }
        ensures next { result.1.next ≡ self.entry.next + 1 }
        ensures left { left_at result.1 ≡ left_at self.entry }
    {
        let spot = Spot {
            tokens: self.tokens,
            half: self.half,
            next: self.next + 1,
        };
        (NodeId(self.next), spot)
    }
}
