ghost use Rattle.std.specs.Prelude.{◌≡◌, Ok, false, map};
ghost use Rattle.cx_tokens.specs.Pieces.{pieces};
ghost use Rattle.cx_tokens.specs.Tokens.{token_tree};
ghost use Rattle.cx_syntax.specs.States.{cut};
ghost use Rattle.cx_syntax.specs.Productions.{token, counted, begins};
ghost use Rattle.cx_syntax.specs.Classes.{any_but};
ghost use Rattle.cx_syntax.specs.Combinators.{node, note, note_around, enter, leave};
ghost use Rattle.cx_cursor.specs.Reads.{Reads};
ghost use Rattle.cx_cursor.specs.Classes.{meaning};
ghost use Rattle.cx_cursor.specs.Pieces.{piece_tree, pieces_left, head_piece, tail_pieces};
ghost use Rattle.std.specs.Option.{option_map};

use crate::class::Class;
use crate::kinds::misfit;
use crate::left::{first_piece, is_first_half};
use crate::piece::Piece;
use cx_base::NodeId;
use cx_names::NameKind;
use cx_scopes::Scope;
use cx_syntax::{Context, Stopped};
use cx_tokens::Token;
use std::alloc::Global;
use std::marker::Model;

/// Where a unit is read: what is left of its tokens, the number of the next node, and the names that are known. It is
/// the state of a reader that nests constructs to the limit.
#[derive(Drop)]
pub struct Cursor<'t, 's> {
    alloc: Global,
    tokens: &'t [Token<'s>],
    /// Whether the first half of the first token is read.
    half: bool,
    next: u32,
    scope: Scope<'s>,
}

impl<'t, 's> Model for Cursor<'t, 's> {
    ghost use Rattle.cx_syntax.specs.States.{State};

    ghost Value = { State };

    ghost use Rattle.cx_cursor.specs.States.{state_of};

    ghost view = { state_of };
}

impl<'t, 's> Cursor<'t, 's> {
    /// The cursor before tokens, with the number of the next node and the names that are known.
    #[tactic(auto, unfolding(crate::specs::Pieces::pieces_left))]
    pub fn new(
        alloc: Global,
        tokens: &'t [Token<'s>],
        next: u32,
        scope: Scope<'s>,
    ) -> Cursor<'t, 's>
        ensures { result ≡ record { left = pieces (map token_tree tokens.now); next = next; names = scope.entry; free = false } }
    {
        Cursor {
            alloc,
            tokens,
            half: false,
            next,
            scope,
        }
    }

    /// Where memory is taken from.
    pub fn alloc(&self) -> Global {
        self.alloc
    }

    /// The next piece.
    fn peek(&self) -> Option<Piece<'s>>
        ensures { option_map piece_tree result ≡ head_piece self.now.left }
    {
        first_piece(self.half, self.tokens)
    }

    /// Whether the next piece is of a class.
    #[tactic(auto, using(crate::proofs::Heads::begins_some, crate::proofs::Heads::begins_none))]
    pub fn begins(&self, class: Class) -> bool
        ensures { result ≡ begins (meaning class) self.now }
    {
        match self.peek() {
            Some(piece) => piece.is(class, &self.scope),
            None => false,
        }
    }

    /// Whether there is a next piece that is not of a class.
    #[tactic(auto, using(crate::proofs::Heads::begins_some, crate::proofs::Heads::begins_none))]
    pub fn begins_another(&self, class: Class) -> bool
        ensures { result ≡ begins (any_but (meaning class)) self.now }
    {
        match self.peek() {
            Some(piece) => !piece.is(class, &self.scope),
            None => false,
        }
    }

    /// Goes past the next piece.
    fn advance(&mut self)
        ensures { self.new ≡ cut self.old (tail_pieces self.old.left) }
    {
        if is_first_half(self.half, self.tokens) {
            self.half = true;
        } else {
            self.half = false;
            if !self.tokens.is_empty() {
                self.tokens = &self.tokens[1..];
            }
        }
    }

    /// The next piece, which is to be of a class and to fit in a context. The cursor is then after it.
    #[tactic(auto, using(crate::proofs::Heads::token_misfit, crate::proofs::Heads::token_none))]
    pub fn take(&mut self, context: Context, class: Class) -> Result<Piece<'s>, Stopped>
        ensures { Reads piece_tree (token context (meaning class)) self.old result self.new }
    {
        let Some(piece) = self.peek() else {
            return Err(Stopped::Ended);
        };
        if !piece.is(class, &self.scope) {
            return Err(misfit(piece.token));
        }
        if context.room == 0 {
            return Err(Stopped::Deep(piece.token.at));
        }
        self.advance();
        Ok(piece)
    }

    /// The number of the next node. Numbers that run out are want of memory.
    pub fn number(&mut self) -> Result<NodeId, Stopped>
        ensures { Reads (λ n. n.0) node self.old result self.new }
    {
        if self.next == u32::MAX {
            return Err(Stopped::NoMemory);
        }
        let number = NodeId(self.next);
        self.next += 1;
        Ok(number)
    }

    /// Declares a name in the innermost scope.
    pub fn note(&mut self, name: &'s str, kind: NameKind) -> Result<(), Stopped>
        ensures { Reads (λ u. u) (note name.now kind) self.old result self.new }
    {
        match self.scope.note(name, kind) {
            Ok(()) => Ok(()),
            Err(_) => Err(Stopped::NoMemory),
        }
    }

    /// Declares a name in the scope that stands so many scopes around the innermost one.
    pub fn note_around(
        &mut self,
        depth: usize,
        name: &'s str,
        kind: NameKind,
    ) -> Result<(), Stopped>
        ensures { Reads (λ u. u) (note_around depth name.now kind) self.old result self.new }
    {
        match self.scope.note_around(depth, name, kind) {
            Ok(()) => Ok(()),
            Err(_) => Err(Stopped::NoMemory),
        }
    }

    /// Opens a scope.
    pub fn enter(&mut self) -> Result<(), Stopped>
        ensures { Reads (λ u. u) enter self.old result self.new }
    {
        match self.scope.enter() {
            Ok(()) => Ok(()),
            Err(_) => Err(Stopped::NoMemory),
        }
    }

    /// Counts a token that was read before: it is to fit in a context, and something is to come after it.
    #[tactic(auto, using(crate::proofs::Heads::counted_none))]
    pub fn count(&self, context: Context, piece: Piece<'s>) -> Result<(), Stopped>
        ensures { Reads (λ u. u) (counted context (piece_tree piece.entry)) self.now result self.now }
    {
        let _ = &self.tokens;
        let Some(_next) = self.peek() else {
            return Err(Stopped::Ended);
        };
        if context.room == 0 {
            return Err(Stopped::Deep(piece.token.at));
        }
        Ok(())
    }

    /// The number of the next node.
    pub fn next(&self) -> u32
        ensures { result ≡ self.now.next }
    {
        self.next
    }

    /// The tokens that are left, and whether the first half of the first one is read.
    pub fn rest(&self) -> (bool, &[Token<'s>])
        ensures { pieces_left result.0 (map token_tree result.1.now) ≡ self.now.left }
    {
        (self.half, self.tokens)
    }

    /// The names that are known.
    pub fn into_names(self) -> Scope<'s>
        ensures { result ≡ self.entry.names }
    {
        self.scope
    }

    /// Closes the innermost scope.
    pub fn leave(&mut self)
        ensures { Reads (λ u. u) leave self.old (Ok tt) self.new }
    {
        self.scope.leave();
    }
}
