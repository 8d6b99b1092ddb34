ghost use Rattle.std.specs.Prelude.{◌≡◌, ◌&&◌, true, [], Some, is_some};
ghost use Rattle.cx_tokens.specs.Pieces as pieces;
ghost use Rattle.cx_tokens.specs.Literals.{type_of, value_of};
ghost use Rattle.cx_names.specs.Kinds as kinds;
ghost use Rattle.cx_syntax.specs.Classes as classes;
ghost use Rattle.cx_syntax.specs.Precedence as precedence;
ghost use Rattle.cx_productions.specs.Expressions as expressions;
ghost use Rattle.cx_cursor.specs.Pieces.{piece_tree};
ghost use Rattle.cx_cursor.specs.Classes.{meaning};

use crate::class::Class;
use crate::kinds::{is_punctuator, is_word};
use crate::operators::{
    assignment_of, is_listed, is_twice_listed, level_of, operator_of_kind, postfix_of, unary_of,
};
use cx_base::Scalar;
use cx_literals::literal;
use cx_names::NameKind;
use cx_scopes::Scope;
use cx_syntax::{AssignmentOperator, BinaryOperator, OpenLists, PostfixOperator, UnaryOperator};
use cx_tokens::{Punctuator, Token, TokenKind, Word};

/// A whole token, or a half of `>>`.
#[derive(Clone, Copy, Debug, PartialEq, Eq)]
pub enum Half {
    All,
    First,
    Second,
}

/// What a production reads at once.
#[derive(Clone, Copy, Debug)]
pub struct Piece<'s> {
    pub token: Token<'s>,
    pub half: Half,
}

/// Whether a name is of a kind; one that is not known is a value.
#[tactic(auto, unfolding(cx_names::specs::Kinds::is_kind, cx_names::specs::Kinds::same_kind))]
fn is_kind(kind: NameKind, scope: &Scope<'_>, name: &str) -> bool
    ensures { result ≡ kinds.is_kind kind scope.now name.now }
{
    match scope.kind_of(name) {
        Some(known) => known == kind,
        None => NameKind::Value == kind,
    }
}

impl<'s> Piece<'s> {
    /// Whether this is a whole token.
    fn is_all(self) -> bool
        ensures { result ≡ pieces.is_all (piece_tree self.entry).half }
    {
        matches!(self.half, Half::All)
    }

    /// Whether this is the second half of `>>`.
    fn is_second(self) -> bool
        ensures { result ≡ pieces.is_second (piece_tree self.entry).half }
    {
        matches!(self.half, Half::Second)
    }

    /// Whether this is a name.
    fn is_name(self) -> bool
        ensures { result ≡ pieces.is_name self.entry.token.kind }
    {
        matches!(self.token.kind, TokenKind::Name)
    }

    /// Whether this is a literal.
    fn is_literal(self) -> bool
        ensures { result ≡ pieces.is_literal self.entry.token.kind && is_some (type_of self.entry.token.text.now) }
    {
        match self.token.kind {
            TokenKind::Int => literal(self.token.text).is_some(),
            _ => false,
        }
    }

    /// The type and the value of a literal.
    #[tactic(auto, unfolding(cx_syntax::specs::Classes::literal))]
    pub fn literal(self) -> (Scalar, u64)
        requires { classes.literal [] (piece_tree self) ≡ true }
        ensures scalar { Some result.0 ≡ type_of self.entry.token.text.now }
        ensures value { result.1 ≡ value_of self.entry.token.text.now }
    {
        match literal(self.token.text) {
            Some(typed) => typed,
            None => unreachable!(),
        }
    }

    /// Whether this closes a list of template arguments, of which so many are open.
    #[tactic(auto, unfolding(cx_syntax::specs::Classes::closing))]
    fn closes(self, lists: OpenLists) -> bool
        ensures { result ≡ classes.closing lists [] (piece_tree self.entry) }
    {
        match self.half {
            Half::All => is_punctuator(self.token.kind, Punctuator::Greater),
            Half::First => is_twice_listed(lists),
            Half::Second => is_listed(lists),
        }
    }

    /// The binary operator that this is, or begins, where so many lists are open.
    #[tactic(auto, unfolding(cx_syntax::specs::Precedence::operator_of))]
    pub fn operator(self, lists: OpenLists) -> Option<BinaryOperator>
        ensures { result ≡ precedence.operator_of lists (piece_tree self.entry) }
    {
        match self.half {
            Half::Second => None,
            Half::All | Half::First => operator_of_kind(lists, self.token.kind),
        }
    }

    /// The binary operator that an operator is.
    pub fn operator_or_add(self, lists: OpenLists) -> BinaryOperator
        ensures { result ≡ expressions.operator_or_add (precedence.operator_of lists (piece_tree self.entry)) }
    {
        self.operator(lists).unwrap_or(BinaryOperator::Add)
    }

    /// The prefix operator that an operator is.
    pub fn unary_operator(self) -> UnaryOperator
        ensures { result ≡ expressions.operator_or_plus (precedence.unary_of self.entry.token.kind) }
    {
        unary_of(self.token.kind).unwrap_or(UnaryOperator::Plus)
    }

    /// The postfix operator that an operator is.
    pub fn postfix_operator(self) -> PostfixOperator
        ensures { result ≡ expressions.operator_or_increment (precedence.postfix_of self.entry.token.kind) }
    {
        postfix_of(self.token.kind).unwrap_or(PostfixOperator::Increment)
    }

    /// The assignment operator that an operator is.
    pub fn assignment_operator(self) -> AssignmentOperator
        ensures { result ≡ expressions.operator_or_assign (precedence.assignment_of self.entry.token.kind) }
    {
        assignment_of(self.token.kind).unwrap_or(AssignmentOperator::Assign)
    }

    /// Whether this is, or begins, a binary operator of a level.
    #[tactic(auto, unfolding(cx_syntax::specs::Precedence::operator))]
    fn is_operator(self, level: u32, lists: OpenLists) -> bool
        ensures { result ≡ precedence.operator level lists [] (piece_tree self.entry) }
    {
        match self.operator(lists) {
            Some(operator) => level_of(operator) == level,
            None => false,
        }
    }

    /// Whether this is of a class, where names are known.
    #[tactic(auto, unfolding(cx_syntax::specs::Classes::word, cx_syntax::specs::Classes::punct, cx_syntax::specs::Classes::any_name, cx_syntax::specs::Classes::name_of, cx_syntax::specs::Classes::literal, cx_syntax::specs::Classes::string, cx_syntax::specs::Classes::end, cx_syntax::specs::Classes::second_half, cx_syntax::specs::Classes::closing, cx_syntax::specs::Classes::nothing, cx_syntax::specs::Precedence::operator, cx_syntax::specs::Precedence::prefix_operator, cx_syntax::specs::Precedence::postfix_operator, cx_syntax::specs::Precedence::assignment_operator, cx_productions::specs::Scalars::scalar_word, cx_productions::specs::Primaries::head_name, cx_productions::specs::Primaries::core_word, cx_productions::specs::Arguments::after_head_mark, cx_productions::specs::Declarations::type_word, cx_productions::specs::Declarations::free_specifier))]
    pub fn is(self, class: Class, scope: &Scope<'s>) -> bool
        ensures { result ≡ meaning class scope.now (piece_tree self.entry) }
    {
        match class {
            Class::Word(word) => is_word(self.token.kind, word),
            Class::Punct(punctuator) => {
                self.is_all() && is_punctuator(self.token.kind, punctuator)
            }
            Class::Name => self.is_name(),
            Class::NameOf(kind) => self.is_name() && is_kind(kind, scope, self.token.text),
            Class::Literal => self.is_literal(),
            Class::Text => matches!(self.token.kind, TokenKind::Str),
            Class::End => matches!(self.token.kind, TokenKind::End),
            Class::Closing(lists) => self.closes(lists),
            Class::SecondHalf => self.is_second(),
            Class::Prefix => unary_of(self.token.kind).is_some(),
            Class::Postfix => postfix_of(self.token.kind).is_some(),
            Class::Operator(level, lists) => self.is_operator(level, lists),
            Class::Assignment(lists) => {
                !is_listed(lists) && assignment_of(self.token.kind).is_some()
            }
            Class::HeadName => {
                self.is_name()
                    && (is_kind(NameKind::TypeName, scope, self.token.text)
                        || is_kind(NameKind::ClassTemplate, scope, self.token.text))
            }
            Class::AfterHead => {
                self.is_all()
                    && (is_punctuator(self.token.kind, Punctuator::LeftBrace)
                        || is_punctuator(self.token.kind, Punctuator::ColonColon))
            }
            Class::CoreWord => {
                is_word(self.token.kind, Word::Void)
                    || is_word(self.token.kind, Word::Typename)
                    || is_word(self.token.kind, Word::Decltype)
            }
            Class::ScalarWord => {
                is_word(self.token.kind, Word::Bool)
                    || is_word(self.token.kind, Word::Int)
                    || is_word(self.token.kind, Word::Signed)
                    || is_word(self.token.kind, Word::Unsigned)
            }
            Class::TypeWord => {
                is_word(self.token.kind, Word::Typename) || is_word(self.token.kind, Word::Class)
            }
            Class::FreeSpecifier {
                is_inline,
                is_static,
                is_constexpr,
            } => {
                (!is_inline && is_word(self.token.kind, Word::Inline))
                    || (!is_static && is_word(self.token.kind, Word::Static))
                    || (!is_constexpr && is_word(self.token.kind, Word::Constexpr))
            }
            Class::Nothing => false,
        }
    }
}
