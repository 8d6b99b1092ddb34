//! Which operator a punctuator is, and how tightly it binds.

ghost use Rattle.std.specs.Prelude.{◌≡◌};
ghost use Rattle.cx_syntax.specs.Contexts as contexts;
ghost use Rattle.cx_syntax.specs.Precedence as precedence;

use cx_syntax::{AssignmentOperator, BinaryOperator, OpenLists, PostfixOperator, UnaryOperator};
use cx_tokens::{Punctuator, TokenKind};

/// The level of a binary operator, from the tightest one, 1, to the loosest one, 10.
pub(crate) fn level_of(operator: BinaryOperator) -> u32
    ensures { result ≡ precedence.level_of operator }
{
    match operator {
        BinaryOperator::Multiply | BinaryOperator::Divide | BinaryOperator::Remainder => 1,
        BinaryOperator::Add | BinaryOperator::Subtract => 2,
        BinaryOperator::ShiftLeft | BinaryOperator::ShiftRight => 3,
        BinaryOperator::Less
        | BinaryOperator::LessEqual
        | BinaryOperator::Greater
        | BinaryOperator::GreaterEqual => 4,
        BinaryOperator::Equal | BinaryOperator::NotEqual => 5,
        BinaryOperator::BitAnd => 6,
        BinaryOperator::BitXor => 7,
        BinaryOperator::BitOr => 8,
        BinaryOperator::And => 9,
        BinaryOperator::Or => 10,
    }
}

/// The binary operator that a punctuator is.
#[tactic(auto, unfolding(cx_syntax::specs::Precedence::binary_of))]
fn binary_of(punctuator: Punctuator) -> Option<BinaryOperator>
    ensures { result ≡ precedence.binary_of punctuator }
{
    match punctuator {
        Punctuator::Star => Some(BinaryOperator::Multiply),
        Punctuator::Slash => Some(BinaryOperator::Divide),
        Punctuator::Percent => Some(BinaryOperator::Remainder),
        Punctuator::Plus => Some(BinaryOperator::Add),
        Punctuator::Minus => Some(BinaryOperator::Subtract),
        Punctuator::LessLess => Some(BinaryOperator::ShiftLeft),
        Punctuator::GreaterGreater => Some(BinaryOperator::ShiftRight),
        Punctuator::Less => Some(BinaryOperator::Less),
        Punctuator::LessEqual => Some(BinaryOperator::LessEqual),
        Punctuator::Greater => Some(BinaryOperator::Greater),
        Punctuator::GreaterEqual => Some(BinaryOperator::GreaterEqual),
        Punctuator::EqualEqual => Some(BinaryOperator::Equal),
        Punctuator::ExclamationEqual => Some(BinaryOperator::NotEqual),
        Punctuator::Ampersand => Some(BinaryOperator::BitAnd),
        Punctuator::Caret => Some(BinaryOperator::BitXor),
        Punctuator::Bar => Some(BinaryOperator::BitOr),
        Punctuator::AmpersandAmpersand => Some(BinaryOperator::And),
        Punctuator::BarBar => Some(BinaryOperator::Or),
        _ => None,
    }
}

/// Whether a list of template arguments is open.
pub(crate) fn is_listed(lists: OpenLists) -> bool
    ensures { result ≡ contexts.is_listed lists }
{
    match lists {
        OpenLists::None => false,
        OpenLists::One | OpenLists::Several => true,
    }
}

/// Whether two lists of template arguments are open.
pub(crate) fn is_twice_listed(lists: OpenLists) -> bool
    ensures { result ≡ contexts.is_twice_listed lists }
{
    match lists {
        OpenLists::None | OpenLists::One => false,
        OpenLists::Several => true,
    }
}

/// Whether a punctuator closes a list of template arguments, or two.
fn closes_list(punctuator: Punctuator) -> bool
    ensures { result ≡ precedence.closes_list punctuator }
{
    matches!(punctuator, Punctuator::Greater | Punctuator::GreaterGreater)
}

/// The binary operator that a whole token is, where so many lists are open.
pub(crate) fn operator_of_kind(lists: OpenLists, kind: TokenKind) -> Option<BinaryOperator>
    ensures { result ≡ precedence.operator_of_kind lists kind }
{
    match kind {
        TokenKind::Punct(punctuator) => {
            if is_listed(lists) && closes_list(punctuator) {
                None
            } else {
                binary_of(punctuator)
            }
        }
        _ => None,
    }
}

/// The prefix operator that a token is.
#[tactic(auto, unfolding(cx_syntax::specs::Precedence::unary_of))]
pub(crate) fn unary_of(kind: TokenKind) -> Option<UnaryOperator>
    ensures { result ≡ precedence.unary_of kind }
{
    match kind {
        TokenKind::Punct(Punctuator::Plus) => Some(UnaryOperator::Plus),
        TokenKind::Punct(Punctuator::Minus) => Some(UnaryOperator::Minus),
        TokenKind::Punct(Punctuator::Exclamation) => Some(UnaryOperator::Not),
        TokenKind::Punct(Punctuator::Tilde) => Some(UnaryOperator::Complement),
        TokenKind::Punct(Punctuator::PlusPlus) => Some(UnaryOperator::Increment),
        TokenKind::Punct(Punctuator::MinusMinus) => Some(UnaryOperator::Decrement),
        _ => None,
    }
}

/// The postfix operator that a token is.
#[tactic(auto, unfolding(cx_syntax::specs::Precedence::postfix_of))]
pub(crate) fn postfix_of(kind: TokenKind) -> Option<PostfixOperator>
    ensures { result ≡ precedence.postfix_of kind }
{
    match kind {
        TokenKind::Punct(Punctuator::PlusPlus) => Some(PostfixOperator::Increment),
        TokenKind::Punct(Punctuator::MinusMinus) => Some(PostfixOperator::Decrement),
        _ => None,
    }
}

/// The assignment operator that a token is.
#[tactic(auto, unfolding(cx_syntax::specs::Precedence::assignment_of))]
pub(crate) fn assignment_of(kind: TokenKind) -> Option<AssignmentOperator>
    ensures { result ≡ precedence.assignment_of kind }
{
    match kind {
        TokenKind::Punct(Punctuator::Equal) => Some(AssignmentOperator::Assign),
        TokenKind::Punct(Punctuator::PlusEqual) => Some(AssignmentOperator::Add),
        TokenKind::Punct(Punctuator::MinusEqual) => Some(AssignmentOperator::Subtract),
        TokenKind::Punct(Punctuator::StarEqual) => Some(AssignmentOperator::Multiply),
        TokenKind::Punct(Punctuator::SlashEqual) => Some(AssignmentOperator::Divide),
        TokenKind::Punct(Punctuator::PercentEqual) => Some(AssignmentOperator::Remainder),
        TokenKind::Punct(Punctuator::CaretEqual) => Some(AssignmentOperator::BitXor),
        TokenKind::Punct(Punctuator::AmpersandEqual) => Some(AssignmentOperator::BitAnd),
        TokenKind::Punct(Punctuator::BarEqual) => Some(AssignmentOperator::BitOr),
        TokenKind::Punct(Punctuator::LessLessEqual) => Some(AssignmentOperator::ShiftLeft),
        TokenKind::Punct(Punctuator::GreaterGreaterEqual) => Some(AssignmentOperator::ShiftRight),
        _ => None,
    }
}
