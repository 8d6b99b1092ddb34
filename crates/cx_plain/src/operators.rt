//! The operators of plain expressions, and how they are written.

ghost use Rattle.std.specs.Prelude.{◌≡◌};
ghost use Rattle.cx_plain.specs.PlainText.{unary_text, binary_text};

/// A prefix operator.
#[derive(Clone, Copy, Debug, PartialEq, Eq)]
pub enum UnaryOperator {
    Minus,
    Complement,
}

/// An operator between two operands.
#[derive(Clone, Copy, Debug, PartialEq, Eq)]
pub enum BinaryOperator {
    Multiply,
    Divide,
    Remainder,
    Add,
    Subtract,
    BitAnd,
    BitXor,
    BitOr,
}

/// The text of a prefix operator.
#[tactic(auto, unfolding(crate::specs::PlainText::unary_text))]
pub(crate) fn unary_text(operator: UnaryOperator) -> &'static str
    ensures { result.now ≡ unary_text operator }
{
    match operator {
        UnaryOperator::Minus => "-",
        UnaryOperator::Complement => "~",
    }
}

/// The text of an operator between two operands.
#[tactic(auto, unfolding(crate::specs::PlainText::binary_text))]
pub(crate) fn binary_text(operator: BinaryOperator) -> &'static str
    ensures { result.now ≡ binary_text operator }
{
    match operator {
        BinaryOperator::Multiply => "*",
        BinaryOperator::Divide => "/",
        BinaryOperator::Remainder => "%",
        BinaryOperator::Add => "+",
        BinaryOperator::Subtract => "-",
        BinaryOperator::BitAnd => "&",
        BinaryOperator::BitXor => "^",
        BinaryOperator::BitOr => "|",
    }
}
