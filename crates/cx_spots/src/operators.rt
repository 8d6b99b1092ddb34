ghost use Rattle.std.specs.Prelude.{◌≡◌};
ghost use Rattle.cx_grammar.specs.Words.{spelling};
ghost use Rattle.cx_grammar.specs.Expressions.{binary_of, level_of, assignment_of};

use cx_tree::{AssignmentOperator, BinaryOperator};

/// The punctuator that a text spells: an alternative token is a spelling of another one ([lex.digraph]).
#[tactic(auto, unfolding(cx_grammar::specs::Words::spelling))]
pub fn spelling(text: &str) -> &str
    ensures { result.now ≡ spelling text.now }
{
    match text {
        "and" => "&&",
        "bitand" => "&",
        "bitor" => "|",
        "compl" => "~",
        "not" => "!",
        "or" => "||",
        "xor" => "^",
        "and_eq" => "&=",
        "or_eq" => "|=",
        "xor_eq" => "^=",
        "not_eq" => "!=",
        _ => text,
    }
}

/// The binary operator that a punctuator is ([expr.mul] to [expr.log.or]).
#[tactic(auto, unfolding(cx_grammar::specs::Expressions::binary_of))]
pub fn binary_of(text: &str) -> Option<BinaryOperator>
    ensures { result ≡ binary_of text.now }
{
    match text {
        "*" => Some(BinaryOperator::Multiply),
        "/" => Some(BinaryOperator::Divide),
        "%" => Some(BinaryOperator::Remainder),
        "+" => Some(BinaryOperator::Add),
        "-" => Some(BinaryOperator::Subtract),
        "<<" => Some(BinaryOperator::ShiftLeft),
        ">>" => Some(BinaryOperator::ShiftRight),
        "<" => Some(BinaryOperator::Less),
        "<=" => Some(BinaryOperator::LessEqual),
        ">" => Some(BinaryOperator::Greater),
        ">=" => Some(BinaryOperator::GreaterEqual),
        "==" => Some(BinaryOperator::Equal),
        "!=" => Some(BinaryOperator::NotEqual),
        "&" => Some(BinaryOperator::BitAnd),
        "^" => Some(BinaryOperator::BitXor),
        "|" => Some(BinaryOperator::BitOr),
        "&&" => Some(BinaryOperator::And),
        "||" => Some(BinaryOperator::Or),
        _ => None,
    }
}

/// The level of a binary operator, from the tightest one, 0, to the loosest one, 9.
pub fn level_of(operator: BinaryOperator) -> u32
    ensures { result ≡ level_of operator }
{
    match operator {
        BinaryOperator::Multiply | BinaryOperator::Divide | BinaryOperator::Remainder => 0,
        BinaryOperator::Add | BinaryOperator::Subtract => 1,
        BinaryOperator::ShiftLeft | BinaryOperator::ShiftRight => 2,
        BinaryOperator::Less
        | BinaryOperator::LessEqual
        | BinaryOperator::Greater
        | BinaryOperator::GreaterEqual => 3,
        BinaryOperator::Equal | BinaryOperator::NotEqual => 4,
        BinaryOperator::BitAnd => 5,
        BinaryOperator::BitXor => 6,
        BinaryOperator::BitOr => 7,
        BinaryOperator::And => 8,
        BinaryOperator::Or => 9,
    }
}

/// The assignment operator that a punctuator is ([expr.ass]).
#[tactic(auto, unfolding(cx_grammar::specs::Expressions::assignment_of))]
pub fn assignment_of(text: &str) -> Option<AssignmentOperator>
    ensures { result ≡ assignment_of text.now }
{
    match text {
        "=" => Some(AssignmentOperator::Assign),
        "+=" => Some(AssignmentOperator::Add),
        "-=" => Some(AssignmentOperator::Subtract),
        "*=" => Some(AssignmentOperator::Multiply),
        "/=" => Some(AssignmentOperator::Divide),
        "%=" => Some(AssignmentOperator::Remainder),
        "^=" => Some(AssignmentOperator::BitXor),
        "&=" => Some(AssignmentOperator::BitAnd),
        "|=" => Some(AssignmentOperator::BitOr),
        "<<=" => Some(AssignmentOperator::ShiftLeft),
        ">>=" => Some(AssignmentOperator::ShiftRight),
        _ => None,
    }
}
