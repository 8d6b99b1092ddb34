ghost use Rattle.std.specs.Prelude.{◌≡◌, ◌||◌, ◌&&◌, true};
ghost use Rattle.cx_grammar.specs.Names.{is_kind, same_kind};
ghost use Rattle.cx_grammar.specs.Expressions.{is_punct};

use crate::class::Class;
use crate::context::Context;
use crate::operators::{assignment_of, binary_of, level_of, spelling};
use cx_base::Scalar;
use cx_lexer::{Token, TokenKind, literal};
use cx_scope::NameKind;
use cx_tree::{AssignmentOperator, BinaryOperator, PostfixOperator, UnaryOperator};

/// A whole token, or a half of `>>`.
#[derive(Clone, Copy, Debug)]
pub enum Half {
    All,
    First,
    Second,
}

/// What the grammar reads: a token, or a half of `>>`.
#[derive(Clone, Copy, Debug)]
pub struct Piece<'s> {
    pub token: Token<'s>,
    pub half: Half,
}

/// Whether a kind is that of a punctuator.
fn is_punct_kind(kind: TokenKind) -> bool
    ensures { result ≡ is_punct kind }
{
    matches!(kind, TokenKind::Punct)
}

/// Whether two kinds of names are one.
fn is_same_kind(wanted: NameKind, kind: NameKind) -> bool
    ensures { result ≡ same_kind wanted kind }
{
    match wanted {
        NameKind::Value => matches!(kind, NameKind::Value),
        NameKind::TypeName => matches!(kind, NameKind::TypeName),
        NameKind::ClassTemplate => matches!(kind, NameKind::ClassTemplate),
        NameKind::Function => matches!(kind, NameKind::Function),
        NameKind::FunctionTemplate => matches!(kind, NameKind::FunctionTemplate),
        NameKind::Concept => matches!(kind, NameKind::Concept),
    }
}

/// Whether a name of which this is known is of a kind.
fn is_kind(wanted: NameKind, known: Option<NameKind>) -> bool
    ensures { result ≡ is_kind wanted known }
{
    match known {
        Some(kind) => is_same_kind(wanted, kind),
        None => is_same_kind(wanted, NameKind::Value),
    }
}

impl<'s> Piece<'s> {
    ghost use Rattle.cx_lexer.specs.Literals.{type_of, value_of};
    ghost use Rattle.cx_grammar.specs.Words as words;
    ghost use Rattle.cx_grammar.specs.Names.{kind_name};
    ghost use Rattle.cx_grammar.specs.Types as types;
    ghost use Rattle.cx_grammar.specs.Expressions as expressions;
    ghost use Rattle.cx_spots.specs.Classes.{meaning};
    ghost use Rattle.cx_spots.specs.Spots.{piece_tree, context_of};

    /// Whether this is a reserved word.
    #[tactic(auto, unfolding(cx_grammar::specs::Words::word))]
    pub fn is_word(self, text: &str) -> bool
        ensures { result ≡ words.word text.now (piece_tree self.entry) }
    {
        match self.token.kind {
            TokenKind::Word => self.token.text == text,
            _ => false,
        }
    }

    /// Whether this is a whole punctuator.
    #[tactic(auto, unfolding(cx_grammar::specs::Words::punct))]
    pub fn is_punct(self, text: &str) -> bool
        ensures { result ≡ words.punct text.now (piece_tree self.entry) }
    {
        match (self.token.kind, self.half) {
            (TokenKind::Punct, Half::All) => spelling(self.token.text) == text,
            _ => false,
        }
    }

    /// Whether this is a name.
    #[tactic(auto, unfolding(cx_grammar::specs::Words::any_name))]
    fn is_name(self) -> bool
        ensures { result ≡ words.any_name (piece_tree self.entry) }
    {
        matches!(self.token.kind, TokenKind::Name)
    }

    /// Whether this is the name of something of a kind; what is not declared is a value.
    #[tactic(auto, unfolding(cx_grammar::specs::Names::kind_name))]
    fn is_named(self, kind: NameKind, context: Context<'_, 's>) -> bool
        ensures { result ≡ kind_name kind (context_of context.entry) (piece_tree self.entry) }
    {
        self.is_name() && is_kind(kind, context.scope.kind_of(self.token.text))
    }

    /// Whether this is a literal.
    #[tactic(auto, unfolding(cx_grammar::specs::Words::literal_token))]
    fn is_literal(self) -> bool
        ensures { result ≡ words.literal_token (piece_tree self.entry) }
    {
        match self.token.kind {
            TokenKind::Int => literal(self.token.text).is_some(),
            _ => false,
        }
    }

    /// Whether this is a scalar of one word.
    #[tactic(auto, unfolding(cx_grammar::specs::Types::one_word))]
    fn is_one_word(self) -> bool
        ensures { result ≡ types.one_word (piece_tree self.entry) }
    {
        self.is_word("bool")
            || self.is_word("int")
            || self.is_word("signed")
            || self.is_word("unsigned")
    }

    /// Whether this begins a core that is neither a name nor a scalar.
    fn is_core_word(self) -> bool
        ensures { result ≡ expressions.core_word (piece_tree self.entry) }
    {
        self.is_word("void") || self.is_word("typename") || self.is_word("decltype")
    }

    /// Whether this closes a list of template arguments, of so many lists that are open.
    #[tactic(auto, unfolding(cx_grammar::specs::Types::closes))]
    fn closes(self, angle: u32) -> bool
        ensures { result ≡ types.closes angle (piece_tree self.entry) }
    {
        match self.half {
            Half::All => self.is_punct(">"),
            Half::First => 2 <= angle,
            Half::Second => 1 <= angle,
        }
    }

    /// Whether this makes an expression of a name of a type.
    fn goes_on(self) -> bool
        ensures { result ≡ expressions.goes_on (piece_tree self.entry) }
    {
        self.is_punct("{") || self.is_punct("::")
    }

    /// Whether this is `++` or `--`.
    fn is_step(self) -> bool
        ensures { result ≡ expressions.is_step (piece_tree self.entry) }
    {
        self.is_punct("++") || self.is_punct("--")
    }

    /// Whether this is a prefix operator.
    #[tactic(auto, unfolding(cx_grammar::specs::Expressions::is_prefix))]
    fn is_prefix(self) -> bool
        ensures { result ≡ expressions.is_prefix (piece_tree self.entry) }
    {
        self.is_punct("+")
            || self.is_punct("-")
            || self.is_punct("!")
            || self.is_punct("~")
            || self.is_step()
    }

    /// Whether this is the second half of `>>`.
    #[tactic(auto, unfolding(cx_grammar::specs::Words::second_half))]
    fn is_second_half(self) -> bool
        ensures { result ≡ words.second_half (piece_tree self.entry) }
    {
        matches!(self.half, Half::Second)
    }

    /// Whether this is no operator, since a list of template arguments is open.
    #[tactic(auto, unfolding(cx_grammar::specs::Expressions::is_hidden))]
    fn is_hidden(self, angle: u32) -> bool
        ensures { result ≡ expressions.is_hidden angle (piece_tree self.entry) }
    {
        1 <= angle && (self.token.text == ">" || self.token.text == ">>")
    }

    /// The binary operator that this is, or begins.
    #[tactic(auto, unfolding(cx_grammar::specs::Expressions::operator_of, cx_grammar::specs::Words::second_half))]
    pub fn operator(self, angle: u32) -> Option<BinaryOperator>
        ensures { result ≡ expressions.operator_of angle (piece_tree self.entry) }
    {
        if !is_punct_kind(self.token.kind) || self.is_second_half() || self.is_hidden(angle) {
            return None;
        }
        binary_of(spelling(self.token.text))
    }

    /// Whether this is, or begins, an operator of a level.
    #[tactic(auto, unfolding(cx_grammar::specs::Expressions::is_operator))]
    fn is_operator(self, level: u32, angle: u32) -> bool
        ensures { result ≡ expressions.is_operator level angle (piece_tree self.entry) }
    {
        match self.operator(angle) {
            Some(operator) => level_of(operator) == level,
            None => false,
        }
    }

    /// Whether this is an assignment operator.
    #[tactic(auto, unfolding(cx_grammar::specs::Expressions::is_assignment))]
    fn is_assignment(self, angle: u32) -> bool
        ensures { result ≡ expressions.is_assignment angle (piece_tree self.entry) }
    {
        angle == 0
            && is_punct_kind(self.token.kind)
            && assignment_of(spelling(self.token.text)).is_some()
    }

    /// Whether this is of a class.
    pub fn is(self, class: Class<'_>, context: Context<'_, 's>) -> bool
        ensures { result ≡ meaning class.entry (context_of context.entry) (piece_tree self.entry) }
    {
        match class {
            Class::Word(text) => self.is_word(text),
            Class::Punct(text) => self.is_punct(text),
            Class::AnyName => self.is_name(),
            Class::Named(kind) => self.is_named(kind, context),
            Class::HeadName => {
                self.is_named(NameKind::TypeName, context)
                    || self.is_named(NameKind::ClassTemplate, context)
            }
            Class::Literal => self.is_literal(),
            Class::OneWord => self.is_one_word(),
            Class::CoreWord => self.is_core_word(),
            Class::Closing => self.closes(context.angle + 1),
            Class::GoesOn => self.goes_on(),
            Class::Step => self.is_step(),
            Class::Prefix => self.is_prefix(),
            Class::Operator(level) => self.is_operator(level, context.angle),
            Class::Assignment => self.is_assignment(context.angle),
            Class::SecondHalf => self.is_second_half(),
            Class::Nothing => false,
        }
    }

    /// The scalar that one word is.
    pub fn scalar(self) -> Scalar
        ensures { result ≡ types.scalar_of_word (piece_tree self.entry) }
    {
        if self.is_word("bool") {
            Scalar::Bool
        } else if self.is_word("unsigned") {
            Scalar::Unsigned
        } else {
            Scalar::Int
        }
    }

    /// The postfix operator that `++` or `--` is.
    pub fn postfix_operator(self) -> PostfixOperator
        ensures { result ≡ expressions.postfix_operator (piece_tree self.entry) }
    {
        if self.is_punct("++") {
            PostfixOperator::Increment
        } else {
            PostfixOperator::Decrement
        }
    }

    /// The operator that a prefix operator is.
    pub fn unary_operator(self) -> UnaryOperator
        ensures { result ≡ expressions.unary_operator (piece_tree self.entry) }
    {
        if self.is_punct("+") {
            UnaryOperator::Plus
        } else if self.is_punct("-") {
            UnaryOperator::Minus
        } else if self.is_punct("!") {
            UnaryOperator::Not
        } else if self.is_punct("~") {
            UnaryOperator::Complement
        } else if self.is_punct("++") {
            UnaryOperator::Increment
        } else {
            UnaryOperator::Decrement
        }
    }

    /// The operator that an assignment operator is.
    pub fn assignment_operator(self) -> AssignmentOperator
        ensures { result ≡ expressions.assignment_or_plain (expressions.assignment_of (words.spelling self.entry.token.text.now)) }
    {
        assignment_of(spelling(self.token.text)).unwrap_or(AssignmentOperator::Assign)
    }

    /// The binary operator that an operator is.
    pub fn operator_or_plus(self, angle: u32) -> BinaryOperator
        ensures { result ≡ expressions.operator_or_plus (expressions.operator_of angle (piece_tree self.entry)) }
    {
        self.operator(angle).unwrap_or(BinaryOperator::Add)
    }

    /// The type and the value of a literal.
    #[tactic(auto, unfolding(cx_grammar::specs::Words::literal_token))]
    pub fn literal(self) -> (Scalar, u64)
        requires { words.literal_token (piece_tree self) ≡ true }
        ensures scalar { result.0 ≡ expressions.scalar_or_int (type_of self.entry.token.text.now) }
        ensures value { result.1 ≡ value_of self.entry.token.text.now }
    {
        match literal(self.token.text) {
            Some(typed) => typed,
            None => unreachable!(),
        }
    }
}
