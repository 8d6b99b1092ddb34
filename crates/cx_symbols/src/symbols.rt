ghost use Rattle.std.specs.Prelude.{◌≡◌};
ghost use Rattle.cx_symbols.specs.Symbols.{word_of, punctuator_of, longer_punctuator, spelled_otherwise, symbol_of, with_symbol};
ghost use Rattle.cx_lexer.specs.Tokens as read;
ghost use Rattle.cx_tokens.specs.Tokens as symbols;

use cx_tokens::{Punctuator, Token, TokenKind, Word};

#[tactic(auto, unfolding(crate::specs::Symbols::word_of))]
fn word_of(text: &str) -> Word
    ensures { result ≡ word_of text.now }
{
    match text {
        "auto" => Word::Auto,
        "bool" => Word::Bool,
        "break" => Word::Break,
        "class" => Word::Class,
        "concept" => Word::Concept,
        "const" => Word::Const,
        "constexpr" => Word::Constexpr,
        "continue" => Word::Continue,
        "decltype" => Word::Decltype,
        "else" => Word::Else,
        "false" => Word::False,
        "for" => Word::For,
        "if" => Word::If,
        "inline" => Word::Inline,
        "int" => Word::Int,
        "long" => Word::Long,
        "requires" => Word::Requires,
        "return" => Word::Return,
        "signed" => Word::Signed,
        "static" => Word::Static,
        "static_assert" => Word::StaticAssert,
        "static_cast" => Word::StaticCast,
        "struct" => Word::Struct,
        "template" => Word::Template,
        "true" => Word::True,
        "typename" => Word::Typename,
        "unsigned" => Word::Unsigned,
        "using" => Word::Using,
        "void" => Word::Void,
        "while" => Word::While,
        "__is_same" => Word::IsSame,
        "__out" => Word::Out,
        _ => Word::Unused,
    }
}

#[tactic(auto, unfolding(crate::specs::Symbols::spelled_otherwise))]
fn spelled_otherwise(text: &str) -> Punctuator
    ensures { result ≡ spelled_otherwise text.now }
{
    match text {
        "and" => Punctuator::AmpersandAmpersand,
        "bitand" => Punctuator::Ampersand,
        "bitor" => Punctuator::Bar,
        "compl" => Punctuator::Tilde,
        "not" => Punctuator::Exclamation,
        "or" => Punctuator::BarBar,
        "xor" => Punctuator::Caret,
        "and_eq" => Punctuator::AmpersandEqual,
        "or_eq" => Punctuator::BarEqual,
        "xor_eq" => Punctuator::CaretEqual,
        "not_eq" => Punctuator::ExclamationEqual,
        _ => Punctuator::Unused,
    }
}

#[tactic(auto, unfolding(crate::specs::Symbols::longer_punctuator))]
fn longer_punctuator(text: &str) -> Punctuator
    ensures { result ≡ longer_punctuator text.now }
{
    match text {
        "::" => Punctuator::ColonColon,
        "->" => Punctuator::Arrow,
        "+=" => Punctuator::PlusEqual,
        "-=" => Punctuator::MinusEqual,
        "*=" => Punctuator::StarEqual,
        "/=" => Punctuator::SlashEqual,
        "%=" => Punctuator::PercentEqual,
        "^=" => Punctuator::CaretEqual,
        "&=" => Punctuator::AmpersandEqual,
        "|=" => Punctuator::BarEqual,
        "==" => Punctuator::EqualEqual,
        "!=" => Punctuator::ExclamationEqual,
        "<=" => Punctuator::LessEqual,
        ">=" => Punctuator::GreaterEqual,
        "&&" => Punctuator::AmpersandAmpersand,
        "||" => Punctuator::BarBar,
        "<<" => Punctuator::LessLess,
        ">>" => Punctuator::GreaterGreater,
        "<<=" => Punctuator::LessLessEqual,
        ">>=" => Punctuator::GreaterGreaterEqual,
        "++" => Punctuator::PlusPlus,
        "--" => Punctuator::MinusMinus,
        _ => spelled_otherwise(text),
    }
}

#[tactic(auto, unfolding(crate::specs::Symbols::punctuator_of))]
fn punctuator_of(text: &str) -> Punctuator
    ensures { result ≡ punctuator_of text.now }
{
    match text {
        "{" => Punctuator::LeftBrace,
        "}" => Punctuator::RightBrace,
        "(" => Punctuator::LeftParenthesis,
        ")" => Punctuator::RightParenthesis,
        ";" => Punctuator::Semicolon,
        ":" => Punctuator::Colon,
        "," => Punctuator::Comma,
        "." => Punctuator::Dot,
        "?" => Punctuator::Question,
        "~" => Punctuator::Tilde,
        "!" => Punctuator::Exclamation,
        "+" => Punctuator::Plus,
        "-" => Punctuator::Minus,
        "*" => Punctuator::Star,
        "/" => Punctuator::Slash,
        "%" => Punctuator::Percent,
        "^" => Punctuator::Caret,
        "&" => Punctuator::Ampersand,
        "|" => Punctuator::Bar,
        "=" => Punctuator::Equal,
        "<" => Punctuator::Less,
        ">" => Punctuator::Greater,
        _ => longer_punctuator(text),
    }
}

fn symbol_of(kind: cx_lexer::TokenKind, text: &str) -> TokenKind
    ensures { result ≡ symbol_of kind text.now }
{
    match kind {
        cx_lexer::TokenKind::Name => TokenKind::Name,
        cx_lexer::TokenKind::Word => TokenKind::Word(word_of(text)),
        cx_lexer::TokenKind::Int => TokenKind::Int,
        cx_lexer::TokenKind::Str => TokenKind::Str,
        cx_lexer::TokenKind::Punct => TokenKind::Punct(punctuator_of(text)),
        cx_lexer::TokenKind::End => TokenKind::End,
    }
}

/// A token with the word or the punctuator that its text spells. Takes no memory.
pub fn with_symbol<'s>(token: cx_lexer::Token<'s>) -> Token<'s>
    ensures { symbols.token_tree result ≡ with_symbol (read.token_tree token.entry) }
{
    Token {
        kind: symbol_of(token.kind, token.text),
        text: token.text,
        at: token.at,
    }
}
