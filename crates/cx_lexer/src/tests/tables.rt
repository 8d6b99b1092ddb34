use super::{is_one, tokens_are};
use crate::TokenKind;
use std::alloc::Global;
use std::process::Abort;
use std::test::Fail;

const PUNCTUATORS: &str = "{ } ( ) [ ] ; : :: , . ... .* -> ->* ? ~ ! + - * / % ^ & | = += -= *= \
    /= %= ^= &= |= == != < > <= >= <=> && || << >> <<= >>= ++ --";

const ALTERNATIVES: &str = "and bitand bitor compl not or xor and_eq or_eq xor_eq not_eq";

const USED: &str = "auto bool break class concept const constexpr continue decltype else false for \
    if inline int long requires return signed static static_assert static_cast struct template \
    true typename unsigned using void while __is_same __out";

const UNUSED: &str = "alignas alignof asm case catch char char8_t char16_t char32_t consteval \
    constinit const_cast co_await co_return co_yield default delete do double dynamic_cast enum \
    explicit export extern float friend goto mutable namespace new noexcept nullptr operator \
    private protected public register reinterpret_cast short sizeof switch this thread_local \
    throw try typedef typeid union virtual volatile wchar_t";

/// Each of the words is a token of a kind, and with a letter behind it a name.
fn are_words(rt: &impl Abort, alloc: Global, words: &str, kind: TokenKind) -> Result<(), Fail> {
    for word in words.split_whitespace() {
        is_one(rt, alloc, word, kind)?;
        let longer = format!(in alloc; "{word}a")?;
        is_one(rt, alloc, longer.as_str(), TokenKind::Name)?;
    }
    Ok(())
}

#[test]
fn each_word_is_one_and_no_longer_one(rt: HostRuntime) -> Result<(), Fail> {
    let alloc = rt.alloc();
    are_words(&rt, alloc, USED, TokenKind::Word)?;
    are_words(&rt, alloc, UNUSED, TokenKind::Word)?;
    are_words(&rt, alloc, ALTERNATIVES, TokenKind::Punct)
}

#[test]
fn each_punctuator_is_one_and_ends_at_a_letter(rt: HostRuntime) -> Result<(), Fail> {
    let alloc = rt.alloc();
    for text in PUNCTUATORS.split_whitespace() {
        is_one(&rt, alloc, text, TokenKind::Punct)?;
        let longer = format!(in alloc; "{text}a")?;
        let wanted = [(TokenKind::Punct, text), (TokenKind::Name, "a")];
        tokens_are(&rt, alloc, longer.as_str(), wanted.as_slice())?;
    }
    Ok(())
}

#[test]
fn names_and_strings(rt: HostRuntime) -> Result<(), Fail> {
    let alloc = rt.alloc();
    for text in "_ x1 If Ωmega _é ñ __in λx_2 变量".split_whitespace() {
        is_one(&rt, alloc, text, TokenKind::Name)?;
    }
    for text in [
        "\"\"",
        "\"a\\\"b\"",
        "\"\\\\\"",
        "\"// é\"",
        "\"/*\"",
        "\"\t\r\"",
    ]
    .as_slice()
    {
        is_one(&rt, alloc, text, TokenKind::Str)?;
    }
    Ok(())
}

#[test]
fn a_token_is_as_long_as_it_goes(rt: HostRuntime) -> Result<(), Fail> {
    let wanted = [
        (TokenKind::Name, "a"),
        (TokenKind::Punct, ">>="),
        (TokenKind::Name, "b"),
        (TokenKind::Punct, "-"),
        (TokenKind::Punct, "."),
        (TokenKind::Int, "5"),
        (TokenKind::Punct, "..."),
        (TokenKind::Punct, "."),
        (TokenKind::Punct, "--"),
        (TokenKind::Punct, "->"),
        (TokenKind::Str, "\"\""),
        (TokenKind::Str, "\"\""),
    ];
    tokens_are(
        &rt,
        rt.alloc(),
        "a>>=b-.5 ....--->\"\"\"\"",
        wanted.as_slice(),
    )
}
