ghost use Rattle.std.specs.Prelude.{◌≡◌, ◌==◌, map, length, filter, bytes_eq};
ghost use Rattle.std.specs.List.{list_any};
ghost use Rattle.cx_lexer.specs.Words.{has_word, reserved_words, alternative_tokens};

/// The reserved words of a length.
#[tactic(auto, unfolding(crate::specs::Words::reserved_words, crate::specs::Words::used_words, crate::specs::Words::unused_words))]
fn words_of(count: usize) -> &'static [&'static str]
    ensures { map (λ word. word.now) result.now ≡ filter (λ word. length word == count) reserved_words }
{
    match count {
        2 => &["if", "do"],
        3 => &["for", "int", "asm", "new", "try"],
        4 => &[
            "auto", "bool", "else", "long", "true", "void", "case", "char", "enum", "goto", "this",
        ],
        5 => &[
            "break", "class", "const", "false", "using", "while", "__out", "catch", "float",
            "short", "throw", "union",
        ],
        6 => &[
            "inline", "return", "signed", "static", "struct", "delete", "double", "export",
            "extern", "friend", "public", "sizeof", "switch", "typeid",
        ],
        7 => &[
            "concept", "alignas", "alignof", "char8_t", "default", "mutable", "nullptr", "private",
            "typedef", "virtual", "wchar_t",
        ],
        8 => &[
            "continue", "decltype", "requires", "template", "typename", "unsigned", "char16_t",
            "char32_t", "co_await", "co_yield", "explicit", "noexcept", "operator", "register",
            "volatile",
        ],
        9 => &[
            "constexpr",
            "__is_same",
            "consteval",
            "constinit",
            "co_return",
            "namespace",
            "protected",
        ],
        10 => &["const_cast"],
        11 => &["static_cast"],
        12 => &["dynamic_cast", "thread_local"],
        13 => &["static_assert"],
        16 => &["reinterpret_cast"],
        _ => &[],
    }
}

/// Whether a text is one of the words.
pub(crate) fn has_word(words: &[&str], text: &[u8]) -> bool
    ensures { result ≡ list_any (λ word. bytes_eq text.now word.now) words.now }
{
    words.iter().any(|word| text == word.as_bytes())
}

/// Whether a text is a reserved word.
pub(crate) fn is_reserved(text: &[u8]) -> bool
    ensures { result ≡ has_word reserved_words text.now }
{
    has_word(words_of(text.len()), text)
}

/// The alternative tokens.
#[tactic(auto, unfolding(crate::specs::Words::alternative_tokens))]
fn alternatives() -> &'static [&'static str]
    ensures { map (λ word. word.now) result.now ≡ alternative_tokens }
{
    &[
        "and", "bitand", "bitor", "compl", "not", "or", "xor", "and_eq", "or_eq", "xor_eq",
        "not_eq",
    ]
}

/// Whether a text is an alternative token.
pub(crate) fn is_alternative(text: &[u8]) -> bool
    ensures { result ≡ has_word alternative_tokens text.now }
{
    has_word(alternatives(), text)
}
