ghost use Rattle.std.specs.Prelude.{◌≡◌, ◌<◌, ◌≤◌, Bool, true, false, Some, None, nat_le, if◌then◌else◌, map, length, bytes_eq};
ghost use Rattle.std.specs.Char.{digit_value};
ghost use Rattle.std.specs.Option.{option_map};
ghost use Rattle.std.specs.List.{prefix_len, list_any, list_all};
ghost use Rattle.cx_tokens.specs.Literals.{has_word, unsigned_suffixes, long_suffixes, unsigned_long_suffixes, is_hexadecimal, after_prefix, is_digit_of, digits_of, suffix_of, is_unsigned, is_long, number_after, value_of, greatest, row, first_that_holds, types_of, type_of};

use cx_base::Scalar;

/// Whether a text is one of the words.
fn has_word(words: &[&str], text: &[u8]) -> bool
    ensures { result ≡ list_any (λ word. bytes_eq text.now word.now) words.now }
{
    words.iter().any(|word| text == word.as_bytes())
}

/// Whether a number begins with `0x` or `0X`.
#[tactic(auto, unfolding(cx_tokens::specs::Literals::is_hexadecimal))]
fn is_hexadecimal(text: &[u8]) -> bool
    ensures { result ≡ is_hexadecimal text.now }
{
    match text {
        [b'0', x, ..] => *x == b'x' || *x == b'X',
        _ => false,
    }
}

/// Whether a byte is a digit of a hexadecimal or of a decimal number.
#[tactic(auto, unfolding(cx_tokens::specs::Literals::is_digit))]
fn is_digit_of(hexadecimal: bool, byte: u8) -> bool
    ensures { result ≡ is_digit_of hexadecimal byte }
{
    if hexadecimal {
        byte.is_ascii_hexdigit()
    } else {
        b'0' <= byte && byte <= b'9'
    }
}

/// Where the digits at the front of a text end.
fn digits_end(hexadecimal: bool, text: &[u8]) -> usize
    ensures { result ≡ prefix_len (is_digit_of hexadecimal) text.now }
{
    text.iter()
        .position(|byte| !is_digit_of(hexadecimal, *byte))
        .unwrap_or(text.len())
}

/// What of a number comes after its `0x`, if it has one.
#[tactic(auto, using(crate::proofs::LiteralLemmas::hexadecimal_length))]
fn after_prefix(text: &[u8]) -> &[u8]
    ensures { result.now ≡ after_prefix text.now }
{
    if is_hexadecimal(text) {
        &text[2..]
    } else {
        text
    }
}

/// The digits of a number, and its suffix.
#[tactic(auto, unfolding(cx_tokens::specs::Literals::digits_of, cx_tokens::specs::Literals::suffix_of))]
fn parts(text: &[u8]) -> (&[u8], &[u8])
    ensures digits { result.0.now ≡ digits_of text.now }
    ensures suffix { result.1.now ≡ suffix_of text.now }
{
    let after = after_prefix(text);
    after.split_at(digits_end(is_hexadecimal(text), after))
}

/// Whether a suffix is one of both, `unsigned` and `long long`.
#[tactic(auto, unfolding(cx_tokens::specs::Literals::unsigned_long_suffixes, cx_tokens::specs::Literals::has_word))]
fn is_unsigned_long(suffix: &[u8]) -> bool
    ensures { result ≡ has_word unsigned_long_suffixes suffix.now }
{
    has_word(
        &["ull", "uLL", "Ull", "ULL", "llu", "LLu", "llU", "LLU"],
        suffix,
    )
}

/// Whether a number is unsigned by its suffix.
#[tactic(auto, unfolding(cx_tokens::specs::Literals::is_unsigned, cx_tokens::specs::Literals::unsigned_suffixes, cx_tokens::specs::Literals::has_word))]
fn is_unsigned(suffix: &[u8]) -> bool
    ensures { result ≡ is_unsigned suffix.now }
{
    has_word(&["u", "U"], suffix) || is_unsigned_long(suffix)
}

/// Whether a number is long long by its suffix.
#[tactic(auto, unfolding(cx_tokens::specs::Literals::is_long, cx_tokens::specs::Literals::long_suffixes, cx_tokens::specs::Literals::has_word))]
fn is_long(suffix: &[u8]) -> bool
    ensures { result ≡ is_long suffix.now }
{
    has_word(&["ll", "LL"], suffix) || is_unsigned_long(suffix)
}

/// The value of a digit.
fn digit(byte: u8) -> u128
    requires { is_digit_of true byte ≡ true }
    ensures value { result ≡ digit_value byte }
    ensures bound { result < 16 }
{
    match byte {
        b'0'..=b'9' => (byte - b'0') as u128,
        b'A'..=b'F' => (byte - b'A') as u128 + 10,
        _ => (byte - b'a') as u128 + 10,
    }
}

/// The greatest value of a type.
fn greatest(scalar: Scalar) -> u128
    ensures { result ≡ greatest scalar }
{
    match scalar {
        Scalar::Bool => 1,
        Scalar::Int => 2147483647,
        Scalar::Unsigned => 4294967295,
        Scalar::LongLong => 9223372036854775807,
        Scalar::ULongLong => 18446744073709551615,
    }
}

/// The types that a literal may have, in order.
fn row(hexadecimal: bool, unsigned: bool, long: bool) -> &'static [Scalar]
    ensures { result.now ≡ row hexadecimal unsigned long }
{
    match (hexadecimal, unsigned, long) {
        (false, false, false) => &[Scalar::Int, Scalar::LongLong],
        (true, false, false) => &[
            Scalar::Int,
            Scalar::Unsigned,
            Scalar::LongLong,
            Scalar::ULongLong,
        ],
        (_, true, false) => &[Scalar::Unsigned, Scalar::ULongLong],
        (false, false, true) => &[Scalar::LongLong],
        (true, false, true) => &[Scalar::LongLong, Scalar::ULongLong],
        (_, true, true) => &[Scalar::ULongLong],
    }
}

/// The first of some types that holds a value.
fn first_that_holds(value: u128, types: &[Scalar]) -> Option<Scalar>
    ensures { result ≡ first_that_holds value types.now }
{
    for scalar in types {
        if value <= greatest(*scalar) {
            return Some(*scalar);
        }
    }
    None
}

/// The number that digits say to a base, if a type holds it.
fn number(base: u128, digits: &[u8]) -> Option<u128>
    requires base { base ≤ 16 }
    requires decimal { 10 ≤ base }
    requires digits { list_all (is_digit_of true) digits.now ≡ true }
    ensures { result ≡ (if nat_le (number_after base 0 digits.now) 18446744073709551615 then Some (number_after base 0 digits.now) else None) }
{
    let mut value: u128 = 0;
    for byte in digits {
        value = base * value + digit(*byte);
        if value > 18446744073709551615 {
            return None;
        }
    }
    Some(value)
}

/// The base of a number.
fn base_of(hexadecimal: bool) -> u128
    ensures value { result ≡ (if hexadecimal then 16 else 10) }
    ensures least { 10 ≤ result }
    ensures greatest { result ≤ 16 }
{
    if hexadecimal { 16 } else { 10 }
}

/// The value of a literal, if a type holds it.
#[tactic(auto, using(crate::proofs::LiteralLemmas::digits_all, crate::proofs::LiteralLemmas::held_value))]
fn value_of(text: &[u8]) -> Option<u128>
    ensures { result ≡ (if nat_le (value_of text.now) 18446744073709551615 then Some (value_of text.now) else None) }
{
    let (digits, _) = parts(text);
    number(base_of(is_hexadecimal(text)), digits)
}

/// The types that a literal may have, in order.
fn types_of(text: &[u8]) -> &'static [Scalar]
    ensures { result.now ≡ types_of text.now }
{
    let (_, suffix) = parts(text);
    row(is_hexadecimal(text), is_unsigned(suffix), is_long(suffix))
}

/// The type of a literal, if one in its row holds its value.
#[tactic(auto, using(crate::proofs::LiteralLemmas::type_held, crate::proofs::LiteralLemmas::type_too_big))]
fn type_of(text: &[u8]) -> Option<Scalar>
    ensures { result ≡ type_of text.now }
{
    match value_of(text) {
        Some(value) => first_that_holds(value, types_of(text)),
        None => None,
    }
}

/// The type and the value of a literal ([lex.icon]): the first type in the row of its form and suffix that holds the
/// number that its digits say, and that number. None exactly where no type of the row holds it. Of a text that is no
/// literal it tells what the digits and the suffix at its front say. Takes no memory.
#[tactic(auto, using(crate::proofs::LiteralLemmas::literal_typed))]
pub fn literal(text: &str) -> Option<(Scalar, u64)>
    ensures { result ≡ option_map (λ ty. (ty, value_of text.now)) (type_of text.now) }
{
    let bytes = text.as_bytes();
    match value_of(bytes) {
        Some(value) => match type_of(bytes) {
            Some(ty) => Some((ty, value as u64)),
            None => None,
        },
        None => None,
    }
}
