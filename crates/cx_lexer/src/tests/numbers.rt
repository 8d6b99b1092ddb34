use super::{fault_is, is_one};
use crate::literals::is_literal;
use crate::{TokenKind, literal};
use cx_base::{Kind, Scalar};
use std::alloc::Global;
use std::process::Abort;
use std::test::Fail;

/// Literals of a type, each with its value behind it.
fn are_of(rt: &impl Abort, alloc: Global, ty: Scalar, rows: &[(&str, u64)]) -> Result<(), Fail> {
    for (text, value) in rows {
        is_one(rt, alloc, text, TokenKind::Int)?;
        assert!(rt; is_literal(text.as_bytes()), "{text}");
        assert_eq!(rt; literal(text), Some((ty, *value)), "{text}");
    }
    Ok(())
}

#[test]
fn each_type_reaches_to_its_greatest_value(rt: HostRuntime) -> Result<(), Fail> {
    let ints = [
        ("0", 0),
        ("2147483647", 2147483647),
        ("0x0", 0),
        ("0X7FffFFff", 2147483647),
    ];
    are_of(&rt, rt.alloc(), Scalar::Int, ints.as_slice())?;
    let unsigned = [
        ("0x80000000", 2147483648),
        ("0xffffffff", 4294967295),
        ("0u", 0),
        ("4294967295U", 4294967295),
        ("0x0u", 0),
        ("0xffffffffu", 4294967295),
    ];
    are_of(&rt, rt.alloc(), Scalar::Unsigned, unsigned.as_slice())?;
    let long = [
        ("2147483648", 2147483648),
        ("9223372036854775807", 9223372036854775807),
        ("0x100000000", 4294967296),
        ("0x7fffffffffffffff", 9223372036854775807),
        ("0ll", 0),
        ("9223372036854775807LL", 9223372036854775807),
        ("0x0ll", 0),
        ("0x7fffffffffffffffll", 9223372036854775807),
    ];
    are_of(&rt, rt.alloc(), Scalar::LongLong, long.as_slice())?;
    let unsigned_long = [
        ("0x8000000000000000", 9223372036854775808),
        ("0xffffffffffffffff", 18446744073709551615),
        ("4294967296u", 4294967296),
        ("18446744073709551615u", 18446744073709551615),
        ("0x100000000U", 4294967296),
        ("0xffffffffffffffffu", 18446744073709551615),
        ("0x8000000000000000LL", 9223372036854775808),
        ("0xffffffffffffffffll", 18446744073709551615),
        ("0ull", 0),
        ("18446744073709551615ULL", 18446744073709551615),
        ("0x0llu", 0),
        ("0xffffffffffffffffLLU", 18446744073709551615),
        ("1uLL", 1),
        ("2Ull", 2),
        ("3LLu", 3),
        ("4llU", 4),
    ];
    are_of(&rt, rt.alloc(), Scalar::ULongLong, unsigned_long.as_slice())
}

#[test]
fn a_value_above_each_type_of_its_row_is_too_big(rt: HostRuntime) {
    for text in "9223372036854775808 0x10000000000000000 18446744073709551616u \
        0x10000000000000000u 9223372036854775808ll 0x10000000000000000ll 18446744073709551616ull \
        0x10000000000000000llu 340282366920938463463374607431768211456 \
        0x100000000000000000000000000000000ull"
        .split_whitespace()
    {
        fault_is(&rt, rt.alloc(), text.as_bytes(), Kind::LiteralTooBig, 1, 1);
        assert!(rt; is_literal(text.as_bytes()), "{text}");
        assert_eq!(rt; literal(text), None, "{text}");
    }
}

#[test]
fn other_numbers_are_no_tokens(rt: HostRuntime) {
    for text in "007 0b1 1'000 1.5 08 00 00u 1uu 1lul 0x 0xu 0xg 0x1.0 0x1p+3 1l 1L 1lL 1Ll 1llul \
        1ullu 1lll 1z 1_x 1e 1e+5 1E-5 0x1e+1 1é 1. 1.. 1' 0X 00x1 1f 0ulll 1u'"
        .split_whitespace()
    {
        fault_is(&rt, rt.alloc(), text.as_bytes(), Kind::BadToken, 1, 1);
    }
}
