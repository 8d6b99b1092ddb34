use super::fault_is;
use cx_base::Kind;

#[test]
fn what_is_no_token_is_a_fault_at_its_first_byte(rt: HostRuntime) {
    for (text, line, col) in [
        ("@", 1, 1),
        ("int f() { return @; }", 1, 18),
        ("é$", 1, 3),
        ("a\\b", 1, 2),
        ("'a'", 1, 1),
        ("x `", 1, 3),
        ("\0", 1, 1),
        ("\u{a0}x", 1, 1),
        ("a \u{2028}", 1, 3),
        ("\u{feff}int", 1, 1),
        ("x\n  /* y", 2, 3),
        ("/*/", 1, 1),
        ("\"a", 1, 1),
        ("\"a\n\"", 1, 1),
        ("x \"\\\n\"", 1, 3),
        ("\"\\\"", 1, 1),
        ("a \"b\" \"", 1, 7),
        ("1 @ 08", 1, 3),
        ("08 @", 1, 1),
    ]
    .as_slice()
    {
        fault_is(
            &rt,
            rt.alloc(),
            text.as_bytes(),
            Kind::BadToken,
            *line,
            *col,
        );
    }
    let first = b"int f() { return 9223372036854775808; } @".as_slice();
    fault_is(&rt, rt.alloc(), first, Kind::LiteralTooBig, 1, 18);
}

#[test]
fn the_fault_of_a_bad_byte_comes_first(rt: HostRuntime) {
    for (text, line, col) in [
        (b"int f\xff".as_slice(), 1, 6),
        (b"@\n\xce".as_slice(), 2, 1),
        (b"9223372036854775808 \x80".as_slice(), 1, 21),
        (b"/* \xbf".as_slice(), 1, 4),
        (b"\"\xc3\"".as_slice(), 1, 2),
        (b"# 1 \xfe\n".as_slice(), 1, 5),
        (b"\xc3\xa9\xff".as_slice(), 1, 3),
        (b"a\xe2\x28\xa1".as_slice(), 1, 2),
        (b"@ \xe2\x82".as_slice(), 1, 3),
        (b"\xc0\x80".as_slice(), 1, 1),
        (b"\xed\xa0\x80".as_slice(), 1, 1),
        (b"x\n\xf4\x90\x80\x80".as_slice(), 2, 1),
        (b"\xf0\x9f\x98".as_slice(), 1, 1),
        (b"\xce\xa9\n\xce\xa9\xa9@".as_slice(), 2, 3),
    ]
    .as_slice()
    {
        fault_is(&rt, rt.alloc(), text, Kind::BadByte, *line, *col);
    }
}
