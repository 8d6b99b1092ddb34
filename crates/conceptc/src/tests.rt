//! What no clause says: that the texts are the ones that were meant, that each answer that can come does come, and that
//! memory suffices where there is enough of it.

use super::*;
use cx_io::{Failed, MemSink, MemSource};
use std::alloc::AllocError;
use std::process::Abort;
use std::test::Fail;

/// How many bytes a sink has room for.
const ROOM: usize = 1000;

/// The word that translates.
const TRANSLATE: [&str; 1] = ["translate"];

/// What the empty unit gives.
const EMPTY: &str = "// plain 1\n//= witness 1\n";

/// Which puts of a sink fail, counted from 1, each with the number of bytes that it still takes.
type Failures<'a> = &'a [(u64, usize)];

/// What a call answers: its status, what out holds then, and what diag holds.
type Answer<'a> = (Status, &'a str, &'a str);

/// Calls with sinks that fail so, and compares the answer.
fn expect_between(
    rt: &impl Abort,
    alloc: Global,
    words: &[&str],
    input: &mut MemSource,
    sinks: (Failures, Failures),
    wanted: Answer,
) -> Result<(), Fail> {
    let (on_out, on_diag) = sinks;
    let (status, out_text, diag_text) = wanted;
    let mut out = MemSink::new(alloc, ROOM, on_out.to_vec(alloc)?)?;
    let mut diag = MemSink::new(alloc, ROOM, on_diag.to_vec(alloc)?)?;
    let answered = conceptc(alloc, words, input, &mut out, &mut diag);
    assert_eq!(rt; answered, status, "{out_text}{diag_text}");
    assert_eq!(rt; out.bytes(), out_text.as_bytes(), "{out_text}");
    assert_eq!(rt; diag.bytes(), diag_text.as_bytes(), "{diag_text}");
    Ok(())
}

/// Translates bytes that come one by one, and then in one piece, and compares the answers.
fn expect_of(rt: &impl Abort, alloc: Global, bytes: &[u8], wanted: Answer) -> Result<(), Fail> {
    for step in [1, 65536] {
        let mut input = MemSource::new(bytes.to_vec(alloc)?, step, Vec::new(alloc));
        expect_between(rt, alloc, &TRANSLATE, &mut input, (&[], &[]), wanted)?;
    }
    Ok(())
}

/// The same of a text.
fn expect(rt: &impl Abort, alloc: Global, text: &str, wanted: Answer) -> Result<(), Fail> {
    expect_of(rt, alloc, text.as_bytes(), wanted)
}

#[test]
fn units_are_translated(rt: HostRuntime) -> Result<(), Fail> {
    let cases = [
        ("", EMPTY),
        (" \t\n\x0b\x0c\r", EMPTY),
        (
            "int a() { return 7; }\nint b() { return a(); }\n",
            "// plain 1\nint p0_a();\nint p1_b();\nint p0_a() {\n  return 7;\n}\nint p1_b() {\n  return p0_a();\n}\n//= witness 1\n",
        ),
        (
            "int f() { return f(); }",
            "// plain 1\nint p0_f();\nint p0_f() {\n  return p0_f();\n}\n//= witness 1\n",
        ),
        (
            "int\tinteger_1\n(\x0b)\x0c{\rreturn 2147483647;}",
            "// plain 1\nint p0_integer_1();\nint p0_integer_1() {\n  return 2147483647;\n}\n//= witness 1\n",
        ),
        (
            "int a(){return 0;}int b(){return 10;}int c(){return a();}",
            "// plain 1\nint p0_a();\nint p1_b();\nint p2_c();\nint p0_a() {\n  return 0;\n}\nint p1_b() {\n  return 10;\n}\nint p2_c() {\n  return p0_a();\n}\n//= witness 1\n",
        ),
        (
            "int \u{e9}() { return 1; }",
            "// plain 1\nint p0_\u{e9}();\nint p0_\u{e9}() {\n  return 1;\n}\n//= witness 1\n",
        ),
        // operators, parentheses
        (
            "int f() { return 2 + 3 * -4; }",
            "// plain 1\nint p0_f();\nint p0_f() {\n  return (2 + (3 * (-4)));\n}\n//= witness 1\n",
        ),
        (
            "int f() { return (2 - +f()) % 7; }",
            "// plain 1\nint p0_f();\nint p0_f() {\n  return ((2 - p0_f()) % 7);\n}\n//= witness 1\n",
        ),
        // comments, line markers and other spellings of a number
        (
            "int f() { return 0x7fffffff; } // c",
            "// plain 1\nint p0_f();\nint p0_f() {\n  return 2147483647;\n}\n//= witness 1\n",
        ),
        (
            "# 0 \"demo.cpp\"\n#pragma once\n#line 3 \"demo.cpp\"\nint f() { return 0X1f; }\n",
            "// plain 1\nint p0_f();\nint p0_f() {\n  return 31;\n}\n//= witness 1\n",
        ),
        (
            "/* int g()\n * { */int f/**/(){return// 7\n0x00;}",
            "// plain 1\nint p0_f();\nint p0_f() {\n  return 0;\n}\n//= witness 1\n",
        ),
        ("// int f() {", EMPTY),
    ];
    for (text, out) in cases {
        expect(&rt, rt.alloc(), text, (Status::Done, out, ""))?;
    }
    Ok(())
}

#[test]
fn faults_have_their_kinds_and_places(rt: HostRuntime) -> Result<(), Fail> {
    let cases = [
        // the token that does not fit, in bytes of its line
        ("int f() { return }", "fault Syntax 1:18\n"),
        ("\tint f() { return }", "fault Syntax 1:19\n"),
        ("int f()\n{\n  return }", "fault Syntax 3:10\n"),
        ("int f()\r\n{ return }", "fault Syntax 2:10\n"),
        ("int f() { return 1; } ;", "fault Syntax 1:23\n"),
        ("int f() { return 1 }", "fault Syntax 1:20\n"),
        ("f() { return 1; }", "fault Syntax 1:1\n"),
        // the end, behind the last blank
        ("int f() { return 1; \n ", "fault Syntax 2:2\n"),
        ("int", "fault Syntax 1:4\n"),
        // words that are no names
        ("int while() { return 1; }", "fault Syntax 1:5\n"),
        ("int and() { return 1; }", "fault Syntax 1:5\n"),
        ("int int() { return 1; }", "fault Syntax 1:5\n"),
        ("int f() { return xor_eq(); }", "fault Syntax 1:18\n"),
        // within an expression, and behind it
        ("int f() { return \"1\"; }", "fault Syntax 1:18\n"),
        ("int f() { return (1; }", "fault Syntax 1:20\n"),
        ("int f() { return 1 + ; }", "fault Syntax 1:22\n"),
        ("int f() { return 1 2; }", "fault Syntax 1:20\n"),
        // tokens that are never used
        ("int f() { goto x; }", "fault Unsupported 1:11\n"),
        ("int double() { return 1; }", "fault Unsupported 1:5\n"),
        ("int f() { return f[0]; }", "fault Unsupported 1:19\n"),
        ("int f(...) { return 1; }", "fault Unsupported 1:7\n"),
        ("int f() { return f <=> f; }", "fault Unsupported 1:20\n"),
        (
            "int f() { return 1 + requires { }; }",
            "fault Unsupported 1:22\n",
        ),
        // what is skipped takes its place
        ("/* a */ int f() { return }", "fault Syntax 1:26\n"),
        (
            "# 0 \"demo.cpp\"\nint f() { return }",
            "fault Syntax 2:18\n",
        ),
        ("int \u{e9}() { return }", "fault Syntax 1:19\n"),
        // names, the first fault in the order of the unit
        ("int f() { return x(); }", "fault UnknownName 1:18\n"),
        (
            "int a() { return b(); } int b() { return 1; }",
            "fault UnknownName 1:18\n",
        ),
        (
            "int f() { return 1; } int f() { return 2; }",
            "fault Redeclared 1:27\nalso 1:5\n",
        ),
        (
            "int f() { return 1; }\nint f() { return x(); }",
            "fault Redeclared 2:5\nalso 1:5\n",
        ),
        (
            "int f() { return x(); } int f() { return 1; }",
            "fault UnknownName 1:18\n",
        ),
        (
            "int f() { return 1; } int g() { return x(); } int f() { return 1; }",
            "fault UnknownName 1:40\n",
        ),
        // what is no unit is no unit whatever its names are
        (
            "int f() { return x(); } int f() { return 1; } int",
            "fault Syntax 1:50\n",
        ),
    ];
    for (text, diag) in cases {
        expect(&rt, rt.alloc(), text, (Status::IllFormed, "", diag))?;
    }
    Ok(())
}

#[test]
fn forms_that_are_not_built_come_before_names(rt: HostRuntime) -> Result<(), Fail> {
    let cases = [
        // literals of another type
        ("int f() { return 1u; }", "fault Unsupported 1:18\n"),
        ("int f() { return 1ll; }", "fault Unsupported 1:18\n"),
        ("int f() { return 2147483648; }", "fault Unsupported 1:18\n"),
        ("int f() { return 0x80000000; }", "fault Unsupported 1:18\n"),
        // names that are not called, calls with arguments
        ("int f() { return f; }", "fault Unsupported 1:18\n"),
        ("int f() { return f(1); }", "fault Unsupported 1:18\n"),
        // a node before its parts, the parts in the order of the text
        ("int f() { return !-1u; }", "fault Unsupported 1:18\n"),
        ("int f() { return -!1u; }", "fault Unsupported 1:19\n"),
        (
            "int f() { return 1 + (2 < 3u); }",
            "fault Unsupported 1:23\n",
        ),
        ("int f() { return 1 + 2 * 3u; }", "fault Unsupported 1:26\n"),
        ("int f() { return 1u + true; }", "fault Unsupported 1:18\n"),
        // before the names, wherever they stand
        (
            "int f() { return x(); } int f() { return 1u; }",
            "fault Unsupported 1:42\n",
        ),
        // statements: a body is one return
        ("int f() { }", "fault Unsupported 1:9\n"),
        ("int f() { ; }", "fault Unsupported 1:11\n"),
        ("int f() { return; }", "fault Unsupported 1:11\n"),
        ("int f() { { return 1; } }", "fault Unsupported 1:11\n"),
        (
            "int f() { while (g) return 1u; }",
            "fault Unsupported 1:11\n",
        ),
        // a variable stands at its name, an expression at its first token
        (
            "int f() { int x = 1u; return x; }",
            "fault Unsupported 1:15\n",
        ),
        ("int f() { f(1u); }", "fault Unsupported 1:11\n"),
        // a second statement, behind what is not built in the first
        (
            "int f() { return 1; return 2u; }",
            "fault Unsupported 1:21\n",
        ),
        (
            "int f() { return 1u; return 2; }",
            "fault Unsupported 1:18\n",
        ),
        // behind what does not fit
        ("int f() { return 1u } int", "fault Syntax 1:21\n"),
        ("int f() { else return 1; }", "fault Syntax 1:11\n"),
        (
            "int f() { if (g) { int h = 1; } h{}; }",
            "fault Syntax 1:34\n",
        ),
    ];
    for (text, diag) in cases {
        expect(&rt, rt.alloc(), text, (Status::IllFormed, "", diag))?;
    }
    Ok(())
}

/// A function whose value is 1 in so many pairs of parentheses.
fn nested(alloc: Global, pairs: usize) -> Result<Vec<u8>, AllocError> {
    let mut text = b"int f() { return ".to_vec(alloc)?;
    text.extend_from_slice(&vec![in alloc; b'('; pairs]?)?;
    text.push(b'1')?;
    text.extend_from_slice(&vec![in alloc; b')'; pairs]?)?;
    text.extend_from_slice(b"; }")?;
    Ok(text)
}

#[test]
fn constructs_are_nested_so_deep_at_most(rt: HostRuntime) -> Result<(), Fail> {
    let out = "// plain 1\nint p0_f();\nint p0_f() {\n  return 1;\n}\n//= witness 1\n";
    let cases = [
        (253, (Status::Done, out, "")),
        (254, (Status::Limit, "", "limit Depth 1:271\n")),
    ];
    for (pairs, wanted) in cases {
        let text = nested(rt.alloc(), pairs)?;
        expect_of(&rt, rt.alloc(), &text, wanted)?;
    }
    Ok(())
}

#[test]
fn faults_of_tokens_come_first(rt: HostRuntime) -> Result<(), Fail> {
    let cases: [(&[u8], &str); 24] = [
        // numbers
        (
            b"int f() { return 9223372036854775808; }",
            "fault LiteralTooBig 1:18\n",
        ),
        (b"int f() { return 007; }", "fault BadToken 1:18\n"),
        (b"int f() { return 01; }", "fault BadToken 1:18\n"),
        (b"int f() { return 0b1; }", "fault BadToken 1:18\n"),
        (b"int f() { return 1'000; }", "fault BadToken 1:18\n"),
        (b"int f() { return 1.5; }", "fault BadToken 1:18\n"),
        (b"int f() { return 1uu; }", "fault BadToken 1:18\n"),
        (b"int f() { return 0x; }", "fault BadToken 1:18\n"),
        // characters that begin nothing
        (b"int f() { return @; }", "fault BadToken 1:18\n"),
        (b"int f() { return @1; }", "fault BadToken 1:18\n"),
        (b"int a#b() { return 1; }", "fault BadToken 1:6\n"),
        // what is open
        (b"int f() { return 1; } /* c", "fault BadToken 1:23\n"),
        (b"int f() { return \"1; }", "fault BadToken 1:18\n"),
        // bytes that are no text, before every other fault
        (b"int f\xff", "fault BadByte 1:6\n"),
        (b"int \xc3\xa9\xff", "fault BadByte 1:7\n"),
        (b"int\n\xc3", "fault BadByte 2:1\n"),
        (b"// \xff", "fault BadByte 1:4\n"),
        (b"@ \xff", "fault BadByte 1:3\n"),
        (b"int f( { return 1; } \xff", "fault BadByte 1:22\n"),
        // the first by place of the others
        (b"007 9223372036854775808", "fault BadToken 1:1\n"),
        (b"9223372036854775808 007", "fault LiteralTooBig 1:1\n"),
        // a token that does not fit, and a name that is not declared, before them
        (b"int f( { return @; }", "fault BadToken 1:17\n"),
        (b"goto 9223372036854775808", "fault LiteralTooBig 1:6\n"),
        (b"int f() { return x(); } @", "fault BadToken 1:25\n"),
    ];
    for (bytes, diag) in cases {
        expect_of(&rt, rt.alloc(), bytes, (Status::IllFormed, "", diag))?;
    }
    Ok(())
}

#[test]
fn words_that_are_no_command_read_nothing(rt: HostRuntime) -> Result<(), Fail> {
    let cases: [&[&str]; 6] = [
        &[],
        &["run", "f"],
        &["measure", "0"],
        &["translate", "x"],
        &["?"],
        &["Translate"],
    ];
    for words in cases {
        let fails = [1].to_vec(rt.alloc())?;
        let mut input = MemSource::new(b"x".to_vec(rt.alloc())?, 1, fails);
        let wanted = (Status::Usage, "", "usage\n");
        expect_between(&rt, rt.alloc(), words, &mut input, (&[], &[]), wanted)?;
        assert_eq!(&rt;
            input.read(&mut [0u8; 1]),
            Err(Failed),
            "the first read is still to come"
        );
    }
    Ok(())
}

#[test]
fn a_failed_read_is_told(rt: HostRuntime) -> Result<(), Fail> {
    // three reads of ten bytes, of ten, and of one, and a fourth at the end
    let unit = b"int f() { return 1; }";
    let text = "// plain 1\nint p0_f();\nint p0_f() {\n  return 1;\n}\n//= witness 1\n";
    let cases = [
        (1, (Status::ReadFault, "", "read fault\n")),
        (2, (Status::ReadFault, "", "read fault\n")),
        (3, (Status::ReadFault, "", "read fault\n")),
        (4, (Status::ReadFault, "", "read fault\n")),
        (5, (Status::Done, text, "")),
    ];
    for (failing, wanted) in cases {
        let fails = [failing].to_vec(rt.alloc())?;
        let mut input = MemSource::new(unit.to_vec(rt.alloc())?, 10, fails);
        expect_between(&rt, rt.alloc(), &TRANSLATE, &mut input, (&[], &[]), wanted)?;
    }
    Ok(())
}

#[test]
fn a_failed_put_on_out_is_told(rt: HostRuntime) -> Result<(), Fail> {
    let cases = [
        ((1, 0), Status::WriteFault, ""),
        ((1, 3), Status::WriteFault, "// "),
        ((2, 0), Status::WriteFault, "// plain 1\n"),
        ((2, 3), Status::WriteFault, "// plain 1\n//="),
        // the plain text is one put and the witness the other
        ((3, 0), Status::Done, EMPTY),
    ];
    for (failing, status, out) in cases {
        let mut input = MemSource::new(Vec::new(rt.alloc()), 1, Vec::new(rt.alloc()));
        let wanted = (status, out, "");
        expect_between(
            &rt,
            rt.alloc(),
            &TRANSLATE,
            &mut input,
            (&[failing], &[(1, 0)]),
            wanted,
        )?;
    }
    Ok(())
}

#[test]
fn a_failed_put_on_diag_is_told(rt: HostRuntime) -> Result<(), Fail> {
    let twice = "int f() { return 1; } int f() { return 2; }";
    let report = "fault Redeclared 1:27\nalso 1:5\n";
    let cases = [
        ("translate", (1, 0), Status::WriteFault, ""),
        ("translate", (1, 3), Status::WriteFault, "fau"),
        (
            "translate",
            (2, 0),
            Status::WriteFault,
            "fault Redeclared 1:27\n",
        ),
        (
            "translate",
            (2, 3),
            Status::WriteFault,
            "fault Redeclared 1:27\nals",
        ),
        ("translate", (3, 0), Status::IllFormed, report),
        ("?", (1, 0), Status::WriteFault, ""),
        ("?", (1, 3), Status::WriteFault, "usa"),
        ("?", (2, 0), Status::Usage, "usage\n"),
    ];
    for (word, failing, status, diag) in cases {
        let bytes = twice.as_bytes().to_vec(rt.alloc())?;
        let mut input = MemSource::new(bytes, 10, Vec::new(rt.alloc()));
        let wanted = (status, "", diag);
        expect_between(
            &rt,
            rt.alloc(),
            &[word],
            &mut input,
            (&[(1, 0)], &[failing]),
            wanted,
        )?;
    }
    Ok(())
}

fn spaces(alloc: Global, count: usize) -> Result<Vec<u8>, AllocError> {
    vec![in alloc; b' '; count]
}

#[test]
fn a_unit_has_at_most_four_mebibytes(rt: HostRuntime) -> Result<(), Fail> {
    let cases = [
        (4194304, (Status::Done, EMPTY, "")),
        (4194305, (Status::Limit, "", "limit Source 0:0\n")),
    ];
    for (count, wanted) in cases {
        let mut input = MemSource::new(spaces(rt.alloc(), count)?, 65536, Vec::new(rt.alloc()));
        expect_between(&rt, rt.alloc(), &TRANSLATE, &mut input, (&[], &[]), wanted)?;
    }
    Ok(())
}

#[test]
fn readers_and_writers_of_std_serve(rt: HostRuntime) -> Result<(), Fail> {
    let mut out_bytes = Vec::new(rt.alloc());
    let mut diag_bytes = Vec::new(rt.alloc());
    let mut input = StdSource::new(b"int f() { return 1; }".as_slice());
    let mut out = StdSink::new(&mut out_bytes);
    let mut diag = StdSink::new(&mut diag_bytes);
    let status = conceptc(rt.alloc(), &TRANSLATE, &mut input, &mut out, &mut diag);
    drop(out);
    drop(diag);
    let text = b"// plain 1\nint p0_f();\nint p0_f() {\n  return 1;\n}\n//= witness 1\n";
    assert_eq!(rt; status, Status::Done);
    assert_eq!(rt; out_bytes.as_slice(), text.as_slice());
    assert_eq!(rt; diag_bytes.as_slice(), b"".as_slice());
    Ok(())
}

#[test]
fn statuses_have_their_numbers(rt: HostRuntime) {
    let statuses = [
        (0, Status::Done),
        (1, Status::IllFormed),
        (2, Status::Usage),
        (3, Status::Limit),
        (4, Status::ReadFault),
        (5, Status::WriteFault),
        (6, Status::NoMemory),
        (7, Status::Rejected),
        (8, Status::Undefined),
        (9, Status::Running),
    ];
    for (number, status) in statuses {
        assert_eq!(rt; status as u8, number);
    }
}
