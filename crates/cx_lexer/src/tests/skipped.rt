use super::{fault_is, tokens_are};
use crate::TokenKind;
use cx_base::Kind;
use std::test::Fail;

#[test]
fn skipped_text_is_skipped(rt: HostRuntime) -> Result<(), Fail> {
    for text in [
        "",
        " \t\x0b\x0c\r\n",
        "// a\n",
        "// a",
        "//",
        "/**/",
        "/* /* */",
        "/***/",
        "/*/*/",
        "/* \" */",
        "/*\n# x */",
        "// /*\n",
        "# 0 \"demo.cpp\"\n",
        "\n#line 3",
        "# 1",
        "#line \n",
        "#pragma",
        "#pragma once\n#pragma x",
        "#pragmax\n",
        "# 1 /*\n",
        "/*\n*/\n# 1",
    ]
    .as_slice()
    {
        tokens_are(&rt, rt.alloc(), text, &[])?;
    }
    Ok(())
}

#[test]
fn skipped_text_ends(rt: HostRuntime) -> Result<(), Fail> {
    for text in [
        "x",
        " x",
        "\tx\t",
        "\x0bx",
        "\x0cx",
        "\rx",
        "\nx\n",
        "// a\nx",
        "// \\\nx",
        "/*\n*/x// y",
        "/**/x",
        "/* /* */x",
        "/* // */x",
        "/* ** / **/x",
        "#line 1\nx",
        "# 9\nx",
        "#pragma\nx",
        "x\n#pragma /*",
        "//\n# 1 \"y\"\nx",
        "x//\n# 1",
    ]
    .as_slice()
    {
        tokens_are(&rt, rt.alloc(), text, &[(TokenKind::Name, "x")])?;
    }
    Ok(())
}

#[test]
fn a_comment_does_not_nest(rt: HostRuntime) -> Result<(), Fail> {
    let wanted = [
        (TokenKind::Name, "a"),
        (TokenKind::Name, "b"),
        (TokenKind::Punct, "*"),
        (TokenKind::Punct, "/"),
        (TokenKind::Str, "\"# 1 /*\""),
    ];
    tokens_are(
        &rt,
        rt.alloc(),
        "a /* /* */ b */ \"# 1 /*\"",
        wanted.as_slice(),
    )
}

#[test]
fn a_mark_inside_a_line_is_no_mark(rt: HostRuntime) {
    for (text, line, col) in [
        ("a#b", 1, 2),
        ("a # 1", 1, 3),
        (" # 1", 1, 2),
        ("\n\t#pragma", 2, 2),
        ("x #line 1", 1, 3),
        ("/**/# 1", 1, 5),
        ("/*\n*/#pragma", 2, 3),
        ("#", 1, 1),
        ("# ", 1, 1),
        ("# x", 1, 1),
        ("#1", 1, 1),
        ("#  1", 1, 1),
        ("#line", 1, 1),
        ("#line\t1", 1, 1),
        ("#pragm", 1, 1),
        ("#define a", 1, 1),
    ]
    .as_slice()
    {
        fault_is(
            &rt,
            rt.alloc(),
            text.as_bytes(),
            Kind::BadToken,
            *line,
            *col,
        );
    }
}
