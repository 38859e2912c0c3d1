ghost use Rattle.std.specs.Prelude.{◌<◌, ◌^◌, length};

use crate::{Divided, Ending, LexRefused, SigToken, TokenKind, divide, tokens};
use std::alloc::Global;
use std::process::Abort;
use std::test::Fail;

fn kind_name(kind: TokenKind) -> &'static str {
    match kind {
        TokenKind::Ident => "ident",
        TokenKind::Upper => "upper",
        TokenKind::IfaceName => "iface",
        TokenKind::Ivar => "ivar",
        TokenKind::Int => "int",
        TokenKind::Str => "str",
        TokenKind::Sym => "sym",
        TokenKind::Mark => "mark",
        TokenKind::Annotation => "note",
        TokenKind::Comment => "comment",
    }
}

/// Tokens with their places, a space behind each.
fn listed(alloc: Global, tokens: &[SigToken]) -> Result<String, Fail> {
    let mut all = String::new(alloc);
    for SigToken { place, kind } in tokens {
        let name = kind_name(*kind);
        let one = format!(in alloc; "{name} {}-{} ", place.start, place.end)?;
        all.push_str(one.as_str())?;
    }
    Ok(all)
}

/// The tokens of a text with their places, or its refusal.
fn shown(alloc: Global, text: &[u8]) -> Result<String, Fail>
    requires { length text.now < 2 ^ 32 }
{
    let found = match tokens(alloc, 3, text) {
        Ok(found) => found,
        Err(LexRefused::Fault(place)) => {
            return Ok(format!(in alloc; "fault {} {}-{}", place.file, place.start, place.end)?);
        }
        Err(LexRefused::Limit(place)) => {
            return Ok(format!(in alloc; "limit {} {}-{}", place.file, place.start, place.end)?);
        }
        Err(LexRefused::NoMemory) => return Ok(format!(in alloc; "no memory")?),
    };
    listed(alloc, found.as_slice())
}

/// The tokens of a text up to where its division stops, and why it does.
fn divided(alloc: Global, text: &[u8]) -> Result<String, Fail>
    requires { length text.now < 2 ^ 32 }
{
    let Ok(Divided { tokens, ending }) = divide(alloc, 3, text) else {
        return Ok(format!(in alloc; "no memory")?);
    };
    let mut all = listed(alloc, tokens.as_slice())?;
    let last = match ending {
        Ending::Whole => format!(in alloc; "whole")?,
        Ending::Stray(at) => format!(in alloc; "stray {at}")?,
        Ending::PastInteger(at) => format!(in alloc; "past {at}")?,
    };
    all.push_str(last.as_str())?;
    Ok(all)
}

fn expect(rt: &impl Abort, alloc: Global, cases: &[(&str, &str)]) -> Result<(), Fail> {
    for (text, expected) in cases {
        let text: &str = text;
        if text.len() < 1000 {
            let found = shown(alloc, text.as_bytes())?;
            let found = found.as_str().trim_end();
            assert_eq!(rt; found, *expected, "{text}");
        }
    }
    Ok(())
}

#[test]
fn declarations(rt: HostRuntime) -> Result<(), Fail> {
    expect(
        &rt,
        rt.alloc(),
        &[
            ("", ""),
            (" \t\r\n", ""),
            ("class A", "ident 0-5 upper 6-7"),
            (
                "def f: (?Integer) -> void",
                "ident 0-3 ident 4-5 mark 5-6 mark 7-8 mark 8-9 upper 9-16 mark 16-17 mark 18-20 ident 21-25",
            ),
            (
                "@x: ::A::B?",
                "ivar 0-2 mark 2-3 mark 4-6 upper 6-7 mark 7-9 upper 9-10 mark 10-11",
            ),
            (
                "%a{deprecated} # why\r\ntype t",
                "note 0-14 comment 15-21 ident 22-26 ident 27-28",
            ),
            ("interface _Each end", "ident 0-9 iface 10-15 ident 16-19"),
            (
                "**A, *B, &",
                "mark 0-2 upper 2-3 mark 3-4 mark 5-6 upper 6-7 mark 7-8 mark 9-10",
            ),
        ],
    )
}

#[test]
fn words(rt: HostRuntime) -> Result<(), Fail> {
    expect(
        &rt,
        rt.alloc(),
        &[
            ("_", "ident 0-1"),
            ("_a", "ident 0-2"),
            ("__A", "ident 0-3"),
            ("_A", "iface 0-2"),
            ("_Ab1 A_ a9", "iface 0-4 upper 5-7 ident 8-10"),
            ("endless", "ident 0-7"),
            ("selfish nil?", "ident 0-7 ident 8-11 mark 11-12"),
            ("classA", "ident 0-6"),
            ("a\u{e9}b", "ident 0-4"),
            ("A\u{3b1}\u{1d7d8}", "upper 0-7"),
            ("\u{e9}", "fault 3 0-0"),
            ("a\u{2192}", "fault 3 1-1"),
            ("@a @self@b", "ivar 0-2 ivar 3-8 ivar 8-10"),
            ("@A", "mark 0-1 upper 1-2"),
            ("@_Foo", "ivar 0-2 upper 2-5"),
            ("@@x", "mark 0-1 ivar 1-3"),
            ("@ x", "mark 0-1 ident 2-3"),
        ],
    )
}

#[test]
fn symbols(rt: HostRuntime) -> Result<(), Fail> {
    expect(
        &rt,
        rt.alloc(),
        &[
            (":a", "sym 0-2"),
            (":A :end", "sym 0-2 sym 3-7"),
            (":a? :b! :c=", "sym 0-3 sym 4-7 sym 8-11"),
            (":A?", "sym 0-3"),
            (":a==", "sym 0-3 mark 3-4"),
            (":a ?", "sym 0-2 mark 3-4"),
            (":_Foo", "sym 0-2 upper 2-5"),
            (":_?", "sym 0-3"),
            ("x:Integer", "ident 0-1 sym 1-9"),
            (
                ":[] :[]= :[A",
                "sym 0-3 sym 4-8 mark 9-10 mark 10-11 upper 11-12",
            ),
            (":<=> :<= :<< :<", "sym 0-4 sym 5-8 sym 9-12 sym 13-15"),
            (
                ":=== := :=>",
                "sym 0-3 mark 3-4 mark 5-6 mark 6-7 mark 8-9 mark 9-10 mark 10-11",
            ),
            (":-@ :-1 :->", "sym 0-3 sym 4-6 int 6-7 sym 8-10 mark 10-11"),
            (
                ":+:-:*:/:%:>:>=",
                "sym 0-2 sym 2-4 sym 4-6 sym 6-8 sym 8-10 sym 10-12 sym 12-15",
            ),
            (":** :!", "sym 0-2 mark 2-3 mark 4-5 mark 5-6"),
            (":: :", "mark 0-2 mark 3-4"),
            (":::a", "mark 0-2 sym 2-4"),
            (
                ":\"s\" :1 :(",
                "mark 0-1 str 1-4 mark 5-6 int 6-7 mark 8-9 mark 9-10",
            ),
        ],
    )
}

#[test]
fn integers(rt: HostRuntime) -> Result<(), Fail> {
    expect(
        &rt,
        rt.alloc(),
        &[
            ("0 12 007", "int 0-1 int 2-4 int 5-8"),
            ("-5 - 5 --5", "int 0-2 mark 3-4 int 5-6 mark 7-8 int 8-10"),
            ("1-2", "int 0-1 int 1-3"),
            ("->-1", "mark 0-2 int 2-4"),
            ("-0", "int 0-2"),
            ("1a 1_0", "int 0-1 ident 1-2 int 3-4 ident 4-6"),
            ("9223372036854775807", "int 0-19"),
            ("9223372036854775808", "limit 3 0-0"),
            ("-9223372036854775808", "int 0-20"),
            ("-9223372036854775809", "limit 3 0-0"),
            ("000000000000000000000009223372036854775807", "int 0-42"),
            ("000000000000000000000009223372036854775808", "limit 3 0-0"),
            ("-0000000000000000000000000", "int 0-26"),
            ("99999999999999999999999999999999999", "limit 3 0-0"),
            ("A 18446744073709551617", "limit 3 2-2"),
        ],
    )
}

#[test]
fn strings(rt: HostRuntime) -> Result<(), Fail> {
    expect(
        &rt,
        rt.alloc(),
        &[
            ("\"\"", "str 0-2"),
            ("\"a\" \"b\"", "str 0-3 str 4-7"),
            (r#""\"\\\n\t""#, "str 0-10"),
            (r#""\q""#, "fault 3 0-0"),
            (r#"a "\""#, "fault 3 2-2"),
            (r#""\"#, "fault 3 0-0"),
            ("\"", "fault 3 0-0"),
            ("\"a\n\u{e9}\u{1f600}\"", "str 0-10"),
            ("\"# {}\" A", "str 0-6 upper 7-8"),
            ("# \"", "comment 0-3"),
        ],
    )
}

#[test]
fn comments_and_annotations(rt: HostRuntime) -> Result<(), Fail> {
    expect(
        &rt,
        rt.alloc(),
        &[
            ("#", "comment 0-1"),
            ("# a\n#b", "comment 0-3 comment 4-6"),
            ("# \u{e9}\r\n", "comment 0-5"),
            ("#a#b", "comment 0-4"),
            ("%a{}", "note 0-4"),
            ("%a{a b}%a{c}", "note 0-7 note 7-12"),
            ("%a{\u{e9}}", "note 0-6"),
            (
                "%a{a{b}",
                "mark 0-1 ident 1-2 mark 2-3 ident 3-4 mark 4-5 ident 5-6 mark 6-7",
            ),
            ("%a{a\n}", "mark 0-1 ident 1-2 mark 2-3 ident 3-4 mark 5-6"),
            ("%a{a", "mark 0-1 ident 1-2 mark 2-3 ident 3-4"),
            ("%a {", "mark 0-1 ident 1-2 mark 3-4"),
            ("%b{c}", "mark 0-1 ident 1-2 mark 2-3 ident 3-4 mark 4-5"),
        ],
    )
}

#[test]
fn marks(rt: HostRuntime) -> Result<(), Fail> {
    expect(
        &rt,
        rt.alloc(),
        &[
            (
                "<:,.@[](){}|&^?!=*->+/%",
                "mark 0-1 mark 1-2 mark 2-3 mark 3-4 mark 4-5 mark 5-6 mark 6-7 mark 7-8 mark 8-9 mark 9-10 mark 10-11 mark 11-12 mark 12-13 mark 13-14 mark 14-15 mark 15-16 mark 16-17 mark 17-18 mark 18-20 mark 20-21 mark 21-22 mark 22-23",
            ),
            ("***", "mark 0-2 mark 2-3"),
            ("<=> ==", "mark 0-1 mark 1-2 mark 2-3 mark 4-5 mark 5-6"),
            ("A;", "fault 3 1-1"),
            ("~", "fault 3 0-0"),
            ("'a'", "fault 3 0-0"),
            ("`", "fault 3 0-0"),
            ("$", "fault 3 0-0"),
            ("\\", "fault 3 0-0"),
            ("A\0", "fault 3 1-1"),
            ("A\x0c", "fault 3 1-1"),
            ("A\x7f", "fault 3 1-1"),
            ("A\u{a0}", "fault 3 1-1"),
        ],
    )
}

#[test]
fn the_earlier_refusal(rt: HostRuntime) -> Result<(), Fail> {
    expect(
        &rt,
        rt.alloc(),
        &[
            ("9223372036854775808 ;", "limit 3 0-0"),
            ("; 9223372036854775808", "fault 3 0-0"),
            ("# 9223372036854775808\n;", "fault 3 22-22"),
        ],
    )
}

#[test]
fn bytes_that_are_no_text(rt: HostRuntime) -> Result<(), Fail> {
    let alloc = rt.alloc();
    assert_eq!(rt; shown(alloc, b"A \xff")?.as_str(), "fault 3 2-2");
    assert_eq!(rt; shown(alloc, b"# a\xff")?.as_str(), "fault 3 3-3");
    assert_eq!(rt; shown(alloc, b"a\xc3")?.as_str(), "fault 3 1-1");
    assert_eq!(rt; shown(alloc, b"a\xed\xa0\x80")?.as_str(), "fault 3 1-1");
    assert_eq!(rt; shown(alloc, b"a\xc0\xaa")?.as_str(), "fault 3 1-1");
    assert_eq!(rt; shown(alloc, b"a \"\xff\"")?.as_str(), "fault 3 2-2");
    assert_eq!(rt; shown(alloc, b"%a{\xff}")?.as_str(), "fault 3 3-3");
    assert_eq!(rt; shown(alloc, b"\x80")?.as_str(), "fault 3 0-0");
    Ok(())
}

#[test]
fn endings(rt: HostRuntime) -> Result<(), Fail> {
    let cases: &[(&str, &str)] = &[
        ("", "whole"),
        (" \n", "whole"),
        ("A b", "upper 0-1 ident 2-3 whole"),
        ("A # b", "upper 0-1 comment 2-5 whole"),
        (";", "stray 0"),
        ("A;", "upper 0-1 stray 1"),
        ("A b ; c", "upper 0-1 ident 2-3 stray 4"),
        ("A \"b", "upper 0-1 stray 2"),
        ("# a\n#b\n ;", "comment 0-3 comment 4-6 stray 8"),
        ("9223372036854775807", "int 0-19 whole"),
        ("9223372036854775808", "past 0"),
        ("-9223372036854775808", "int 0-20 whole"),
        ("-9223372036854775809", "past 0"),
        ("A -9223372036854775809 ;", "upper 0-1 past 2"),
        ("# a\n9223372036854775808", "comment 0-3 past 4"),
        ("; 9223372036854775808", "stray 0"),
    ];
    for (text, expected) in cases {
        let text: &str = text;
        if text.len() < 1000 {
            let found = divided(rt.alloc(), text.as_bytes())?;
            assert_eq!(rt; found.as_str(), *expected, "{text}");
        }
    }
    let broken = divided(rt.alloc(), b"A # b\xff")?;
    assert_eq!(rt; broken.as_str(), "upper 0-1 comment 2-5 stray 5");
    Ok(())
}
