ghost use Rattle.std.specs.Prelude.{◌<◌, ◌^◌, length};

use crate::{Kind, tokens};
use std::alloc::Global;
use std::test::Fail;

/// The tokens of a text with their places, or `None`.
fn shown(alloc: Global, text: &[u8]) -> Result<Option<String>, Fail>
    requires { length text.now < 2 ^ 32 }
{
    let Some(tokens) = tokens(alloc, text)? else {
        return Ok(None);
    };
    let mut shown = String::new(alloc);
    for token in tokens.as_slice() {
        let kind = match &token.kind {
            Kind::Class => format!(in alloc; "class")?,
            Kind::Def => format!(in alloc; "def")?,
            Kind::End => format!(in alloc; "end")?,
            Kind::Nil => format!(in alloc; "nil")?,
            Kind::Upper(word) => format!(in alloc; "upper {}", word.as_str())?,
            Kind::Name(word) => format!(in alloc; "name {}", word.as_str())?,
            Kind::Other => format!(in alloc; "other")?,
            Kind::Integer(value) => format!(in alloc; "{}", *value)?,
            Kind::Text(word) => format!(in alloc; "text {}", word.as_str())?,
            Kind::Symbol(word) => format!(in alloc; "symbol {}", word.as_str())?,
            Kind::Open => format!(in alloc; "(")?,
            Kind::Close => format!(in alloc; ")")?,
            Kind::Comma => format!(in alloc; ",")?,
            Kind::Dot => format!(in alloc; ".")?,
            Kind::LeadingDot => format!(in alloc; "leading .")?,
            Kind::Equals => format!(in alloc; "=")?,
            Kind::Semicolon => format!(in alloc; ";")?,
            Kind::Newline => format!(in alloc; "newline")?,
            Kind::TypeNote => format!(in alloc; "note")?,
        };
        let place = format!(in alloc; "{} {}-{}, ", kind.as_str(), token.start, token.end)?;
        shown.push_str(place.as_str())?;
    }
    Ok(Some(shown))
}

#[test]
fn each_kind(rt: HostRuntime) -> Result<(), Fail> {
    let alloc = rt.alloc();
    let text =
        "class A # @type var x: T\n\t# @type var x: T\n# @type x\ndef f(x)\n nil; if\n'a' \"\u{e9}\\n\" :ok -12\nend";
    let expected =
        "class 0-5, upper A 6-7, newline 24-25, note 26-42, newline 42-43, newline 52-53, def 53-56, name f 57-58, ( 58-59, name x 59-60, ) 60-61, newline 61-62, nil 63-66, ; 66-67, other 68-70, newline 70-71, text a 71-74, text \u{e9}\n 75-81, symbol ok 82-85, -12 86-89, newline 89-90, end 90-93, ";
    assert_eq!(rt;
        shown(alloc, text.as_bytes())?.ok_or("none")?.as_str(),
        expected
    );
    Ok(())
}

#[test]
fn refused(rt: HostRuntime) -> Result<(), Fail> {
    let alloc = rt.alloc();
    let texts: [&str; 20] = [
        r#""\q""#,
        "\"#{x}\"",
        "\"##{x}\"",
        "'a",
        "\"a",
        "00",
        "0x1",
        "1_",
        "1__0",
        "_1 1_a",
        "9223372036854775808",
        "-9223372036854775809",
        "- 1",
        "$x",
        "`",
        ":\"a\"",
        ":_Foo",
        ":a==1",
        ":",
        "a + b",
    ];
    for text in texts {
        if text.len() < 100 {
            assert!(rt; tokens(alloc, text.as_bytes())?.is_none(), "{text}");
        }
    }
    assert!(rt; tokens(alloc, b"a \xff")?.is_none());
    Ok(())
}

#[test]
fn found(rt: HostRuntime) -> Result<(), Fail> {
    let alloc = rt.alloc();
    let texts: [(&str, &str); 22] = [
        ("9223372036854775807", "9223372036854775807 0-19, "),
        ("-9223372036854775808", "-9223372036854775808 0-20, "),
        ("9_0", "90 0-3, "),
        ("-0", "0 0-2, "),
        ("\"#@a\"", "text #@a 0-5, "),
        ("\"\\t\\\"\\\\\\#{\"", "text \t\"\\#{ 0-11, "),
        (r"'\q\'\\'", "text \\q'\\ 0-8, "),
        (":a=", "symbol a= 0-3, "),
        (":[]=", "symbol []= 0-4, "),
        (":<=>", "symbol <=> 0-4, "),
        (":end", "symbol end 0-4, "),
        (":a?", "symbol a? 0-3, "),
        (":_", "symbol _ 0-2, "),
        (":_a", "symbol _a 0-3, "),
        ("1end", "1 0-1, end 1-4, "),
        ("0y", "0 0-1, name y 1-2, "),
        ("a # b", "name a 0-1, "),
        ("'a\n\u{e9}'", "text a\n\u{e9} 0-6, "),
        ("a\u{e9}b", "name a\u{e9}b 0-4, "),
        ("a,\n:b", "name a 0-1, , 1-2, newline 2-3, symbol b 3-5, "),
        ("x==-1", "name x 0-1, = 1-2, = 2-3, -1 3-5, "),
        ("", ""),
    ];
    for (text, expected) in texts {
        if text.len() < 100 {
            assert_eq!(rt;
                shown(alloc, text.as_bytes())?.ok_or("none")?.as_str(),
                expected
            );
        }
    }
    Ok(())
}

#[test]
fn dots(rt: HostRuntime) -> Result<(), Fail> {
    let alloc = rt.alloc();
    let texts: [(&str, &str); 15] = [
        ("a.b", "name a 0-1, . 1-2, name b 2-3, "),
        ("1.5", "1 0-1, . 1-2, 5 2-3, "),
        ("1..2", "1 0-1, . 1-2, . 2-3, 2 3-4, "),
        (":a.b", "symbol a 0-2, . 2-3, name b 3-4, "),
        ("a.\nb", "name a 0-1, . 1-2, newline 2-3, name b 3-4, "),
        (".f", ". 0-1, name f 1-2, "),
        ("\n.f", "newline 0-1, . 1-2, name f 2-3, "),
        ("# n\n.f", "newline 3-4, . 4-5, name f 5-6, "),
        (
            "# @type var x: T\n.f",
            "note 0-16, newline 16-17, . 17-18, name f 18-19, ",
        ),
        (
            "c\n\n.f",
            "name c 0-1, newline 1-2, newline 2-3, . 3-4, name f 4-5, ",
        ),
        (
            "c\n \t\n.f",
            "name c 0-1, newline 1-2, newline 4-5, . 5-6, name f 6-7, ",
        ),
        (
            "c\n\r\n.f",
            "name c 0-1, newline 1-2, newline 3-4, . 4-5, name f 5-6, ",
        ),
        (
            "c\n\n# n\n.f",
            "name c 0-1, newline 1-2, newline 2-3, newline 6-7, . 7-8, name f 8-9, ",
        ),
        (
            "c\n# n\n\n.f",
            "name c 0-1, newline 1-2, newline 5-6, newline 6-7, . 7-8, name f 8-9, ",
        ),
        (
            "c # n\nd .f",
            "name c 0-1, newline 5-6, name d 6-7, . 8-9, name f 9-10, ",
        ),
    ];
    for (text, expected) in texts {
        if text.len() < 100 {
            assert_eq!(rt;
                shown(alloc, text.as_bytes())?.ok_or("none")?.as_str(),
                expected
            );
        }
    }
    Ok(())
}

#[test]
fn leading_dots(rt: HostRuntime) -> Result<(), Fail> {
    let alloc = rt.alloc();
    let texts: [(&str, &str); 9] = [
        (
            "c\n.f",
            "name c 0-1, newline 1-2, leading . 2-3, name f 3-4, ",
        ),
        (
            "c # n\n \t# m\n  .f",
            "name c 0-1, newline 5-6, newline 11-12, leading . 14-15, name f 15-16, ",
        ),
        (
            "c\n# @type var x: T\n.f",
            "name c 0-1, newline 1-2, note 2-18, newline 18-19, leading . 19-20, name f 20-21, ",
        ),
        (
            "c\r\n\r.f",
            "name c 0-1, newline 2-3, leading . 4-5, name f 5-6, ",
        ),
        (
            "c\r\n# n\r\n.f",
            "name c 0-1, newline 2-3, newline 7-8, leading . 8-9, name f 9-10, ",
        ),
        (
            "c\n..f",
            "name c 0-1, newline 1-2, leading . 2-3, . 3-4, name f 4-5, ",
        ),
        (
            "c\n.f\n.g",
            "name c 0-1, newline 1-2, leading . 2-3, name f 3-4, newline 4-5, leading . 5-6, name g 6-7, ",
        ),
        (
            "'a\n\n'\n.f",
            "text a\n\n 0-5, newline 5-6, leading . 6-7, name f 7-8, ",
        ),
        (
            "\nc\n.f",
            "newline 0-1, name c 1-2, newline 2-3, leading . 3-4, name f 4-5, ",
        ),
    ];
    for (text, expected) in texts {
        if text.len() < 100 {
            assert_eq!(rt;
                shown(alloc, text.as_bytes())?.ok_or("none")?.as_str(),
                expected
            );
        }
    }
    Ok(())
}
