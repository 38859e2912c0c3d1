use crate::{ParseRefused, parse, parse_type};
use plain_data::NoMemory;
use rbs_files::file_on;
use rbs_lexer::divide;
use rbs_terminals::Terminals;
use sig_model::place::Place;
use std::alloc::Global;
use std::test::Fail;

/// The most bytes that a text may have.
const LIMIT: usize = 1_048_576;

/// How many declarations a text spells.
fn count(alloc: Global, bytes: &[u8]) -> Result<usize, ParseRefused> {
    if bytes.len() > 2 * LIMIT {
        return Err(ParseRefused::NoMemory);
    }
    let divided = divide(alloc, 3, bytes)?;
    Ok(parse(alloc, 3, bytes, &divided)?.len())
}

/// How many declarations of a text are read phrase by phrase.
fn count_by_phrases(alloc: Global, bytes: &[u8]) -> Result<usize, ParseRefused> {
    if bytes.len() > LIMIT {
        return Err(ParseRefused::NoMemory);
    }
    let divided = divide(alloc, 3, bytes)?;
    let terminals = Terminals::new(alloc, bytes, divided.tokens.as_slice());
    match file_on(alloc, 3, terminals) {
        Ok(decls) => Ok(decls.len()),
        Err(_) => Err(ParseRefused::NoMemory),
    }
}

/// Why a text is refused as a type.
fn type_refusal(alloc: Global, bytes: &[u8]) -> Result<Option<ParseRefused>, NoMemory> {
    if bytes.len() > 2 * LIMIT {
        return Err(NoMemory);
    }
    let divided = divide(alloc, 3, bytes)?;
    Ok(parse_type(alloc, 3, bytes, &divided).err())
}

fn syntax(at: u32) -> ParseRefused {
    ParseRefused::Syntax(Place {
        file: 3,
        start: at,
        end: at,
    })
}

fn limit(at: u32) -> ParseRefused {
    ParseRefused::Limit(Place {
        file: 3,
        start: at,
        end: at,
    })
}

#[test]
fn declarations(rt: HostRuntime) -> Result<(), Fail> {
    for (text, outcome) in [
        ("", Ok(0)),
        ("# nothing\n", Ok(0)),
        ("class A end\n# c\nmodule B end", Ok(2)),
        ("class A end class", Err(syntax(17))),
        ("class A end end", Err(syntax(11))),
        ("class A end $", Err(syntax(11))),
        ("$", Err(syntax(0))),
        ("type a = 9223372036854775807", Ok(1)),
        ("type a = 9223372036854775808", Err(limit(8))),
        ("class 9223372036854775808 end", Err(syntax(5))),
    ] {
        assert_eq!(rt; count(rt.alloc(), text.as_bytes()), outcome, "{text}");
    }
    Ok(())
}

#[test]
fn each_production_is_read_by_phrases(rt: HostRuntime) -> Result<(), Fail> {
    for (text, number) in [
        ("", 0),
        (
            "class A end module B end interface _C end type d = A E: A",
            5,
        ),
        (
            "class A::B[unchecked out T < _C[T], in U < singleton(::A), V] < ::D[T] end",
            1,
        ),
        (
            "module A[T] : _B, C[T], ::D class E end module F end G: H type i = J end",
            1,
        ),
        (
            "# c\n%a{one} # d\n%a{two} class A\n# e\n%a{three} def a: -> B\nend",
            1,
        ),
        (
            "interface _A[T] def a?: (T) -> B def []=: () -> C include _D[T] end",
            1,
        ),
        (
            "class A def self.a!: () -> B def self: -> C def class?: -> D def +: -> E end",
            1,
        ),
        (
            "class A def a=: -> B def -@: -> C def <=>: -> D def []: -> E def ==: -> F end",
            1,
        ),
        (
            "class A private def a: -> B private\ndef b: -> C public attr_reader d: E end",
            1,
        ),
        (
            "class A attr_writer a: B attr_accessor self: B private end",
            1,
        ),
        (
            "class A include B[C] extend D prepend ::E alias a b alias c= [] alias d == end",
            1,
        ),
        (
            "class A alias a= == alias == a alias a=== alias A B @a: B self.@c: D end",
            1,
        ),
        (
            "class A def a: [T] (T) -> B | [T < C, U] () { (T) -> U } -> D | -> E end",
            1,
        ),
        (
            "class A def a: (B, ?C c, *D, E e, f: F, ?g: G, **H h) ?{ (I) -> J } -> K end",
            1,
        ),
        (
            "class A def a: (nil, b, ?c, **d) -> ^(A) -> B? def b: () -> ^-> ^() -> A?? end",
            1,
        ),
        (
            "type a = (A | B & C?)? | [] | [A] | [A, B[C, D]] | {} | { a: A, ?class: B }",
            1,
        ),
        (
            "type a = 1 | -1 | \"b\" | :c | nil | self | class | singleton(A::B) | ::C::d",
            1,
        ),
        (
            "type a = ^(A) { () -> B } -> C type b = _A | c | A::_B | (A)",
            2,
        ),
        ("type a = 9223372036854775807 A::B: C\n::D: E", 3),
    ] {
        let found = count_by_phrases(rt.alloc(), text.as_bytes());
        assert_eq!(rt; found, Ok(number), "{text}");
        assert_eq!(rt; count(rt.alloc(), text.as_bytes()), found, "{text}");
    }
    Ok(())
}

#[test]
fn types(rt: HostRuntime) -> Result<(), Fail> {
    for (text, refusal) in [
        ("A | nil", None),
        ("", Some(syntax(0))),
        ("A |", Some(syntax(3))),
        ("A B", Some(syntax(1))),
        ("A $", Some(syntax(1))),
        ("A | -9223372036854775808", None),
        ("A | -9223372036854775809", Some(limit(3))),
        ("A 9223372036854775808", Some(syntax(1))),
    ] {
        assert_eq!(rt;
            type_refusal(rt.alloc(), text.as_bytes())?,
            refusal,
            "{text}"
        );
    }
    Ok(())
}

#[test]
fn sizes(rt: HostRuntime) -> Result<(), Fail> {
    let alloc = rt.alloc();
    let blanks = vec![in alloc; b' '; LIMIT + 1]?;
    assert_eq!(rt; count(alloc, &blanks[1..]), Ok(0));
    assert_eq!(rt; count(alloc, blanks.as_slice()), Err(limit(0)));
    assert_eq!(rt; type_refusal(alloc, &blanks[1..])?, Some(syntax(0)));
    assert_eq!(rt; type_refusal(alloc, blanks.as_slice())?, Some(limit(0)));
    Ok(())
}
