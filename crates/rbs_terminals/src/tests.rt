ghost use Rattle.std.specs.Prelude.{◌<◌, ◌^◌, length};

use crate::{
    Gap, Keyword, Kind, Lead, Terminals, Token, all_terminals, base_of, keyword_of, keyword_text,
    lower_of,
};
use plain_data::{Many, Word};
use rbs_lexer::tokens;
use sig_model::ty::BaseTy;
use std::alloc::Global;
use std::process::Abort;
use std::test::Fail;

/// `~` where a token is joined, `_` behind blanks and `/` behind a newline.
fn gap_sign(gap: Gap) -> &'static str {
    match gap {
        Gap::Joined => "~",
        Gap::Blank => "_",
        Gap::Line => "/",
    }
}

fn kind_text(alloc: Global, kind: &Kind) -> Result<String, Fail> {
    let (name, word) = match kind {
        Kind::Mark(mark) => return Ok(format!(in alloc; "{mark:?}")?),
        Kind::Keyword(keyword) => return Ok(format!(in alloc; "keyword {keyword:?}")?),
        Kind::Integer(value) => return Ok(format!(in alloc; "integer {value}")?),
        Kind::Lower(word) => ("lower", word),
        Kind::Upper(word) => ("upper", word),
        Kind::Interface(word) => ("interface", word),
        Kind::Variable(word) => ("variable", word),
        Kind::Text(word) => ("text", word),
        Kind::Symbol(word) => ("symbol", word),
        Kind::Annotation(word) => ("annotation", word),
        Kind::PastInteger | Kind::Stray => return Ok(format!(in alloc; "none")?),
    };
    Ok(format!(in alloc; "{name} {}", word.as_str())?)
}

fn push_comments(all: &mut String, comments: &Many<Word>) -> Result<(), Fail> {
    for comment in comments.as_slice() {
        all.push_str(" #")?;
        all.push_str(comment.as_str())?;
    }
    Ok(())
}

/// The gap, the kind and the place of a token, and each of its comments behind a `#`.
fn token_text(alloc: Global, token: &Token) -> Result<String, Fail> {
    let spot = &token.spot;
    let kind = kind_text(alloc, &token.kind)?;
    let gap = gap_sign(spot.gap);
    let mut all = format!(in alloc; "{gap} {} {}-{}", kind.as_str(), spot.start, spot.end)?;
    push_comments(&mut all, &spot.comments)?;
    Ok(all)
}

/// The kind and the place of a terminal that leads a phrase, and each of its comments behind a `#`.
fn lead_text(alloc: Global, lead: &Lead) -> Result<String, Fail> {
    let kind = kind_text(alloc, &lead.kind)?;
    let mut all = format!(in alloc; "{} {}-{}", kind.as_str(), lead.start, lead.end)?;
    push_comments(&mut all, &lead.comments)?;
    Ok(all)
}

/// The gap and the sort of the next terminal, and where the one before it ends.
fn ahead_text(alloc: Global, rest: &Terminals) -> Result<String, Fail> {
    let (Some(gap), Some(sort), Some(before)) = (rest.gap(), rest.sort(), rest.before()) else {
        return Ok(format!(in alloc; "none")?);
    };
    let gap = gap_sign(gap);
    Ok(format!(in alloc; "{gap} {sort:?} {before}")?)
}

fn expect(rt: &impl Abort, alloc: Global, text: &str, expected: &[&str]) -> Result<(), Fail> {
    if text.len() < 1000 {
        let found = all_terminals(alloc, 3, text.as_bytes()).ok();
        let found = found.expect(rt, "terminals");
        assert_eq!(rt; found.len(), expected.len(), "{text}");
        let mut before = 0;
        for (token, expected) in found.as_slice().iter().zip(expected) {
            assert_eq!(rt; token.spot.before, before, "{text}");
            before = token.spot.end;
            let token = token_text(alloc, token)?;
            assert_eq!(rt; token.as_str(), *expected, "{text}");
        }
    }
    Ok(())
}

#[test]
fn each_kind_of_token(rt: HostRuntime) -> Result<(), Fail> {
    let alloc = rt.alloc();
    expect(
        &rt,
        alloc,
        "class Foo < _Bar\n@a: -12 | 007&-0\n\"a\\\"\\\\\\n\\tb\" ?:ok? %a{pure it} classy",
        &[
            "/ keyword Class 0-5",
            "_ upper Foo 6-9",
            "_ Less 10-11",
            "_ interface _Bar 12-16",
            "/ variable a 17-19",
            "~ Colon 19-20",
            "_ integer -12 21-24",
            "_ Bar 25-26",
            "_ integer 7 27-30",
            "~ Amp 30-31",
            "~ integer 0 31-33",
            "/ text a\"\\\n\tb 34-46",
            "_ Question 47-48",
            "~ symbol ok? 48-52",
            "_ annotation pure it 53-64",
            "_ lower classy 65-71",
        ],
    )?;
    expect(
        &rt,
        alloc,
        "-9223372036854775808 9223372036854775807 \"\" :[]= %a{} _",
        &[
            "/ integer -9223372036854775808 0-20",
            "_ integer 9223372036854775807 21-40",
            "_ text  41-43",
            "_ symbol []= 44-48",
            "_ annotation  49-53",
            "_ lower _ 54-55",
        ],
    )
}

#[test]
fn each_mark(rt: HostRuntime) -> Result<(), Fail> {
    expect(
        &rt,
        rt.alloc(),
        "< : :: , . @ [ ] ( ) { } | & ^ ? ! = * ** - -> > + / %",
        &[
            "/ Less 0-1",
            "_ Colon 2-3",
            "_ Scope 4-6",
            "_ Comma 7-8",
            "_ Dot 9-10",
            "_ At 11-12",
            "_ OpenSquare 13-14",
            "_ CloseSquare 15-16",
            "_ Open 17-18",
            "_ Close 19-20",
            "_ OpenBrace 21-22",
            "_ CloseBrace 23-24",
            "_ Bar 25-26",
            "_ Amp 27-28",
            "_ Caret 29-30",
            "_ Question 31-32",
            "_ Bang 33-34",
            "_ Equals 35-36",
            "_ Star 37-38",
            "_ DoubleStar 39-41",
            "_ Minus 42-43",
            "_ Arrow 44-46",
            "_ Greater 47-48",
            "_ Plus 49-50",
            "_ Slash 51-52",
            "_ Percent 53-54",
        ],
    )
}

#[test]
fn gaps(rt: HostRuntime) -> Result<(), Fail> {
    let alloc = rt.alloc();
    expect(&rt, alloc, "", &[])?;
    expect(&rt, alloc, " \t# nothing\n", &[])?;
    expect(
        &rt,
        alloc,
        " a b\tc\rd\ne\r\nf \"\n\"g # why\n h",
        &[
            "/ lower a 1-2",
            "_ lower b 3-4",
            "_ lower c 5-6",
            "_ lower d 7-8",
            "/ lower e 9-10",
            "/ lower f 12-13",
            "_ text \n 14-17",
            "~ lower g 17-18",
            "/ lower h 26-27",
        ],
    )
}

#[test]
fn carried_comments(rt: HostRuntime) -> Result<(), Fail> {
    let alloc = rt.alloc();
    // A run of lines is carried whole, also at the beginning of a text and with a carriage return at the end.
    expect(
        &rt,
        alloc,
        "# one\n  #two\r\n#\na b",
        &["/ lower a 16-17 # one #two\r #", "_ lower b 18-19"],
    )?;
    // An empty line, also one of blanks, breaks a run.
    expect(
        &rt,
        alloc,
        "# one\n\n# two\na\n# three\n \n# four\n# five\nb\n# six\n\nc",
        &[
            "/ lower a 13-14 # two",
            "/ lower b 39-40 # four # five",
            "/ lower c 48-49",
        ],
    )?;
    // A comment on the line of a token is carried by none, also on the last line of a string. It breaks a run.
    expect(
        &rt,
        alloc,
        "# one\na # two\n# three\nb # four\n\"\n\" # five\nc # six",
        &[
            "/ lower a 6-7 # one",
            "/ lower b 22-23 # three",
            "/ text \n 31-34",
            "/ lower c 42-43",
        ],
    )
}

/// The next terminal as it leads a phrase.
fn lead(rt: &impl Abort, alloc: Global, rest: &mut Terminals) -> Result<String, Fail> {
    let sort = rest.sort().expect(rt, "a sort");
    let lead = rest.lead(sort)?.expect(rt, "a lead");
    lead_text(alloc, &lead)
}

/// The next terminal as it is taken, and where it ends.
fn take(rt: &impl Abort, alloc: Global, rest: &mut Terminals) -> Result<String, Fail> {
    let sort = rest.sort().expect(rt, "a sort");
    let (kind, end) = rest.take(sort)?.expect(rt, "a terminal");
    let kind = kind_text(alloc, &kind)?;
    Ok(format!(in alloc; "{} -{end}", kind.as_str())?)
}

/// What is told of a terminal, and then what it is as it leads a phrase; so too of the next, which is taken, and of the one behind it,
/// which is passed.
fn expect_three(
    rt: &impl Abort,
    alloc: Global,
    text: &str,
    expected: &[&str; 5],
    end: u32,
) -> Result<(), Fail> {
    if text.len() < 1000 {
        let bytes = text.as_bytes();
        let Ok(tokens) = tokens(alloc, 3, bytes) else {
            panic!(rt; "no tokens: {text}");
        };
        let mut rest = Terminals::new(alloc, bytes, tokens.as_slice());
        assert_eq!(rt; ahead_text(alloc, &rest)?.as_str(), expected[0], "{text}");
        assert_eq!(rt; lead(rt, alloc, &mut rest)?.as_str(), expected[1], "{text}");
        assert_eq!(rt; ahead_text(alloc, &rest)?.as_str(), expected[2], "{text}");
        assert_eq!(rt; take(rt, alloc, &mut rest)?.as_str(), expected[3], "{text}");
        assert_eq!(rt; ahead_text(alloc, &rest)?.as_str(), expected[4], "{text}");
        assert!(rt; rest.pass() == Some(end), "{text}");
        assert_eq!(rt; ahead_text(alloc, &rest)?.as_str(), "none", "{text}");
    }
    Ok(())
}

#[test]
fn three_terminals(rt: HostRuntime) -> Result<(), Fail> {
    let alloc = rt.alloc();
    expect_three(
        &rt,
        alloc,
        "# one\n# two\nclass # three\n\n# four\nFoo::# five",
        &[
            "/ Keyword(Class) 0",
            "keyword Class 12-17 # one # two",
            "/ Upper 17",
            "upper Foo -37",
            "~ Mark(Scope) 37",
        ],
        39,
    )?;
    expect_three(
        &rt,
        alloc,
        " # six\n\nBar @a\n# seven\n\n :b",
        &[
            "/ Upper 0",
            "upper Bar 8-11",
            "_ Variable 11",
            "variable a -14",
            "/ Symbol 14",
        ],
        27,
    )
}

#[test]
fn keywords_and_names(rt: HostRuntime) -> Result<(), Fail> {
    let alloc = rt.alloc();
    for text in ["attr_accessor", "self", "in", "untyped"] {
        let keyword = keyword_of(text.as_bytes()).expect(&rt, "a keyword");
        assert_eq!(rt; keyword_text(keyword), text);
        let word = lower_of(alloc, Kind::Keyword(keyword))?;
        assert!(rt; word == Some(Word::of(alloc, text)?), "{text}");
    }
    for text in ["", "attr", "selfs", "if"] {
        assert!(rt; keyword_of(text.as_bytes()).is_none(), "{text}");
    }
    let word = lower_of(alloc, Kind::Lower(Word::of(alloc, "each")?))?;
    assert!(rt; word == Some(Word::of(alloc, "each")?));
    assert!(rt; lower_of(alloc, Kind::Upper(Word::of(alloc, "Each")?))?.is_none());
    assert!(rt; base_of(Keyword::SelfWord) == Some(BaseTy::SelfTy));
    assert!(rt; base_of(Keyword::Def).is_none());
    Ok(())
}
