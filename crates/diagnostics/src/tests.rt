use crate::{line_of, ordered, summary};
use plain_data::{Many, NoMemory, Word};
use sig_model::diag::{Diag, DiagId};
use sig_model::place::Place;
use std::alloc::Global;

fn diag(alloc: Global, place: Place, id: DiagId, words: &[&str]) -> Result<Diag, NoMemory> {
    let mut args = Many::new(alloc);
    for word in words {
        args.push(Word::of(alloc, word)?)?;
    }
    Ok(Diag { place, id, args })
}

/// The diagnostics of a list in order: between one and the next a later key decides each time, against all keys behind it.
fn nth(alloc: Global, index: usize) -> Result<Diag, NoMemory> {
    let (file, start, end, id, words): (u32, u32, u32, DiagId, &[&str]) = match index {
        0 => (2, 7, 9, DiagId::UnknownTypeName, &["z"]),
        1 => (3, 4, 9, DiagId::UnknownTypeName, &["z"]),
        2 => (3, 5, 6, DiagId::UnknownTypeName, &["z"]),
        3 => (3, 5, 8, DiagId::DuplicatedDeclaration, &["z"]),
        4 => (3, 5, 8, DiagId::UnknownTypeName, &["a"]),
        5 => (3, 5, 8, DiagId::UnknownTypeName, &["a", "b"]),
        _ => (3, 5, 8, DiagId::UnknownTypeName, &["ab"]),
    };
    diag(alloc, Place { file, start, end }, id, words)
}

#[test]
fn a_list_is_ordered_by_each_key_and_has_no_repeats(rt: HostRuntime) -> Result<(), NoMemory> {
    let alloc = rt.alloc();
    let mut given = Many::new(alloc);
    for index in [6, 5, 3, 4, 3, 2, 1, 6, 0, 3] {
        given.push(nth(alloc, index)?)?;
    }
    let mut wanted = Many::new(alloc);
    for index in 0..7 {
        wanted.push(nth(alloc, index)?)?;
    }
    assert!(rt; ordered(given) == wanted);
    assert!(rt; ordered(Many::new(alloc)).is_empty());
    Ok(())
}

/// The line of a diagnostic that starts at a byte of a text, in the file `a.rb`.
fn line(
    alloc: Global,
    text: &str,
    start: u32,
    id: DiagId,
    words: &[&str],
) -> Result<Many<u8>, NoMemory> {
    let place = Place {
        file: 2,
        start,
        end: start,
    };
    let diag = diag(alloc, place, id, words)?;
    let mut out = Many::from_slice(alloc, b"> ")?;
    line_of(alloc, &diag, "a.rb", text.as_bytes(), &mut out)?;
    Ok(out)
}

#[test]
fn lines_of_diagnostics(rt: HostRuntime) -> Result<(), NoMemory> {
    let alloc = rt.alloc();
    let first = line(alloc, "1.foo", 2, DiagId::NoMethod, &["::Integer", "foo"])?;
    assert_eq!(rt;
        first.as_slice(),
        b"> a.rb:1:3: [Ruby::NoMethod] type ::Integer has no method foo\n".as_slice()
    );
    let behind_two_bytes = line(alloc, "ok\né.b\n", 6, DiagId::NoMethod, &["nil"])?;
    assert_eq!(rt;
        behind_two_bytes.as_slice(),
        b"> a.rb:2:4: [Ruby::NoMethod] type nil has no method \n".as_slice()
    );
    let past_the_end = line(alloc, "a\nbc", 100, DiagId::RubySyntaxError, &[])?;
    assert_eq!(rt;
        past_the_end.as_slice(),
        b"> a.rb:2:3: [Ruby::SyntaxError] the text is no program of the profile\n".as_slice()
    );
    Ok(())
}

#[test]
fn a_summary(rt: HostRuntime) -> Result<(), NoMemory> {
    let mut out = Many::from_slice(rt.alloc(), b"> ")?;
    summary(rt.alloc(), 2, 10, &mut out)?;
    assert_eq!(rt;
        out.as_slice(),
        b"> checked 2 files: 10 diagnostics\n".as_slice()
    );
    Ok(())
}
