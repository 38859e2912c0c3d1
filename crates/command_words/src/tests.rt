use crate::{MOST_FILES, are_files, read_files};
use plain_data::{Many, NoMemory, Word};
use std::alloc::Global;

fn words_of(alloc: Global, texts: &[&str]) -> Result<Many<Word>, NoMemory> {
    let mut words = Many::new(alloc);
    for text in texts {
        words.push(Word::of(alloc, text)?)?;
    }
    Ok(words)
}

fn numbered(alloc: Global, count: usize) -> Result<Many<Word>, NoMemory> {
    let mut words = Many::new(alloc);
    for number in 0..count {
        let name = format!(in alloc; "{number}.rbs")?;
        words.push(Word::of(alloc, name.as_str())?)?;
    }
    Ok(words)
}

#[test]
fn reads_the_files(rt: HostRuntime) -> Result<(), NoMemory> {
    let alloc = rt.alloc();
    let cases: [(&[&str], Option<&[&str]>); 17] = [
        (&[], None),
        (&["-"], None),
        (&["--"], None),
        (&["--", "--"], Some(&["--"])),
        (&["--", "-x", "-"], Some(&["-x", "-"])),
        (&["a", "-x"], None),
        (&["a", "-"], None),
        (&["a", "--"], Some(&["a"])),
        (
            &["a", "--", "b", "--", "--help"],
            Some(&["a", "b", "--", "--help"]),
        ),
        (&["-h"], None),
        (&["--help"], None),
        (&["help", "a"], Some(&["help", "a"])),
        (&["-V"], None),
        (&[""], Some(&[""])),
        (
            &["a\0b", "c\nd", "\u{e9}="],
            Some(&["a\0b", "c\nd", "\u{e9}="]),
        ),
        (&["-\u{e9}"], None),
        (&["--file=a"], None),
    ];
    for (words, files) in cases {
        let words = words_of(alloc, words)?;
        let read = read_files(alloc, words.as_slice())?;
        let files = match files {
            Some(files) => Some(words_of(alloc, files)?),
            None => None,
        };
        assert_eq!(rt; read, files);
    }
    Ok(())
}

#[test]
fn reads_many_files(rt: HostRuntime) -> Result<(), NoMemory> {
    let alloc = rt.alloc();
    let words = numbered(alloc, 5_000)?;
    assert_eq!(rt; read_files(alloc, words.as_slice())?, Some(words));
    Ok(())
}

#[test]
fn takes_files(rt: HostRuntime) -> Result<(), NoMemory> {
    let alloc = rt.alloc();
    let cases: [(&[&str], bool); 6] = [
        (&[], true),
        (&["a.rbs", ".rbs"], true),
        (&["a.rbs", "a.rb"], false),
        (&["a.rbs", "b.rbs", "a.rbs"], false),
        (&["a.RBS"], false),
        (&[""], false),
    ];
    for (files, taken) in cases {
        let files = words_of(alloc, files)?;
        assert_eq!(rt; are_files(alloc, files.as_slice(), ".rbs")?, taken);
    }
    Ok(())
}

#[test]
fn takes_so_many_files(rt: HostRuntime) -> Result<(), NoMemory> {
    let alloc = rt.alloc();
    let files = numbered(alloc, MOST_FILES)?;
    assert!(rt; are_files(alloc, files.as_slice(), ".rbs")?);
    let files = numbered(alloc, MOST_FILES + 1)?;
    assert!(rt; !are_files(alloc, files.as_slice(), ".rbs")?);
    Ok(())
}
