use crate::print_files;
use call_outcomes::{Outcome, Status};
use plain_data::{Many, NoMemory, Word};
use run_base::{CalmFiles, NamedBytes};
use std::alloc::Global;
use std::test::Fail;

/// The most bytes of a file.
const LIMIT: usize = 1_048_576;

/// The name of the file with this number.
fn name_of(alloc: Global, number: usize) -> Result<Word, NoMemory> {
    let mut name = Word::of(alloc, number.to_string(alloc)?.as_str())?;
    name.push_str(".rbs")?;
    Ok(name)
}

/// Prints files of so many blanks.
fn print_blanks(alloc: Global, sizes: &[usize]) -> Result<Outcome, Fail> {
    let mut words = Many::new(alloc);
    let mut named = Many::new(alloc);
    for (number, size) in sizes.iter().enumerate() {
        words.push(name_of(alloc, number)?)?;
        named.push(NamedBytes {
            name: name_of(alloc, number)?,
            bytes: Many::from_vec(Vec::from_elem(alloc, b' ', *size)?),
        })?;
    }
    let mut files = CalmFiles::new(named);
    match print_files(alloc, words.as_slice(), &mut files) {
        Ok(outcome) => Ok(outcome),
        Err(_) => Err(Fail::from(NoMemory)),
    }
}

#[test]
fn files_of_the_greatest_size_and_one_byte_more(rt: HostRuntime) -> Result<(), Fail> {
    let alloc = rt.alloc();
    let most = print_blanks(alloc, &[LIMIT])?;
    assert_eq!(rt; most.status, Status::Done);
    assert_eq!(rt; most.out.as_slice(), b"".as_slice());
    let past = print_blanks(alloc, &[0, LIMIT + 1])?;
    assert_eq!(rt; past.status, Status::Listed);
    assert_eq!(rt;
        past.out.as_slice(),
        b"1.rbs:1:1: [Strict::Limit] the text is past a limit\nchecked 2 files: 1 diagnostics\n".as_slice()
    );
    Ok(())
}

#[test]
fn as_many_bytes_as_all_files_may_have_and_one_more(rt: HostRuntime) -> Result<(), Fail> {
    let alloc = rt.alloc();
    let mut sizes = [LIMIT; 17];
    sizes[0] = LIMIT + 9;
    sizes[16] = 0;
    let most = print_blanks(alloc, &sizes)?;
    assert_eq!(rt; most.status, Status::Listed);
    sizes[16] = 1;
    let past = print_blanks(alloc, &sizes)?;
    assert_eq!(rt; past.status, Status::Usage);
    assert_eq!(rt; past.out.as_slice(), b"".as_slice());
    assert_eq!(rt; past.err.as_slice(), b"usage: files\n".as_slice());
    Ok(())
}
