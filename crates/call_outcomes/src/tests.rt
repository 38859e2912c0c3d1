use crate::{Loaded, Status, listed, load, missing, read_fault, usage};
use plain_data::{Many, Word};
use run_base::{CalmFiles, NamedBytes};
use std::test::Fail;

#[test]
fn a_file_of_the_greatest_size_and_one_byte_more(rt: HostRuntime) -> Result<(), Fail> {
    let alloc = rt.alloc();
    let name = Word::of(alloc, "a.rbs")?;
    for (size, is_kept) in [(1_048_576, true), (1_048_577, false)] {
        let mut named = Many::new(alloc);
        named.push(NamedBytes {
            name: name.clone()?,
            bytes: Many::from_vec(Vec::from_elem(alloc, b' ', size)?),
        })?;
        let mut files = CalmFiles::new(named);
        let kept = match load(alloc, &mut files, &name) {
            Ok(Loaded::Text(text)) => text.len() == size,
            _ => false,
        };
        assert_eq!(rt; kept, is_kept);
    }
    Ok(())
}

#[test]
fn the_texts_of_one_line(rt: HostRuntime) -> Result<(), Fail> {
    let alloc = rt.alloc();
    assert_eq!(rt;
        usage(alloc, "words")?.err.as_slice(),
        b"usage: words\n".as_slice()
    );
    let name = Word::of(alloc, "a.rbs")?;
    assert_eq!(rt;
        missing(alloc, &name)?.err.as_slice(),
        b"missing file: a.rbs\n".as_slice()
    );
    assert_eq!(rt;
        read_fault(alloc)?.err.as_slice(),
        b"read fault\n".as_slice()
    );
    let none = listed(alloc, &[], &[])?;
    assert_eq!(rt;
        none.out.as_slice(),
        b"checked 0 files: 0 diagnostics\n".as_slice()
    );
    assert_eq!(rt; none.status, Status::Done);
    Ok(())
}
