use crate::{Status, tool};
use plain_data::{Many, NoMemory, Word};
use run_base::{MemFiles, MemSink, NamedBytes, OpenGate};
use std::alloc::Global;
use std::test::Fail;
use std::thread::Threads;

const SIGNATURE: &[u8] = b"class A\n  def f: () -> Integer\nend\n";

const MISFIT: &[u8] = b"class A\n  def f\n    \"a\"\n  end\nend\n";

const LIST: &[u8] =
    b"b.rb:2:3: [Ruby::MethodBodyTypeMismatch] ::String does not fit ::Integer\nchecked 2 files: 1 diagnostics\n";

fn check_words(alloc: Global) -> Result<Many<Word>, NoMemory> {
    let mut words = Many::new(alloc);
    words.push(Word::of(alloc, "steep")?)?;
    words.push(Word::of(alloc, "check")?)?;
    words.push(Word::of(alloc, "a.rbs")?)?;
    words.push(Word::of(alloc, "b.rb")?)?;
    Ok(words)
}

const CATS: &[u8] =
    b"class Cat\n  def initialize: (String) -> void\n  def name: () -> String\n  def meet: (Cat) -> Cat\nend\n";

const CALLS: &[u8] =
    b"class Cat\n  def initialize(n)\n    nil\n  end\n  def name\n    1\n  end\n  def meet(other)\n    other\n  end\nend\nc = Cat.new(\"Tom\")\nc.meet(1)\nc.fly\nc.meet\n";

const CALLS_LIST: &[u8] =
    b"b.rb:5:3: [Ruby::MethodBodyTypeMismatch] ::Integer does not fit ::String\nb.rb:13:3: [Ruby::ArgumentTypeMismatch] ::Integer does not fit ::Cat\nb.rb:14:3: [Ruby::NoMethod] type ::Cat has no method fly\nb.rb:15:3: [Ruby::InsufficientPositionalArguments] wrong number of arguments for meet\nchecked 2 files: 4 diagnostics\n";

fn two_files(alloc: Global, ruby: &[u8]) -> Result<Many<NamedBytes>, NoMemory> {
    files_of(alloc, SIGNATURE, ruby)
}

fn files_of(alloc: Global, signature: &[u8], ruby: &[u8]) -> Result<Many<NamedBytes>, NoMemory> {
    let mut files = Many::new(alloc);
    files.push(NamedBytes {
        name: Word::of(alloc, "a.rbs")?,
        bytes: Many::from_slice(alloc, signature)?,
    })?;
    files.push(NamedBytes {
        name: Word::of(alloc, "b.rb")?,
        bytes: Many::from_slice(alloc, ruby)?,
    })?;
    Ok(files)
}

#[test]
fn a_body_that_does_not_fit_is_listed(rt: HostRuntime) -> Result<(), Fail> {
    let alloc = rt.alloc();
    let mut files = MemFiles::new(two_files(alloc, MISFIT)?, Many::new(alloc));
    let mut out = MemSink::new(alloc, 1000, Many::new(alloc), 1000)?;
    let mut err = MemSink::new(alloc, 1000, Many::new(alloc), 1000)?;
    let words = check_words(alloc)?;
    let status = tool(
        &rt, alloc, &words, &mut files, &mut out, &mut err, &OpenGate,
    )?;
    assert_eq!(rt; status, Status::Listed);
    assert_eq!(rt; out.bytes(), LIST);
    assert_eq!(rt; err.bytes(), b"".as_slice());
    Ok(())
}

#[test]
fn each_failing_read_is_answered(rt: HostRuntime) -> Result<(), Fail> {
    let alloc = rt.alloc();
    for call in 1..7u64 {
        let fails = Many::from_slice(alloc, &[call])?;
        let mut files = MemFiles::new(two_files(alloc, MISFIT)?, fails);
        let mut out = MemSink::new(alloc, 1000, Many::new(alloc), 1000)?;
        let mut err = MemSink::new(alloc, 1000, Many::new(alloc), 1000)?;
        let words = check_words(alloc)?;
        let status = tool(
            &rt, alloc, &words, &mut files, &mut out, &mut err, &OpenGate,
        )?;
        assert_eq!(rt; status, Status::ReadFault);
        assert_eq!(rt; out.bytes(), b"".as_slice());
        assert_eq!(rt; err.bytes(), b"read fault\n".as_slice());
    }
    Ok(())
}

#[test]
fn each_failing_write_leaves_a_front(rt: HostRuntime) -> Result<(), Fail> {
    let alloc = rt.alloc();
    let words = check_words(alloc)?;
    for call in 1..16u64 {
        let mut files = MemFiles::new(two_files(alloc, MISFIT)?, Many::new(alloc));
        let fails = Many::from_slice(alloc, &[call])?;
        let mut out = MemSink::new(alloc, 1000, fails, 7)?;
        let mut err = MemSink::new(alloc, 1000, Many::new(alloc), 1000)?;
        let status = tool(
            &rt, alloc, &words, &mut files, &mut out, &mut err, &OpenGate,
        )?;
        let written = (call as usize - 1) * 7;
        assert_eq!(rt; status, Status::WriteFault);
        assert_eq!(rt; Some(out.bytes()), LIST.get(..written));
        assert_eq!(rt; err.bytes(), b"".as_slice());
    }
    Ok(())
}

#[test]
fn each_failing_write_of_an_error_leaves_a_front(rt: HostRuntime) -> Result<(), Fail> {
    let alloc = rt.alloc();
    let words = Many::new(alloc);
    for call in 1..4u64 {
        let mut files = MemFiles::new(Many::new(alloc), Many::new(alloc));
        let fails = Many::from_slice(alloc, &[call])?;
        let mut out = MemSink::new(alloc, 1000, Many::new(alloc), 1000)?;
        let mut err = MemSink::new(alloc, 1000, fails, 7)?;
        let status = tool(
            &rt, alloc, &words, &mut files, &mut out, &mut err, &OpenGate,
        )?;
        let written = (call as usize - 1) * 7;
        assert_eq!(rt; status, Status::WriteFault);
        assert_eq!(rt; out.bytes(), b"".as_slice());
        assert_eq!(rt; Some(err.bytes()), b"usage: command\n".get(..written));
    }
    Ok(())
}

#[test]
fn calls_that_are_refused_are_listed(rt: HostRuntime) -> Result<(), Fail> {
    let alloc = rt.alloc();
    let mut files = MemFiles::new(files_of(alloc, CATS, CALLS)?, Many::new(alloc));
    let mut out = MemSink::new(alloc, 1000, Many::new(alloc), 1000)?;
    let mut err = MemSink::new(alloc, 1000, Many::new(alloc), 1000)?;
    let words = check_words(alloc)?;
    let status = tool(
        &rt, alloc, &words, &mut files, &mut out, &mut err, &OpenGate,
    )?;
    assert_eq!(rt; status, Status::Listed);
    assert_eq!(rt; out.bytes(), CALLS_LIST);
    assert_eq!(rt; err.bytes(), b"".as_slice());
    Ok(())
}

#[test]
fn a_failing_write_leaves_a_front_of_several_lines(rt: HostRuntime) -> Result<(), Fail> {
    let alloc = rt.alloc();
    let mut files = MemFiles::new(files_of(alloc, CATS, CALLS)?, Many::new(alloc));
    let mut out = MemSink::new(alloc, 1000, Many::from_slice(alloc, &[2])?, 7)?;
    let mut err = MemSink::new(alloc, 1000, Many::new(alloc), 1000)?;
    let words = check_words(alloc)?;
    let status = tool(
        &rt, alloc, &words, &mut files, &mut out, &mut err, &OpenGate,
    )?;
    assert_eq!(rt; status, Status::WriteFault);
    assert_eq!(rt; out.bytes(), b"b.rb:5:".as_slice());
    Ok(())
}

#[test]
fn the_codes_of_the_statuses(rt: HostRuntime) -> Result<(), Fail> {
    assert_eq!(rt; Status::Done.code(), 0);
    assert_eq!(rt; Status::GoesOn.code(), 6);
    Ok(())
}

/// Checks a signature file and a Ruby file of so many newlines.
fn newlines<R: Threads + Sync>(
    rt: &R,
    alloc: Global,
    signature: usize,
    ruby: usize,
) -> Result<MemSink, Fail> {
    let mut named = Many::new(alloc);
    named.push(NamedBytes {
        name: Word::of(alloc, "a.rbs")?,
        bytes: Many::from_vec(Vec::from_elem(alloc, b'\n', signature)?),
    })?;
    named.push(NamedBytes {
        name: Word::of(alloc, "b.rb")?,
        bytes: Many::from_vec(Vec::from_elem(alloc, b'\n', ruby)?),
    })?;
    let mut files = MemFiles::new(named, Many::new(alloc));
    let mut out = MemSink::new(alloc, 1000, Many::new(alloc), 1000)?;
    let mut err = MemSink::new(alloc, 1000, Many::new(alloc), 1000)?;
    let words = check_words(alloc)?;
    tool(rt, alloc, &words, &mut files, &mut out, &mut err, &OpenGate)?;
    Ok(out)
}

#[test]
fn files_of_the_greatest_size_and_one_byte_more(rt: HostRuntime) -> Result<(), Fail> {
    let alloc = rt.alloc();
    let most = newlines(&rt, alloc, 1_048_576, 1_048_576)?;
    assert_eq!(rt;
        most.bytes(),
        b"checked 2 files: 0 diagnostics\n".as_slice()
    );
    let signature = newlines(&rt, alloc, 1_048_577, 1_048_577)?;
    assert_eq!(rt;
        signature.bytes(),
        b"a.rbs:1:1: [Strict::Limit] the text is past a limit\nchecked 2 files: 1 diagnostics\n".as_slice()
    );
    let ruby = newlines(&rt, alloc, 0, 1_048_577)?;
    assert_eq!(rt;
        ruby.bytes(),
        b"b.rb:1:1: [Strict::Limit] the text is past a limit\nchecked 2 files: 1 diagnostics\n".as_slice()
    );
    Ok(())
}
