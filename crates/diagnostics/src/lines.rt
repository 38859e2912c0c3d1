//! The lines of a list, and its summary.

ghost use Rattle.std.specs.Prelude.{◌≡◌, ◌++◌, ◌<◌, ◌^◌, ◌-◌, IfOk, OnOk, OnErr, length, codes};
ghost use Rattle.std.specs.Fmt.{decimal};
ghost use Rattle.std.specs.Prelude.{IfSome, slice_get, ◌+◌, ◌==◌, count_by};
ghost use Rattle.source_text.specs.Lines.{IsCursor, line_at, column_at, since_newline};
ghost use Rattle.diagnostics.specs.Lines.{argument, message, line_in, line_text, line_of, lines_of, summary, AllSmall, IsReached};

use crate::texts::{id_text, middle_text, opening_text};
use bstr::ByteSlice;
use plain_data::{Many, NoMemory, Word};
use sig_model::diag::Diag;
use source_text::{Cursor, move_to};
use std::alloc::Global;

/// A file of a call: its name, and its bytes.
#[derive(Debug, Drop)]
pub struct Source {
    pub name: Word,
    pub text: Many<u8>,
}

/// Adds a number in decimal digits.
fn add_number(alloc: Global, out: &mut Many<u8>, number: u64) -> Result<(), NoMemory>
    ensures { OnOk result (out.new ≡ out.old ++ decimal number) }
{
    let digits = number.to_string(alloc)?;
    out.extend(digits.as_bytes())
}

/// Adds an argument of a diagnostic, where it is there.
fn add_argument(out: &mut Many<u8>, diag: &Diag, index: usize) -> Result<(), NoMemory>
    ensures { OnOk result (out.new ≡ out.old ++ argument diag.now.args index) }
{
    match diag.args.get(index) {
        Some(word) => out.extend(word.as_bytes()),
        None => Ok(()),
    }
}

/// The text of a diagnostic.
fn message(alloc: Global, diag: &Diag) -> Result<Many<u8>, NoMemory>
    ensures { IfOk result (λ text. text ≡ message diag.now) }
{
    let mut text = Many::from_slice(alloc, opening_text(diag.id).as_bytes())?;
    add_argument(&mut text, diag, 0)?;
    text.extend(middle_text(diag.id).as_bytes())?;
    add_argument(&mut text, diag, 1)?;
    Ok(text)
}

/// The line of a diagnostic, in a file of this name, at this line and column.
fn line_text(
    alloc: Global,
    name: &str,
    line: u64,
    column: u64,
    diag: &Diag,
) -> Result<Many<u8>, NoMemory>
    ensures { IfOk result (λ text. text ≡ line_text name.now line column diag.now) }
{
    let mut text = Many::from_slice(alloc, name.as_bytes())?;
    text.extend(b":")?;
    add_number(alloc, &mut text, line)?;
    text.extend(b":")?;
    add_number(alloc, &mut text, column)?;
    text.extend(b": [")?;
    text.extend(id_text(diag.id).as_bytes())?;
    text.extend(b"] ")?;
    text.extend(message(alloc, diag)?.as_slice())?;
    text.extend(b"\n")?;
    Ok(text)
}

/// The line on which these bytes end, counted from 1.
fn line_after(before: &[u8]) -> u64
    ensures { result ≡ count_by (λ b. b == 10) before.now + 1 }
{
    before.find_iter(b"\n").count() as u64 + 1
}

/// The column at which these bytes end, in bytes from 1.
fn column_after(before: &[u8]) -> u64
    ensures { result ≡ since_newline 0 before.now + 1 }
{
    match before.rfind_byte(b'\n') {
        Some(newline) => (before.len() - newline) as u64,
        None => before.len() as u64 + 1,
    }
}

/// Adds the line of a diagnostic in a file of this name and text: `FILE:LINE:COL: [ID] TEXT` and a newline.
///
/// Lines and columns count from 1, columns in bytes. An argument that is missing is empty, and a start behind the
/// text's end counts as that end. It costs the bytes before the start; `add_lines` reads on from line to line.
///
/// # Errors
///
/// `NoMemory` where there is none for the line; `out` is as before then.
pub fn line_of(
    alloc: Global,
    diag: &Diag,
    name: &str,
    text: &[u8],
    out: &mut Many<u8>,
) -> Result<(), NoMemory>
    ensures ok { OnOk result (out.new ≡ out.old ++ line_in name.now text.now diag.now) }
    ensures err { OnErr result (out.new ≡ out.old) }
{
    let start = text.len().min(diag.place.start as usize);
    let before = &text[..start];
    let line = line_text(alloc, name, line_after(before), column_after(before), diag)?;
    out.extend(line.as_slice())
}

/// A file's place among the sources, and a place in its text.
#[derive(Clone, Copy, Debug)]
pub struct Reached {
    pub file: usize,
    pub cursor: Cursor,
}

/// Where to begin in the text of the source at `file`, from what was reached before.
fn start_in(sources: &[Source], from: Reached, file: usize) -> Cursor
    requires { IsReached sources.now from }
    ensures { IfSome (slice_get sources.now file) (λ s. IsCursor s.text result) }
{
    if file == from.file {
        from.cursor
    } else {
        Cursor::START
    }
}

/// Adds the line of a diagnostic in its file, and says what was reached there.
fn add_line(
    alloc: Global,
    sources: &[Source],
    from: Reached,
    diag: &Diag,
    out: &mut Many<u8>,
) -> Result<Reached, NoMemory>
    requires small { AllSmall sources.now }
    requires reached { IsReached sources.now from }
    ensures line { OnOk result (out.new ≡ out.old ++ line_of sources.now diag.now) }
    ensures reached { IfOk result (IsReached sources.now) }
{
    if diag.place.file < 2 {
        return Ok(from);
    }
    let file = diag.place.file as usize - 2;
    if file >= sources.len() {
        return Ok(from);
    }
    let start = start_in(sources, from, file);
    let cursor = move_to(
        sources[file].text.as_slice(),
        start,
        diag.place.start as usize,
    );
    let name = sources[file].name.as_str();
    let line = u64::from(cursor.line);
    let column = u64::from(cursor.column);
    let text = line_text(alloc, name, line, column, diag)?;
    out.extend(text.as_slice())?;
    Ok(Reached { file, cursor })
}

/// Adds the lines of a list. The sources are the files of the call, of which the first has the number 2.
///
/// A diagnostic of any other file has no line.
pub fn add_lines(
    alloc: Global,
    sources: &[Source],
    list: &[Diag],
    out: &mut Many<u8>,
) -> Result<(), NoMemory>
    requires { AllSmall sources.now }
    ensures { OnOk result (out.new ≡ out.old ++ lines_of sources.now list.now) }
{
    let mut reached = Reached {
        file: 0,
        cursor: Cursor::START,
    };
    for diag in list {
        reached = add_line(alloc, sources, reached, diag, out)?;
    }
    Ok(())
}

/// The summary of a list of so many diagnostics over so many files.
fn summary_text(alloc: Global, files: u64, count: u64) -> Result<Many<u8>, NoMemory>
    ensures { IfOk result (λ text. text ≡ summary files count) }
{
    let mut line = Many::from_slice(alloc, b"checked ")?;
    add_number(alloc, &mut line, files)?;
    line.extend(b" files: ")?;
    add_number(alloc, &mut line, count)?;
    line.extend(b" diagnostics")?;
    line.extend(b"\n")?;
    Ok(line)
}

/// Adds the summary of a list of so many diagnostics over so many files: `checked N files: M diagnostics` and a newline.
///
/// # Errors
///
/// `NoMemory` where there is none for it; `out` is as before then.
pub fn summary(alloc: Global, files: u32, count: u64, out: &mut Many<u8>) -> Result<(), NoMemory>
    ensures ok { OnOk result (out.new ≡ out.old ++ summary files count) }
    ensures err { OnErr result (out.new ≡ out.old) }
{
    add_summary(alloc, u64::from(files), count, out)
}

/// Adds the summary of a list of so many diagnostics over so many files, which may be more than `summary` takes.
///
/// # Errors
///
/// `NoMemory` where there is none for it; `out` is as before then.
pub fn add_summary(
    alloc: Global,
    files: u64,
    count: u64,
    out: &mut Many<u8>,
) -> Result<(), NoMemory>
    ensures ok { OnOk result (out.new ≡ out.old ++ summary files count) }
    ensures err { OnErr result (out.new ≡ out.old) }
{
    let text = summary_text(alloc, files, count)?;
    out.extend(text.as_slice())
}
