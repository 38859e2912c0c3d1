//! The lines of a table.

use plain_data::{Many, NoMemory};
use std::alloc::{AllocError, Global};

/// A case: a text, and the outcome of its reading.
#[derive(Drop)]
pub struct Case {
    pub text: Many<u8>,
    pub expected: String,
}

/// How far an escape has come.
#[derive(Clone, Copy, Debug)]
enum Escape {
    /// None has begun.
    Outside,
    /// Behind its backslash.
    Begun,
    /// Behind `\x`.
    Hex,
    /// Behind `\x` and the first of its two digits.
    HexBehind(u8),
}

/// What repeats: `N*UNIT`.
fn repeat_of(inside: &str) -> Option<(usize, &str)> {
    let (count, unit) = inside.split_once('*')?;
    let count = count.parse::<usize>().ok()?;
    Some((count, unit))
}

/// Adds what stands behind a `{` up to the next one: a repetition and what follows it, or as it stands.
fn add_piece(all: &mut String, piece: &str) -> Result<(), AllocError> {
    if let Some((inside, behind)) = piece.split_once('}') {
        if let Some((count, unit)) = repeat_of(inside) {
            for _ in 0..count {
                all.push_str(unit)?;
            }
            return all.push_str(behind);
        }
    }
    all.push('{')?;
    all.push_str(piece)
}

/// The text with each `{N*UNIT}` written out.
fn repeated(alloc: Global, text: &str) -> Result<String, AllocError> {
    let mut all = String::new(alloc);
    let mut first = true;
    for piece in text.split('{') {
        if first {
            all.push_str(piece)?;
        } else {
            add_piece(&mut all, piece)?;
        }
        first = false;
    }
    Ok(all)
}

fn hex_digit(byte: u8) -> Option<u8> {
    match byte {
        b'0'..=b'9' => Some(byte - b'0'),
        b'a'..=b'f' => Some(byte - b'a' + 10),
        _ => None,
    }
}

/// Where an escape stands behind one more byte, with what it adds to the text, or `None` where it is no escape.
fn escape_behind(escape: Escape, byte: u8) -> Option<(Escape, Option<u8>)> {
    match escape {
        Escape::Outside => {
            if byte == b'\\' {
                Some((Escape::Begun, None))
            } else {
                Some((Escape::Outside, Some(byte)))
            }
        }
        Escape::Begun => match byte {
            b'n' => Some((Escape::Outside, Some(b'\n'))),
            b't' => Some((Escape::Outside, Some(b'\t'))),
            b'\\' => Some((Escape::Outside, Some(b'\\'))),
            b'x' => Some((Escape::Hex, None)),
            _ => None,
        },
        Escape::Hex => Some((Escape::HexBehind(hex_digit(byte)?), None)),
        Escape::HexBehind(high) => {
            let low = hex_digit(byte)?;
            Some((Escape::Outside, Some(high << 4 | low)))
        }
    }
}

/// The text with its escapes undone, or `None` where it has one that isn't known.
fn unescaped(alloc: Global, text: &str) -> Result<Option<Many<u8>>, NoMemory> {
    let mut all = Many::with_room(alloc, text.len())?;
    let mut escape = Escape::Outside;
    for byte in text.as_bytes() {
        let Some((next, added)) = escape_behind(escape, *byte) else {
            return Ok(None);
        };
        if let Some(added) = added {
            all.push(added)?;
        }
        escape = next;
    }
    match escape {
        Escape::Outside => Ok(Some(all)),
        _ => Ok(None),
    }
}

/// Whether a line of a table is no case but a remark.
pub fn is_remark(line: &str) -> bool {
    line.starts_with("## ")
}

/// The case of a line, or `None` where it is none.
pub fn case_of(alloc: Global, line: &str) -> Result<Option<Case>, NoMemory> {
    let Some((text, expected)) = line.split_once('\t') else {
        return Ok(None);
    };
    let text = repeated(alloc, text)?;
    let Some(text) = unescaped(alloc, text.as_str())? else {
        return Ok(None);
    };
    Ok(Some(Case {
        text,
        expected: repeated(alloc, expected)?,
    }))
}
