ghost use Rattle.std.specs.Prelude.{◌≡◌, ◌<◌, ◌≤◌, ◌-◌, ◌^◌, min, length};
ghost use Rattle.source_text.specs.Lines.{IsCursor, line_at, column_at};

/// A byte of a text, with its line and its column: both count from 1, columns in bytes.
#[derive(Clone, Copy, Debug, PartialEq, Eq)]
pub struct Cursor {
    pub at: usize,
    pub line: u32,
    pub column: u32,
}

impl Cursor {
    /// The start of any text.
    pub const START: Cursor = Cursor {
        at: 0,
        line: 1,
        column: 1,
    };
}

/// Moves to another byte, or to the text's end where the byte lies behind it.
///
/// It costs the bytes between the two, or those from the text's start where the other byte lies before this one.
pub fn move_to(text: &[u8], from: Cursor, at: usize) -> Cursor
    requires small { length text.now < 2 ^ 32 - 1 }
    requires from { IsCursor text.now from }
    ensures at { result.at ≡ min at (length text.now) }
    ensures cursor { IsCursor text.now result }
    ensures line { result.line ≡ line_at text.now at }
    ensures column { result.column ≡ column_at text.now at }
{
    let end = at.min(text.len());
    if end < from.at {
        advance(text, Cursor::START, end)
    } else {
        advance(text, from, end)
    }
}

/// Moves forward over the bytes before `end`.
fn advance(text: &[u8], from: Cursor, end: usize) -> Cursor
    requires small { length text.now < 2 ^ 32 - 1 }
    requires from { IsCursor text.now from }
    requires forward { from.at ≤ end }
    requires within { end ≤ length text.now }
    ensures at { result.at ≡ end }
    ensures cursor { IsCursor text.now result }
{
    let mut line = from.line;
    let mut column = from.column;
    for i in from.at..end {
        if text[i] == b'\n' {
            line += 1;
            column = 1;
        } else {
            column += 1;
        }
    }
    Cursor {
        at: end,
        line,
        column,
    }
}
