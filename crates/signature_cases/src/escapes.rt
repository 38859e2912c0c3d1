//! Bytes, shown as a table writes them.

use std::alloc::AllocError;

/// Adds bytes that are UTF-8: a newline, a tab and a backslash as `\n`, `\t` and `\\`, each other character as it stands. Bytes that aren't UTF-8
/// are shown as `?`.
pub fn add_escaped(text: &mut String, bytes: &[u8]) -> Result<(), AllocError> {
    let Ok(characters) = str::from_utf8(bytes) else {
        return text.push('?');
    };
    for character in characters.chars() {
        match character {
            '\n' => text.push_str("\\n")?,
            '\t' => text.push_str("\\t")?,
            '\\' => text.push_str("\\\\")?,
            other => text.push(other)?,
        }
    }
    Ok(())
}
