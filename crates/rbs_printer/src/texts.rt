//! The texts that the printed form is made of.

ghost use Rattle.std.specs.Prelude.{◌≡◌, ◌++◌, OnOk, codes};
ghost use Rattle.std.specs.List.{flat_map};
ghost use Rattle.std.specs.Fmt.{signed_decimal};
ghost use Rattle.rbs_printer.specs.Texts.{joined, base_text, variance_text, vis_text, attribute_text, mixin_text, where_set, name_text, escaped, string_text, is_sign, ends_in_word, indent};

use plain_data::{Many, NoMemory, Word};
use sig_model::decl::{AttrKind, MixKind, Variance, Vis};
use sig_model::ty::{BaseTy, TypeName};
use std::alloc::Global;

/// The text of a type that is a word of the language.
pub fn base_text(base: BaseTy) -> &'static str
    ensures { result.now ≡ base_text base }
{
    match base {
        BaseTy::True => "true",
        BaseTy::False => "false",
        BaseTy::Nil => "nil",
        BaseTy::Bool => "bool",
        BaseTy::Void => "void",
        BaseTy::Top => "top",
        BaseTy::Bot => "bot",
        BaseTy::SelfTy => "self",
        BaseTy::Instance => "instance",
        BaseTy::ClassTy => "class",
        BaseTy::Untyped => "untyped",
    }
}

/// What stands before a type parameter of this variance.
pub fn variance_text(variance: Variance) -> &'static str
    ensures { result.now ≡ variance_text variance }
{
    match variance {
        Variance::Fixed => "",
        Variance::Out => "out ",
        Variance::In => "in ",
    }
}

/// The word of a visibility.
pub fn vis_text(vis: Vis) -> &'static str
    ensures { result.now ≡ vis_text vis }
{
    match vis {
        Vis::Public => "public",
        Vis::Private => "private",
    }
}

/// The word of an attribute.
pub fn attribute_text(kind: AttrKind) -> &'static str
    ensures { result.now ≡ attribute_text kind }
{
    match kind {
        AttrKind::Reader => "attr_reader",
        AttrKind::Writer => "attr_writer",
        AttrKind::Accessor => "attr_accessor",
    }
}

/// The word of a mixin.
pub fn mixin_text(kind: MixKind) -> &'static str
    ensures { result.now ≡ mixin_text kind }
{
    match kind {
        MixKind::Include => "include",
        MixKind::Extend => "extend",
        MixKind::Prepend => "prepend",
    }
}

/// Adds a text where the flag is set.
///
/// # Errors
///
/// `NoMemory` where there is none for it.
pub fn add_where(set: bool, text: &[u8], out: &mut Many<u8>) -> Result<(), NoMemory>
    ensures { OnOk result (out.new ≡ out.old ++ where_set set text.now) }
{
    if set { out.extend(text) } else { Ok(()) }
}

/// Adds words with `::` between each two.
#[tactic(auto, using(std::proofs::lemmas::Grind::common_steps, crate::proofs::Joined::joined_listed))]
fn add_path(words: &[Word], out: &mut Many<u8>) -> Result<(), NoMemory>
    ensures { OnOk result (out.new ≡ out.old ++ joined (codes "::") words.now) }
{
    let mut listed = false;
    for word in words {
        add_where(listed, b"::", out)?;
        out.extend(word.as_bytes())?;
        listed = true;
    }
    Ok(())
}

/// Adds a name, with `::` in front where it is rooted.
///
/// # Errors
///
/// `NoMemory` where there is none for it.
pub fn add_name(name: &TypeName, out: &mut Many<u8>) -> Result<(), NoMemory>
    ensures { OnOk result (out.new ≡ out.old ++ name_text name.now) }
{
    add_where(name.rooted, b"::", out)?;
    add_path(name.path.as_slice(), out)
}

/// Adds a byte of a string, with an escape where it has one.
fn add_escaped(byte: u8, out: &mut Many<u8>) -> Result<(), NoMemory>
    ensures { OnOk result (out.new ≡ out.old ++ escaped byte) }
{
    if byte == b'"' {
        out.extend(b"\\\"")
    } else if byte == b'\\' {
        out.extend(b"\\\\")
    } else if byte == b'\n' {
        out.extend(b"\\n")
    } else if byte == b'\t' {
        out.extend(b"\\t")
    } else {
        out.push(byte)
    }
}

/// Adds the bytes of a string.
fn add_escapes(bytes: &[u8], out: &mut Many<u8>) -> Result<(), NoMemory>
    ensures { OnOk result (out.new ≡ out.old ++ flat_map escaped bytes.now) }
{
    for byte in bytes {
        add_escaped(*byte, out)?;
    }
    Ok(())
}

/// Adds a string in double quotes.
///
/// # Errors
///
/// `NoMemory` where there is none for it.
pub fn add_string(word: &Word, out: &mut Many<u8>) -> Result<(), NoMemory>
    ensures { OnOk result (out.new ≡ out.old ++ string_text word.now) }
{
    out.extend(b"\"")?;
    add_escapes(word.as_bytes(), out)?;
    out.extend(b"\"")
}

/// Adds an integer in decimal digits.
///
/// # Errors
///
/// `NoMemory` where there is none for it.
pub fn add_integer(alloc: Global, value: i64, out: &mut Many<u8>) -> Result<(), NoMemory>
    ensures { OnOk result (out.new ≡ out.old ++ signed_decimal value) }
{
    let digits = value.to_string(alloc)?;
    out.extend(digits.as_bytes())
}

/// Whether a byte ends an operator, or is the mark behind a name.
fn is_sign(byte: u8) -> bool
    ensures { result ≡ is_sign byte }
{
    byte == b'!'
        || byte == b'%'
        || byte == b'*'
        || byte == b'+'
        || byte == b'-'
        || byte == b'/'
        || byte == b'<'
        || byte == b'='
        || byte == b'>'
        || byte == b'?'
        || byte == b'@'
        || byte == b']'
}

/// Whether a method's name ends in a word, so that a question mark directly behind it would belong to it.
#[tactic(auto, using(crate::proofs::Joined::last_of_word))]
pub fn ends_in_word(name: &[u8]) -> bool
    ensures { result ≡ ends_in_word name.now }
{
    match name.split_last() {
        None => false,
        Some((last, _)) => !is_sign(*last),
    }
}

/// Adds the blanks before a line this deep in.
///
/// # Errors
///
/// `NoMemory` where there is none for them.
#[tactic(auto, using(std::proofs::lemmas::Grind::common_steps, crate::proofs::Joined::indent_more))]
pub fn add_indent(depth: usize, out: &mut Many<u8>) -> Result<(), NoMemory>
    ensures { OnOk result (out.new ≡ out.old ++ indent depth) }
{
    for _ in 0..depth {
        out.extend(b"  ")?;
    }
    Ok(())
}
