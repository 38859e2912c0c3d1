//! Types, shown as the tables write them.

use sig_model::ty::{Arg, BaseTy, BlockTy, FunTy, RecKey, Ty, TypeName};
use sig_model::{Boxed, Word};
use std::alloc::AllocError;
use std::fmt::Write;

/// Adds a word as it stands, but bytes past 127 as `\xHH`.
pub fn add_word(text: &mut String, word: &Word) -> Result<(), AllocError> {
    for byte in word.as_bytes() {
        let byte = *byte;
        if byte < 128 {
            text.push(char::from(byte))?;
        } else {
            write!(text, "\\x{byte:02x}")?;
        }
    }
    Ok(())
}

/// Adds a word in quotes, with escapes for quotes, backslashes, braces and all bytes that aren't printed.
pub fn add_quoted(text: &mut String, word: &Word) -> Result<(), AllocError> {
    text.push('"')?;
    for byte in word.as_bytes() {
        let byte = *byte;
        match byte {
            b'"' => text.push_str("\\\"")?,
            b'\\' => text.push_str("\\\\")?,
            b'\n' => text.push_str("\\n")?,
            b'\t' => text.push_str("\\t")?,
            b'{' | b'}' => write!(text, "\\x{byte:02x}")?,
            b' '..=b'~' => text.push(char::from(byte))?,
            _ => write!(text, "\\x{byte:02x}")?,
        }
    }
    text.push('"')
}

/// Adds a name, with `::` in front where it is rooted.
pub fn add_name(text: &mut String, name: &TypeName) -> Result<(), AllocError> {
    let mut joined = name.rooted;
    for word in name.path.as_slice() {
        if joined {
            text.push_str("::")?;
        }
        add_word(text, word)?;
        joined = true;
    }
    Ok(())
}

fn base_text(base: BaseTy) -> &'static str {
    match base {
        BaseTy::True => "true",
        BaseTy::False => "false",
        BaseTy::Nil => "nil",
        BaseTy::Bool => "bool",
        BaseTy::Void => "void",
        BaseTy::Top => "top",
        BaseTy::Bot => "bot",
        BaseTy::SelfTy => "self",
        BaseTy::Instance => "instance",
        BaseTy::ClassTy => "class",
        BaseTy::Untyped => "untyped",
    }
}

/// `!` for what is needed and `?` for what may be left out.
fn need_text(needed: bool) -> &'static str {
    if needed { "!" } else { "?" }
}

/// Adds a type.
#[cycle(shown_type)]
pub fn add_type(text: &mut String, ty: &Ty) -> Result<(), AllocError> {
    match ty {
        Ty::Name { name, args } => {
            text.push_str("(n ")?;
            add_name(text, name)?;
            add_types(text, args.as_slice())?;
        }
        Ty::Single(name) => {
            text.push_str("(single ")?;
            add_name(text, name)?;
        }
        Ty::Opt(inner) => {
            text.push_str("(opt ")?;
            add_type(text, inner.get())?;
        }
        Ty::Union(parts) => {
            text.push_str("(or")?;
            add_types(text, parts.as_slice())?;
        }
        Ty::Inter(parts) => {
            text.push_str("(and")?;
            add_types(text, parts.as_slice())?;
        }
        Ty::Tuple(parts) => {
            text.push_str("(tuple")?;
            add_types(text, parts.as_slice())?;
        }
        Ty::Rec(keys) => {
            text.push_str("(rec")?;
            add_keys(text, keys.as_slice())?;
        }
        Ty::Fun(fun) => {
            text.push_str("(fun")?;
            add_shape(text, fun.get())?;
        }
        _ => return add_leaf(text, ty),
    }
    text.push(')')
}

/// Adds a type that has no parts.
fn add_leaf(text: &mut String, ty: &Ty) -> Result<(), AllocError> {
    match ty {
        Ty::Int(value) => {
            let value = *value;
            write!(text, "(int {value})")
        }
        Ty::Str(word) => {
            text.push_str("(str ")?;
            add_quoted(text, word)?;
            text.push(')')
        }
        Ty::Sym(word) => {
            text.push_str("(sym ")?;
            add_quoted(text, word)?;
            text.push(')')
        }
        Ty::Base(base) => text.push_str(base_text(*base)),
        _ => Ok(()),
    }
}

/// Adds types, each behind a blank.
#[cycle(shown_type)]
pub fn add_types(text: &mut String, types: &[Ty]) -> Result<(), AllocError> {
    for ty in types {
        text.push(' ')?;
        add_type(text, ty)?;
    }
    Ok(())
}

/// Adds keys, each behind a blank.
#[cycle(shown_type)]
fn add_keys(text: &mut String, keys: &[RecKey]) -> Result<(), AllocError> {
    for key in keys {
        text.push_str(" (k ")?;
        add_word(text, &key.key)?;
        text.push(' ')?;
        text.push_str(need_text(key.needed))?;
        text.push(' ')?;
        add_type(text, &key.ty)?;
        text.push(')')?;
    }
    Ok(())
}

#[cycle(shown_type)]
fn add_arg(text: &mut String, arg: &Arg) -> Result<(), AllocError> {
    match &arg.name {
        None => add_type(text, &arg.ty),
        Some(name) => {
            text.push_str("(arg ")?;
            add_type(text, &arg.ty)?;
            text.push(' ')?;
            add_word(text, name)?;
            text.push(')')
        }
    }
}

/// Adds parameters as a list with this word in front, where there are any.
#[cycle(shown_type)]
fn add_args(text: &mut String, word: &str, args: &[Arg]) -> Result<(), AllocError> {
    if args.is_empty() {
        return Ok(());
    }
    text.push_str(" (")?;
    text.push_str(word)?;
    for arg in args {
        text.push(' ')?;
        add_arg(text, arg)?;
    }
    text.push(')')
}

/// Adds a parameter as a list with this word in front, where there is one.
#[cycle(shown_type)]
fn add_rest(text: &mut String, word: &str, rest: &Option<Arg>) -> Result<(), AllocError> {
    match rest {
        None => Ok(()),
        Some(arg) => {
            text.push_str(" (")?;
            text.push_str(word)?;
            text.push(' ')?;
            add_arg(text, arg)?;
            text.push(')')
        }
    }
}

#[cycle(shown_type)]
fn add_block(text: &mut String, block: &Option<Boxed<BlockTy>>) -> Result<(), AllocError> {
    match block {
        None => Ok(()),
        Some(block) => {
            let block = block.get();
            text.push_str(" (block ")?;
            text.push_str(need_text(block.needed))?;
            add_shape(text, &block.fun)?;
            text.push(')')
        }
    }
}

/// Adds parameters, a block and a result, each behind a blank.
#[cycle(shown_type)]
pub fn add_shape(text: &mut String, fun: &FunTy) -> Result<(), AllocError> {
    add_args(text, "req", fun.required.as_slice())?;
    add_args(text, "opt", fun.optional.as_slice())?;
    add_rest(text, "rest", &fun.rest)?;
    add_args(text, "trail", fun.trailing.as_slice())?;
    if !fun.keys.is_empty() {
        text.push_str(" (keys")?;
        add_keys(text, fun.keys.as_slice())?;
        text.push(')')?;
    }
    add_rest(text, "krest", &fun.key_rest)?;
    add_block(text, &fun.block)?;
    text.push_str(" (to ")?;
    add_type(text, &fun.result)?;
    text.push(')')
}
