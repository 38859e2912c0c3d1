//! Type parameters.

ghost use Rattle.std.specs.Prelude.{◌≡◌, ◌≤◌, ◌<◌, ◌∷◌, [], length, true, IfOk, OnOk};
ghost use Rattle.rbs_terminals.specs.declared.token.Spot.{Spot};
ghost use Rattle.rbs_terminals.specs.declared.token.Kind.TheVariants as kinds;
ghost use Rattle.sig_model.specs.PlainMember.{plain_param};
ghost use Rattle.rbs_types.specs.Symbols.{token};
ghost use Rattle.rbs_phrases.specs.Fronts.{whole};
ghost use Rattle.rbs_declarations.specs.Grammar.{Varied, is_new_param};
ghost use Rattle.rbs_declarations.specs.Heights.{params_height};
ghost use Rattle.rbs_files.specs.Within.{IsParams};
ghost use Rattle.rbs_files.specs.Parameters.{variance_next, IsBound, IsParam, Lengthens};

use crate::keywords::skip_keyword;
use crate::types::applied_on;
use plain_data::Word;
use rbs_declarations::built::option_of;
use rbs_declarations::plain::Params;
use rbs_declarations::words::variance_of;
use rbs_phrases::{Cursor, Unread, Use, name_on};
use rbs_terminals::{Keyword, Kind, Mark};
use rbs_types::Tall;
use sig_model::decl::{TyParam, Variance};
use std::alloc::Global;

/// The variance that stands next, if one does.
fn variance_next(cursor: &Cursor) -> Option<Variance>
    ensures { result ≡ variance_next cursor.now.rest }
{
    match cursor.keyword() {
        Some(keyword) => variance_of(keyword),
        None => None,
    }
}

/// The variance of a parameter.
fn variance_on(cursor: &mut Cursor) -> Result<Variance, Unread>
    ensures phrase { IfOk result (λ v. Varied v cursor.old.rest cursor.new.rest) }
    ensures kept { OnOk result (whole cursor.new ≡ whole cursor.old) }
    ensures shorter { OnOk result (length cursor.new.rest ≤ length cursor.old.rest) }
{
    match variance_next(cursor) {
        Some(variance) => {
            cursor.pass()?;
            Ok(variance)
        }
        None => Ok(Variance::Fixed),
    }
}

/// The name of a parameter, which none of those before it has.
fn param_name_on(cursor: &mut Cursor, before: &Params) -> Result<Word, Unread>
    ensures name { IfOk result (λ w. (s : Spot) × (cursor.old.rest ≡ token (kinds.Upper w) s ∷ cursor.new.rest)) }
    ensures new { IfOk result (λ w. is_new_param w before.now ≡ true) }
    ensures kept { OnOk result (whole cursor.new ≡ whole cursor.old) }
    ensures shorter { OnOk result (length cursor.new.rest < length cursor.old.rest) }
{
    match cursor.kind()? {
        Kind::Upper(name) => {
            if before.is_new(&name) {
                Ok(name)
            } else {
                Err(Unread::Other)
            }
        }
        _ => Err(Unread::Other),
    }
}

/// The bound of a parameter, or none.
fn bound_on(alloc: Global, cursor: &mut Cursor, room: u32) -> Result<Option<Tall>, Unread>
    ensures phrase { IfOk result (λ b. IsBound room b cursor.old.rest cursor.new.rest) }
    ensures kept { OnOk result (whole cursor.new ≡ whole cursor.old) }
    ensures shorter { OnOk result (length cursor.new.rest ≤ length cursor.old.rest) }
{
    if !cursor.skip(Mark::Less)? {
        return Ok(None);
    }
    if !skip_keyword(cursor, Keyword::Singleton)? {
        return Ok(Some(applied_on(alloc, cursor, room, Use::ClassOrInterface)?));
    }
    if room == 0 {
        return Err(Unread::Other);
    }
    cursor.expect(Mark::Open)?;
    let name = name_on(alloc, cursor, Use::Class)?;
    cursor.expect(Mark::Close)?;
    Ok(Some(Tall::single(name)))
}

/// A parameter behind these.
fn param_on(
    alloc: Global,
    cursor: &mut Cursor,
    before: &Params,
    room: u32,
) -> Result<TyParam, Unread>
    ensures phrase { IfOk result (λ p. IsParam room before.now (plain_param p) cursor.old.rest cursor.new.rest) }
    ensures kept { OnOk result (whole cursor.new ≡ whole cursor.old) }
    ensures shorter { OnOk result (length cursor.new.rest < length cursor.old.rest) }
{
    let unchecked = skip_keyword(cursor, Keyword::Unchecked)?;
    let variance = variance_on(cursor)?;
    let name = param_name_on(cursor, before)?;
    let bound = bound_on(alloc, cursor, room)?;
    Ok(TyParam {
        name,
        unchecked,
        variance,
        bound: option_of(bound),
    })
}

/// Parameters with commas between them, behind the bracket.
fn param_list_on(alloc: Global, cursor: &mut Cursor, room: u32) -> Result<Params, Unread>
    ensures phrase { IfOk result (λ ps. Lengthens room [] ps cursor.old.rest cursor.new.rest) }
    ensures low { IfOk result (λ ps. params_height ps ≤ 200) }
    ensures kept { OnOk result (whole cursor.new ≡ whole cursor.old) }
    ensures shorter { OnOk result (length cursor.new.rest < length cursor.old.rest) }
{
    let mut done = Params::new(alloc);
    let mut more = true;
    while more {
        let param = param_on(alloc, cursor, &done, room)?;
        done.add(param)?;
        more = cursor.skip(Mark::Comma)?;
    }
    Ok(done)
}

/// Type parameters in their brackets, or none.
pub fn params_on(alloc: Global, cursor: &mut Cursor, room: u32) -> Result<Params, Unread>
    ensures phrase { IfOk result (λ ps. IsParams room ps cursor.old.rest cursor.new.rest) }
    ensures kept { OnOk result (whole cursor.new ≡ whole cursor.old) }
    ensures shorter { OnOk result (length cursor.new.rest ≤ length cursor.old.rest) }
{
    if !cursor.skip(Mark::OpenSquare)? {
        return Ok(Params::new(alloc));
    }
    if room == 0 {
        return Err(Unread::Other);
    }
    let params = param_list_on(alloc, cursor, room - 1)?;
    cursor.expect(Mark::CloseSquare)?;
    Ok(params)
}
