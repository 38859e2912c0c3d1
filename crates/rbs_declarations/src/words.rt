//! What single tokens of declarations stand for.

ghost use Rattle.std.specs.Prelude.{◌≡◌, ◌↔◌, IsTrue, IfOk};
ghost use Rattle.std.specs.Option.{option_copied};
ghost use Rattle.rbs_terminals.specs.declared.token.Kind.TheVariants as kinds;
ghost use Rattle.rbs_declarations.specs.Words as words;

use crate::operators::{Operator, extended};
use plain_data::{NoMemory, Word};
use rbs_terminals::{Gap, Keyword, Kind, Mark, Spot, keyword_text};
use sig_model::decl::{AttrKind, MixKind, Variance, Vis};
use std::alloc::Global;

/// The token is this keyword.
pub fn is_keyword(kind: &Kind, keyword: Keyword) -> bool
    ensures { IsTrue result ↔ (kind.now ≡ kinds.Keyword keyword) }
{
    match kind {
        Kind::Keyword(found) => *found == keyword,
        _ => false,
    }
}

/// The visibility that a keyword is, if it is one.
pub fn vis_of(keyword: Keyword) -> Option<Vis>
    ensures { result ≡ words.vis_of keyword }
{
    match keyword {
        Keyword::Private => Some(Vis::Private),
        Keyword::Public => Some(Vis::Public),
        _ => None,
    }
}

/// The accessors of the attribute that a keyword begins, if it begins one.
pub fn attribute_of(keyword: Keyword) -> Option<AttrKind>
    ensures { result ≡ words.attribute_of keyword }
{
    match keyword {
        Keyword::AttrReader => Some(AttrKind::Reader),
        Keyword::AttrWriter => Some(AttrKind::Writer),
        Keyword::AttrAccessor => Some(AttrKind::Accessor),
        _ => None,
    }
}

/// How the module is mixed in that stands behind a keyword, if one does.
pub fn mixin_of(keyword: Keyword) -> Option<MixKind>
    ensures { result ≡ words.mixin_of keyword }
{
    match keyword {
        Keyword::Include => Some(MixKind::Include),
        Keyword::Extend => Some(MixKind::Extend),
        Keyword::Prepend => Some(MixKind::Prepend),
        _ => None,
    }
}

/// The variance that a keyword is, if it is one.
pub fn variance_of(keyword: Keyword) -> Option<Variance>
    ensures { result ≡ words.variance_of keyword }
{
    match keyword {
        Keyword::Out => Some(Variance::Out),
        Keyword::In => Some(Variance::In),
        _ => None,
    }
}

/// The word of a token that a method's name may begin with, or `None` where it is neither a word nor a keyword.
pub fn method_word(alloc: Global, kind: Kind) -> Result<Option<Word>, NoMemory>
    ensures { IfOk result (λ word. word ≡ words.method_word kind) }
{
    match kind {
        Kind::Lower(word) | Kind::Upper(word) => Ok(Some(word)),
        Kind::Keyword(keyword) => Ok(Some(Word::of(alloc, keyword_text(keyword))?)),
        _ => Ok(None),
    }
}

/// The token stands directly behind the one before it.
pub fn is_joined(spot: &Spot) -> bool
    ensures { result ≡ words.is_joined spot.now }
{
    match spot.gap {
        Gap::Joined => true,
        Gap::Blank | Gap::Line => false,
    }
}

/// The mark with which a method's name may end, if this is one.
pub fn ending_of(mark: Mark) -> Option<&'static str>
    ensures { words.ending_of mark ≡ option_copied result }
{
    match mark {
        Mark::Question => Some("?"),
        Mark::Bang => Some("!"),
        Mark::Equals => Some("="),
        _ => None,
    }
}

/// What an operator becomes by a token, where that stands directly behind it and goes on with it.
pub fn extended_at(operator: Operator, kind: &Kind, spot: &Spot) -> Option<Operator>
    ensures { result ≡ words.extended_at operator kind.now spot.now }
{
    match kind {
        Kind::Mark(mark) => {
            if is_joined(spot) {
                extended(operator, *mark)
            } else {
                None
            }
        }
        _ => None,
    }
}

/// The token begins a member that a visibility before it belongs to.
pub fn takes_vis(kind: &Kind) -> bool
    ensures { result ≡ words.takes_vis kind.now }
{
    match kind {
        Kind::Keyword(
            Keyword::Def | Keyword::AttrReader | Keyword::AttrWriter | Keyword::AttrAccessor,
        ) => true,
        _ => false,
    }
}
