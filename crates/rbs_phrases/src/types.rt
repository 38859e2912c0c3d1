//! Types.

ghost use Rattle.std.specs.Prelude.{ℕ, ◌≡◌, ◌≤◌, ◌<◌, ◌∷◌, List, length, Some, IfOk, OnOk};
ghost use Rattle.rbs_terminals.specs.declared.token.Token.{Token};
ghost use Rattle.rbs_terminals.specs.declared.token.Spot.{Spot};
ghost use Rattle.rbs_terminals.specs.declared.token.Kind.TheVariants as kinds;
ghost use Rattle.rbs_terminals.specs.declared.token.Mark.TheVariants as mark;
ghost use Rattle.rbs_terminals.specs.declared.token.Keyword.TheVariants as keyword;
ghost use Rattle.sig_model.specs.PlainTy as plain;
ghost use Rattle.rbs_types.specs.Symbols.{token};
ghost use Rattle.rbs_types.specs.Parts as parts;
ghost use Rattle.rbs_types.specs.Grammar as grammar;
ghost use Rattle.rbs_types.specs.Grammar.{Spells, Lists};
ghost use Rattle.rbs_phrases.specs.Fronts.{whole};
ghost use Rattle.rbs_phrases.specs.Items.{sort_of, literal_of, listed};

use crate::cursor::Cursor;
use crate::slots::{key_on, name_behind, slot_on};
use crate::type_names::{Use, name_from, name_on};
use crate::unread::Unread;
use rbs_terminals::{Keyword, Kind, Mark, base_of};
use rbs_types::{Block, FunctionHead, Keys, Parameters, Rest, Slot, Tall, Talls, add, none_yet};
use std::alloc::Global;

/// How many types may stand in one another, functions' results among them. A type that is deeper isn't read, so that the recursion stays
/// within the stack.
const DEEPEST: u32 = 100;

/// What stands in a list of types.
#[derive(Clone, Copy, Debug, PartialEq, Eq)]
pub enum Item {
    Type,
    /// A type that is no union, but in parentheses.
    Inter,
    /// A type that is neither a union nor an intersection, but in parentheses.
    Opt,
}

/// The terminal is a type by itself, and no word.
fn is_literal(kind: &Kind) -> bool {
    matches!(kind, Kind::Integer(_) | Kind::Text(_) | Kind::Symbol(_))
}

/// The type that the terminal is by itself.
#[inline(always)]
fn literal_of(kind: Kind) -> Result<Tall, Unread>
    ensures { IfOk result (λ t. literal_of kind ≡ Some t) }
{
    match kind {
        Kind::Integer(value) => Ok(Tall::integer(value)),
        Kind::Text(value) => Ok(Tall::text(value)),
        Kind::Symbol(name) => Ok(Tall::symbol(name)),
        _ => Err(Unread::Other),
    }
}

/// The type of a class or a module itself, behind `singleton`.
fn single_on(alloc: Global, cursor: &mut Cursor) -> Result<Tall, Unread>
    ensures phrase { (s : Spot) → IfOk result (λ t. Spells grammar.simple t (token (kinds.Keyword keyword.Singleton) s ∷ cursor.old.rest) cursor.new.rest) }
    ensures kept { OnOk result (whole cursor.new ≡ whole cursor.old) }
    ensures shorter { OnOk result (length cursor.new.rest ≤ length cursor.old.rest) }
{
    cursor.expect(Mark::Open)?;
    let name = name_on(alloc, cursor, Use::Class)?;
    cursor.expect(Mark::Close)?;
    Ok(Tall::single(name))
}

/// A type that this keyword begins.
#[inline(always)]
fn keyword_from(alloc: Global, cursor: &mut Cursor, keyword: Keyword) -> Result<Tall, Unread>
    ensures phrase { (s : Spot) → IfOk result (λ t. Spells grammar.simple t (token (kinds.Keyword keyword) s ∷ cursor.old.rest) cursor.new.rest) }
    ensures kept { OnOk result (whole cursor.new ≡ whole cursor.old) }
    ensures shorter { OnOk result (length cursor.new.rest ≤ length cursor.old.rest) }
{
    match keyword {
        Keyword::Singleton => single_on(alloc, cursor),
        keyword => match base_of(keyword) {
            Some(base) => Ok(Tall::base(base)),
            None => Err(Unread::Other),
        },
    }
}

/// This type, which was read, with a question mark if one follows. It is a result too.
#[inline(always)]
fn opt_behind(alloc: Global, cursor: &mut Cursor, ty: Tall) -> Result<Tall, Unread>
    ensures opt { (ts : List Token) → Spells grammar.simple ty ts cursor.old.rest → IfOk result (λ t. Spells grammar.opt t ts cursor.new.rest) }
    ensures outcome { (ts : List Token) → Spells grammar.simple ty ts cursor.old.rest → IfOk result (λ t. Spells grammar.result t ts cursor.new.rest) }
    ensures kept { OnOk result (whole cursor.new ≡ whole cursor.old) }
    ensures shorter { OnOk result (length cursor.new.rest ≤ length cursor.old.rest) }
{
    if cursor.skip(Mark::Question)? {
        Ok(Tall::opt(alloc, ty)?)
    } else {
        Ok(ty)
    }
}

/// A name that begins with this terminal, with its arguments.
#[inline(always)]
#[cycle(types)]
fn named_from(alloc: Global, cursor: &mut Cursor, depth: u32, kind: Kind) -> Result<Tall, Unread>
    ensures phrase { (s : Spot) → IfOk result (λ t. Spells grammar.simple t (token kind s ∷ cursor.old.rest) cursor.new.rest) }
    ensures kept { OnOk result (whole cursor.new ≡ whole cursor.old) }
    ensures shorter { OnOk result (length cursor.new.rest ≤ length cursor.old.rest) }
{
    let name = name_from(alloc, cursor, Use::Type, kind)?;
    if !cursor.skip(Mark::OpenSquare)? {
        return Ok(Tall::name(name, Talls::new(alloc)));
    }
    let args = list_on(
        alloc,
        cursor,
        depth,
        Item::Type,
        Mark::Comma,
        Talls::new(alloc),
    )?;
    cursor.expect(Mark::CloseSquare)?;
    Ok(Tall::name(name, args))
}

/// A tuple, behind its bracket.
#[cycle(types)]
fn tuple_on(alloc: Global, cursor: &mut Cursor, depth: u32) -> Result<Tall, Unread>
    ensures phrase { (s : Spot) → IfOk result (λ t. Spells grammar.simple t (token (kinds.Mark mark.OpenSquare) s ∷ cursor.old.rest) cursor.new.rest) }
    ensures kept { OnOk result (whole cursor.new ≡ whole cursor.old) }
    ensures shorter { OnOk result (length cursor.new.rest ≤ length cursor.old.rest) }
{
    if cursor.skip(Mark::CloseSquare)? {
        return Ok(Tall::tuple(Talls::new(alloc)));
    }
    let members = list_on(
        alloc,
        cursor,
        depth,
        Item::Type,
        Mark::Comma,
        Talls::new(alloc),
    )?;
    cursor.expect(Mark::CloseSquare)?;
    Ok(Tall::tuple(members))
}

/// The keys of a record.
#[cycle(types)]
fn keys_on(alloc: Global, cursor: &mut Cursor, depth: u32) -> Result<Keys, Unread>
    ensures phrase { IfOk result (λ ks. grammar.Keys plain.no_keys ks cursor.old.rest cursor.new.rest) }
    ensures kept { OnOk result (whole cursor.new ≡ whole cursor.old) }
    ensures shorter { OnOk result (length cursor.new.rest < length cursor.old.rest) }
{
    let mut done = Keys::new(alloc);
    let mut more = true;
    while more {
        let (key, needed) = key_on(alloc, cursor, &done)?;
        let kind = cursor.kind()?;
        let ty = type_from(alloc, cursor, depth, kind)?;
        done.add(key, needed, ty)?;
        more = cursor.skip(Mark::Comma)?;
    }
    Ok(done)
}

/// A type that begins with this terminal, and that no mark goes on with.
#[cycle(types)]
fn simple_from(alloc: Global, cursor: &mut Cursor, depth: u32, kind: Kind) -> Result<Tall, Unread>
    ensures phrase { (s : Spot) → IfOk result (λ t. Spells grammar.simple t (token kind s ∷ cursor.old.rest) cursor.new.rest) }
    ensures kept { OnOk result (whole cursor.new ≡ whole cursor.old) }
    ensures shorter { OnOk result (length cursor.new.rest ≤ length cursor.old.rest) }
{
    if depth == 0 {
        return Err(Unread::Other);
    }
    match kind {
        Kind::Mark(mark) => marked_from(alloc, cursor, depth - 1, mark),
        Kind::Keyword(keyword) => keyword_from(alloc, cursor, keyword),
        kind => {
            if is_literal(&kind) {
                literal_of(kind)
            } else {
                named_from(alloc, cursor, depth - 1, kind)
            }
        }
    }
}

/// A type that begins with this mark.
#[cycle(types)]
fn marked_from(alloc: Global, cursor: &mut Cursor, depth: u32, mark: Mark) -> Result<Tall, Unread>
    ensures phrase { (s : Spot) → IfOk result (λ t. Spells grammar.simple t (token (kinds.Mark mark) s ∷ cursor.old.rest) cursor.new.rest) }
    ensures kept { OnOk result (whole cursor.new ≡ whole cursor.old) }
    ensures shorter { OnOk result (length cursor.new.rest ≤ length cursor.old.rest) }
{
    match mark {
        Mark::Open => paren_on(alloc, cursor, depth),
        Mark::OpenSquare => tuple_on(alloc, cursor, depth),
        Mark::OpenBrace => record_on(alloc, cursor, depth),
        Mark::Caret => proc_on(alloc, cursor, depth),
        Mark::Scope => named_from(alloc, cursor, depth, Kind::Mark(Mark::Scope)),
        _ => Err(Unread::Other),
    }
}

/// A type in parentheses, behind the first one.
#[cycle(types)]
fn paren_on(alloc: Global, cursor: &mut Cursor, depth: u32) -> Result<Tall, Unread>
    ensures phrase { (s : Spot) → IfOk result (λ t. Spells grammar.simple t (token (kinds.Mark mark.Open) s ∷ cursor.old.rest) cursor.new.rest) }
    ensures kept { OnOk result (whole cursor.new ≡ whole cursor.old) }
    ensures shorter { OnOk result (length cursor.new.rest ≤ length cursor.old.rest) }
{
    let kind = cursor.kind()?;
    let ty = type_from(alloc, cursor, depth, kind)?;
    cursor.expect(Mark::Close)?;
    Ok(ty)
}

/// A record, behind its brace.
#[cycle(types)]
fn record_on(alloc: Global, cursor: &mut Cursor, depth: u32) -> Result<Tall, Unread>
    ensures phrase { (s : Spot) → IfOk result (λ t. Spells grammar.simple t (token (kinds.Mark mark.OpenBrace) s ∷ cursor.old.rest) cursor.new.rest) }
    ensures kept { OnOk result (whole cursor.new ≡ whole cursor.old) }
    ensures shorter { OnOk result (length cursor.new.rest ≤ length cursor.old.rest) }
{
    if cursor.skip(Mark::CloseBrace)? {
        return Ok(Tall::record(Keys::new(alloc)));
    }
    let keys = keys_on(alloc, cursor, depth)?;
    cursor.expect(Mark::CloseBrace)?;
    Ok(Tall::record(keys))
}

/// A result that begins with this terminal.
#[cycle(types)]
fn outcome_from(alloc: Global, cursor: &mut Cursor, depth: u32, kind: Kind) -> Result<Tall, Unread>
    ensures phrase { (s : Spot) → IfOk result (λ t. Spells grammar.result t (token kind s ∷ cursor.old.rest) cursor.new.rest) }
    ensures kept { OnOk result (whole cursor.new ≡ whole cursor.old) }
    ensures shorter { OnOk result (length cursor.new.rest ≤ length cursor.old.rest) }
{
    let ty = simple_from(alloc, cursor, depth, kind)?;
    opt_behind(alloc, cursor, ty)
}

/// The types that `&` joins with this one, which was read.
#[cycle(types)]
fn inter_behind(alloc: Global, cursor: &mut Cursor, depth: u32, first: Tall) -> Result<Tall, Unread>
    ensures phrase { (ts : List Token) → Spells grammar.opt first ts cursor.old.rest → IfOk result (λ t. Spells grammar.inter t ts cursor.new.rest) }
    ensures kept { OnOk result (whole cursor.new ≡ whole cursor.old) }
    ensures shorter { OnOk result (length cursor.new.rest ≤ length cursor.old.rest) }
{
    if !cursor.skip(Mark::Amp)? {
        return Ok(first);
    }
    let first = Talls::new(alloc).with(first)?;
    let members = list_on(alloc, cursor, depth, Item::Opt, Mark::Amp, first)?;
    Ok(Tall::inter(members))
}

/// The types that `|` joins with this one, which was read.
#[cycle(types)]
fn union_behind(alloc: Global, cursor: &mut Cursor, depth: u32, first: Tall) -> Result<Tall, Unread>
    ensures phrase { (ts : List Token) → Spells grammar.inter first ts cursor.old.rest → IfOk result (λ t. Spells grammar.type t ts cursor.new.rest) }
    ensures kept { OnOk result (whole cursor.new ≡ whole cursor.old) }
    ensures shorter { OnOk result (length cursor.new.rest ≤ length cursor.old.rest) }
{
    if !cursor.skip(Mark::Bar)? {
        return Ok(first);
    }
    let first = Talls::new(alloc).with(first)?;
    let members = list_on(alloc, cursor, depth, Item::Inter, Mark::Bar, first)?;
    Ok(Tall::union(members))
}

/// The next terminal goes on with a type.
#[inline(always)]
fn operator_next(cursor: &Cursor) -> bool {
    matches!(cursor.mark(), Some(Mark::Question | Mark::Amp | Mark::Bar))
}

/// What goes on with this type, which was read.
#[cycle(types)]
fn operators_behind(
    alloc: Global,
    cursor: &mut Cursor,
    depth: u32,
    item: Item,
    ty: Tall,
) -> Result<Tall, Unread>
    ensures phrase { (ts : List Token) → Spells grammar.simple ty ts cursor.old.rest → IfOk result (λ t. Spells (sort_of item) t ts cursor.new.rest) }
    ensures kept { OnOk result (whole cursor.new ≡ whole cursor.old) }
    ensures shorter { OnOk result (length cursor.new.rest ≤ length cursor.old.rest) }
{
    let ty = opt_behind(alloc, cursor, ty)?;
    match item {
        Item::Opt => Ok(ty),
        Item::Inter => inter_behind(alloc, cursor, depth, ty),
        Item::Type => {
            let inter = inter_behind(alloc, cursor, depth, ty)?;
            union_behind(alloc, cursor, depth, inter)
        }
    }
}

/// Such a type, which begins with this terminal.
#[inline(always)]
#[cycle(types)]
fn item_from(
    alloc: Global,
    cursor: &mut Cursor,
    depth: u32,
    item: Item,
    kind: Kind,
) -> Result<Tall, Unread>
    ensures phrase { (s : Spot) → IfOk result (λ t. Spells (sort_of item) t (token kind s ∷ cursor.old.rest) cursor.new.rest) }
    ensures kept { OnOk result (whole cursor.new ≡ whole cursor.old) }
    ensures shorter { OnOk result (length cursor.new.rest ≤ length cursor.old.rest) }
{
    let ty = simple_from(alloc, cursor, depth, kind)?;
    if operator_next(cursor) {
        operators_behind(alloc, cursor, depth, item, ty)
    } else {
        Ok(ty)
    }
}

/// A type that begins with this terminal.
#[cycle(types)]
fn type_from(alloc: Global, cursor: &mut Cursor, depth: u32, kind: Kind) -> Result<Tall, Unread>
    ensures phrase { (s : Spot) → IfOk result (λ t. Spells grammar.type t (token kind s ∷ cursor.old.rest) cursor.new.rest) }
    ensures kept { OnOk result (whole cursor.new ≡ whole cursor.old) }
    ensures shorter { OnOk result (length cursor.new.rest ≤ length cursor.old.rest) }
{
    item_from(alloc, cursor, depth, Item::Type, kind)
}

/// Types with this mark between them, behind those that were read before.
#[cycle(types)]
fn list_on(
    alloc: Global,
    cursor: &mut Cursor,
    depth: u32,
    item: Item,
    by: Mark,
    before: Talls,
) -> Result<Talls, Unread>
    ensures phrase { IfOk result (λ us. Lists (sort_of item) by before us cursor.old.rest cursor.new.rest) }
    ensures kept { OnOk result (whole cursor.new ≡ whole cursor.old) }
    ensures shorter { OnOk result (length cursor.new.rest < length cursor.old.rest) }
{
    let mut done = before;
    let mut more = true;
    while more {
        let kind = cursor.kind()?;
        let ty = item_from(alloc, cursor, depth, item, kind)?;
        done.add(ty)?;
        more = cursor.skip(by)?;
    }
    Ok(done)
}

/// The parameters of a function or a block, behind the parenthesis. What is answered is the rest of the keywords.
#[cycle(types)]
fn parameters_on(
    alloc: Global,
    cursor: &mut Cursor,
    depth: u32,
    done: &mut Parameters,
) -> Result<Rest, Unread>
    requires { done.old ≡ parts.no_parameters }
    ensures phrase { IfOk result (λ rest. grammar.Parameters parts.no_parameters (listed done.new rest) cursor.old.rest cursor.new.rest) }
    ensures kept { OnOk result (whole cursor.new ≡ whole cursor.old) }
    ensures shorter { OnOk result (length cursor.new.rest < length cursor.old.rest) }
{
    let mut more = true;
    while more && !cursor.is_next(Mark::DoubleStar) {
        let (slot, kind) = slot_on(alloc, cursor, done)?;
        let ty = type_from(alloc, cursor, depth, kind)?;
        let name = name_behind(alloc, cursor, &slot)?;
        add(alloc, done, slot, ty, name)?;
        more = cursor.skip(Mark::Comma)?;
    }
    if !more {
        return Ok(Rest::none());
    }
    cursor.expect(Mark::DoubleStar)?;
    let kind = cursor.kind()?;
    let ty = type_from(alloc, cursor, depth, kind)?;
    let name = name_behind(alloc, cursor, &Slot::KeyRest)?;
    Ok(Rest::of(alloc, ty, name)?)
}

/// The parameters of a function or a block, with their parentheses, or none. What is answered is the rest of the keywords.
#[cycle(types)]
fn listed_on(
    alloc: Global,
    cursor: &mut Cursor,
    depth: u32,
    done: &mut Parameters,
) -> Result<Rest, Unread>
    requires { done.old ≡ parts.no_parameters }
    ensures phrase { IfOk result (λ rest. grammar.Listed (listed done.new rest) cursor.old.rest cursor.new.rest) }
    ensures kept { OnOk result (whole cursor.new ≡ whole cursor.old) }
    ensures shorter { OnOk result (length cursor.new.rest ≤ length cursor.old.rest) }
{
    if !cursor.skip(Mark::Open)? {
        return Ok(Rest::none());
    }
    if cursor.skip(Mark::Close)? {
        return Ok(Rest::none());
    }
    let key_rest = parameters_on(alloc, cursor, depth, done)?;
    cursor.expect(Mark::Close)?;
    Ok(key_rest)
}

/// A block behind its brace.
#[cycle(types)]
fn braced_on(alloc: Global, cursor: &mut Cursor, depth: u32, needed: bool) -> Result<Block, Unread>
    ensures phrase { IfOk result (λ b. (f : plain.PlainFun) × (b ≡ plain.block needed f) × grammar.Braced f cursor.old.rest cursor.new.rest) }
    ensures kept { OnOk result (whole cursor.new ≡ whole cursor.old) }
    ensures shorter { OnOk result (length cursor.new.rest ≤ length cursor.old.rest) }
{
    let mut parameters = none_yet(alloc);
    let key_rest = listed_on(alloc, cursor, depth, &mut parameters)?;
    cursor.expect(Mark::Arrow)?;
    let kind = cursor.kind()?;
    let outcome = outcome_from(alloc, cursor, depth, kind)?;
    cursor.expect(Mark::CloseBrace)?;
    let head = FunctionHead {
        parameters,
        key_rest,
        block: Block::none(),
    };
    let levels = head.levels(&outcome);
    Ok(Block::of_fun(alloc, needed, head.with_result(outcome), levels)?)
}

/// The block of a function, or none.
#[cycle(types)]
fn block_on(alloc: Global, cursor: &mut Cursor, depth: u32) -> Result<Block, Unread>
    ensures phrase { IfOk result (λ b. grammar.Blocked b cursor.old.rest cursor.new.rest) }
    ensures kept { OnOk result (whole cursor.new ≡ whole cursor.old) }
    ensures shorter { OnOk result (length cursor.new.rest ≤ length cursor.old.rest) }
{
    if cursor.skip(Mark::OpenBrace)? {
        braced_on(alloc, cursor, depth, true)
    } else if cursor.skip(Mark::Question)? {
        cursor.expect(Mark::OpenBrace)?;
        braced_on(alloc, cursor, depth, false)
    } else {
        Ok(Block::none())
    }
}

/// The parameters and the block of a function, which go into its head, and its result.
#[cycle(types)]
fn function_from(
    alloc: Global,
    cursor: &mut Cursor,
    depth: u32,
    head: &mut FunctionHead,
) -> Result<Tall, Unread>
    requires { head.old.parameters ≡ parts.no_parameters }
    ensures phrase { IfOk result (λ outcome. grammar.Function (parts.function_with head.new outcome) cursor.old.rest cursor.new.rest) }
    ensures kept { OnOk result (whole cursor.new ≡ whole cursor.old) }
    ensures shorter { OnOk result (length cursor.new.rest < length cursor.old.rest) }
{
    head.key_rest = listed_on(alloc, cursor, depth, &mut head.parameters)?;
    head.block = block_on(alloc, cursor, depth)?;
    cursor.expect(Mark::Arrow)?;
    let kind = cursor.kind()?;
    outcome_from(alloc, cursor, depth, kind)
}

/// A proc type, behind its mark.
#[cycle(types)]
fn proc_on(alloc: Global, cursor: &mut Cursor, depth: u32) -> Result<Tall, Unread>
    ensures phrase { (s : Spot) → IfOk result (λ t. Spells grammar.simple t (token (kinds.Mark mark.Caret) s ∷ cursor.old.rest) cursor.new.rest) }
    ensures kept { OnOk result (whole cursor.new ≡ whole cursor.old) }
    ensures shorter { OnOk result (length cursor.new.rest ≤ length cursor.old.rest) }
{
    let mut head = FunctionHead::new(alloc);
    let outcome = function_from(alloc, cursor, depth, &mut head)?;
    let levels = head.levels(&outcome);
    Ok(Tall::of_fun(alloc, head.with_result(outcome), levels)?)
}

/// A type.
///
/// # Errors
///
/// `Other` where none begins, and where one is nested too deep to be read by recursion; `NoMemory` where there is none for it.
pub fn type_on(alloc: Global, cursor: &mut Cursor) -> Result<Tall, Unread>
    ensures phrase { IfOk result (λ t. Spells grammar.type t cursor.old.rest cursor.new.rest) }
    ensures kept { OnOk result (whole cursor.new ≡ whole cursor.old) }
    ensures shorter { OnOk result (length cursor.new.rest < length cursor.old.rest) }
{
    let kind = cursor.kind()?;
    type_from(alloc, cursor, DEEPEST, kind)
}

/// Types with commas between them.
///
/// # Errors
///
/// As [`type_on`].
pub fn types_on(alloc: Global, cursor: &mut Cursor) -> Result<Talls, Unread>
    ensures phrase { IfOk result (λ us. Lists grammar.type mark.Comma plain.no_tys us cursor.old.rest cursor.new.rest) }
    ensures kept { OnOk result (whole cursor.new ≡ whole cursor.old) }
    ensures shorter { OnOk result (length cursor.new.rest < length cursor.old.rest) }
{
    let none = Talls::new(alloc);
    list_on(alloc, cursor, DEEPEST, Item::Type, Mark::Comma, none)
}

/// The parameters and the block of a function, which go into its head, and its result.
///
/// # Errors
///
/// As [`type_on`].
pub fn function_on(
    alloc: Global,
    cursor: &mut Cursor,
    head: &mut FunctionHead,
) -> Result<Tall, Unread>
    requires { head.old.parameters ≡ parts.no_parameters }
    ensures phrase { IfOk result (λ outcome. grammar.Function (parts.function_with head.new outcome) cursor.old.rest cursor.new.rest) }
    ensures kept { OnOk result (whole cursor.new ≡ whole cursor.old) }
    ensures shorter { OnOk result (length cursor.new.rest < length cursor.old.rest) }
{
    function_from(alloc, cursor, DEEPEST, head)
}
