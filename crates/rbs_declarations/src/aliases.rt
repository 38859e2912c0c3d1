//! Aliases of methods, from `alias` on.

ghost use Rattle.std.specs.Prelude.{◌≡◌, ℕ, Some, IfOk};
ghost use Rattle.rbs_declarations.specs.Machine as machine;
ghost use Rattle.rbs_declarations.specs.Words as words;
ghost use Rattle.rbs_declarations.specs.Does.{Does};

use crate::around::{Around, at};
use crate::begins::then_part;
use crate::built::method_alias;
use crate::methods::{ending_at, operator_at, with_ending};
use crate::operators::{Operator, is_operator, operator_text};
use crate::refused::Stuck;
use crate::state::{Begun, Focus, State};
use crate::texts::{double_equals, with_equals};
use crate::wholes::membered;
use crate::words::{extended_at, is_joined, method_word};
use plain_data::{NoMemory, Word};
use rbs_terminals::{Kind, Mark, Spot, Token};
use rbs_types::is_scope;
use std::alloc::Global;

/// The state behind an alias that ends at `end`.
fn with_alias(
    begun: Begun,
    new: Word,
    old: Word,
    end: u32,
    around: Around,
) -> Result<State, NoMemory>
    ensures { IfOk result (λ s. s ≡ machine.with_alias around.file begun new old end around.decls around.frames) }
{
    membered(begun, end, method_alias(new, old), around)
}

/// Behind an alias that is whole.
pub fn after_alias(
    alloc: Global,
    begun: Begun,
    new: Word,
    old: Word,
    around: Around,
    token: Token,
) -> Result<State, Stuck>
    ensures { Does (machine.then_part around.file (Some (machine.with_alias around.file begun new old token.spot.before around.decls around.frames)) token.kind token.spot) result }
{
    let file = around.file;
    let whole = with_alias(begun, new, old, token.spot.before, around)?;
    then_part(alloc, file, whole, token)
}

/// The token is a capital word.
fn is_capital(kind: &Kind) -> bool
    ensures { result ≡ words.is_capital kind.now }
{
    match kind {
        Kind::Upper(_) => true,
        _ => false,
    }
}

/// Behind the new name, and no word follows.
fn old_operator(
    begun: Begun,
    new: Word,
    around: Around,
    operator: Option<Operator>,
) -> Result<State, Stuck>
    ensures { Does (machine.old_operator around.file begun new around.decls around.frames operator) result }
{
    match operator {
        Some(operator) => Ok(at(
            Focus::OldOperator {
                begun,
                new,
                operator,
            },
            around,
        )),
        None => Err(Stuck::Syntax),
    }
}

/// Behind the new name.
pub fn after_new(
    alloc: Global,
    begun: Begun,
    new: Word,
    around: Around,
    kind: Kind,
) -> Result<State, Stuck>
    ensures { Does (machine.after_new around.file begun new around.decls around.frames kind) result }
{
    let operator = operator_at(&kind);
    let capital = is_capital(&kind);
    match method_word(alloc, kind)? {
        Some(word) => Ok(at(
            Focus::OldWord {
                begun,
                new,
                word,
                capital,
            },
            around,
        )),
        None => old_operator(begun, new, around, operator),
    }
}

/// Behind `alias`, and no word follows.
fn new_operator(begun: Begun, around: Around, operator: Option<Operator>) -> Result<State, Stuck>
    ensures { Does (machine.new_operator around.file begun around.decls around.frames operator) result }
{
    match operator {
        Some(operator) => Ok(at(Focus::NewOperator { begun, operator }, around)),
        None => Err(Stuck::Syntax),
    }
}

/// Behind `alias`.
pub fn new_begins(alloc: Global, begun: Begun, around: Around, kind: Kind) -> Result<State, Stuck>
    ensures { Does (machine.new_begins around.file begun around.decls around.frames kind (words.method_word kind)) result }
{
    let operator = operator_at(&kind);
    match method_word(alloc, kind)? {
        Some(word) => Ok(at(Focus::NewWord { begun, word }, around)),
        None => new_operator(begun, around, operator),
    }
}

/// What a mark directly behind a word as the new name does. A `=` may begin the old name too.
fn new_marked(
    alloc: Global,
    begun: Begun,
    word: Word,
    around: Around,
    mark: Mark,
) -> Result<State, Stuck>
    ensures { Does (machine.new_marked around.file begun word around.decls around.frames mark) result }
{
    match mark {
        Mark::Question => {
            let new = with_ending(word, "?")?;
            Ok(at(Focus::NewName { begun, new }, around))
        }
        Mark::Bang => {
            let new = with_ending(word, "!")?;
            Ok(at(Focus::NewName { begun, new }, around))
        }
        Mark::Equals => Ok(at(Focus::NewEquals { begun, word }, around)),
        _ => after_new(alloc, begun, word, around, Kind::Mark(mark)),
    }
}

/// Behind a word as the new name.
pub fn after_new_word(
    alloc: Global,
    begun: Begun,
    word: Word,
    around: Around,
    token: Token,
) -> Result<State, Stuck>
    ensures { Does (machine.after_new_word around.file begun word around.decls around.frames token.kind token.spot) result }
{
    let Token { kind, spot } = token;
    match kind {
        Kind::Mark(mark) => {
            if is_joined(&spot) {
                new_marked(alloc, begun, word, around, mark)
            } else {
                after_new(alloc, begun, word, around, Kind::Mark(mark))
            }
        }
        kind => after_new(alloc, begun, word, around, kind),
    }
}

/// The token is a `=` directly behind the one before it.
fn joined_equals(kind: &Kind, spot: &Spot) -> bool
    ensures { (file : ℕ) → result ≡ machine.joined_equals file kind.now spot.now }
{
    match kind {
        Kind::Mark(Mark::Equals) => is_joined(spot),
        _ => false,
    }
}

/// Behind a word and a `=` directly behind it, which ends the new name where no other one follows directly.
pub fn after_new_equals(
    alloc: Global,
    begun: Begun,
    word: Word,
    around: Around,
    token: Token,
) -> Result<State, Stuck>
    ensures { Does (machine.after_new_equals around.file begun word around.decls around.frames token.kind token.spot) result }
{
    let Token { kind, spot } = token;
    if joined_equals(&kind, &spot) {
        Ok(at(Focus::NewEqualsEquals { begun, word }, around))
    } else {
        let new = with_equals(word)?;
        after_new(alloc, begun, new, around, kind)
    }
}

/// Behind a word and two `=` directly behind it: the old name is `==` in any case, and with a third `=` the new
/// name ends with one.
pub fn after_new_equals_equals(
    alloc: Global,
    begun: Begun,
    word: Word,
    around: Around,
    token: Token,
) -> Result<State, Stuck>
    ensures { Does (machine.after_new_equals_equals around.file begun word around.decls around.frames token.kind token.spot) result }
{
    let old = double_equals(alloc)?;
    if joined_equals(&token.kind, &token.spot) {
        let new = with_equals(word)?;
        Ok(at(Focus::OldName { begun, new, old }, around))
    } else {
        after_alias(alloc, begun, word, old, around, token)
    }
}

/// Behind the marks of an operator as the new name.
pub fn new_operator_ended(
    alloc: Global,
    begun: Begun,
    operator: Operator,
    around: Around,
    token: Token,
) -> Result<State, Stuck>
    ensures { Does (machine.new_operator_ended around.file begun operator around.decls around.frames token.kind (words.extended_at operator token.kind token.spot)) result }
{
    let Token { kind, spot } = token;
    match extended_at(operator, &kind, &spot) {
        Some(operator) => Ok(at(Focus::NewOperator { begun, operator }, around)),
        None => {
            if is_operator(operator) {
                let new = Word::of(alloc, operator_text(operator))?;
                after_new(alloc, begun, new, around, kind)
            } else {
                Err(Stuck::Syntax)
            }
        }
    }
}

/// Behind a word as the old name, and no `::` goes on with it.
fn old_word_ended(
    alloc: Global,
    begun: Begun,
    new: Word,
    word: Word,
    around: Around,
    token: Token,
) -> Result<State, Stuck>
    ensures { Does (machine.old_word_ended around.file begun new word around.decls around.frames token.kind token.spot (machine.ending_at around.file token.kind token.spot)) result }
{
    match ending_at(&token.kind, &token.spot) {
        Some(ending) => {
            let old = with_ending(word, ending)?;
            Ok(at(Focus::OldName { begun, new, old }, around))
        }
        None => after_alias(alloc, begun, new, word, around, token),
    }
}

/// Behind a word as the old name. A `::` behind a capital one on its line begins no constant.
pub fn old_ending(
    alloc: Global,
    begun: Begun,
    new: Word,
    word: Word,
    capital: bool,
    around: Around,
    token: Token,
) -> Result<State, Stuck>
    ensures { Does (machine.old_ending around.file begun new word capital around.decls around.frames token.kind token.spot) result }
{
    if capital && is_scope(&token.kind, &token.spot) {
        Err(Stuck::Syntax)
    } else {
        old_word_ended(alloc, begun, new, word, around, token)
    }
}

/// Behind the marks of an operator as the old name.
pub fn old_operator_ended(
    alloc: Global,
    begun: Begun,
    new: Word,
    operator: Operator,
    around: Around,
    token: Token,
) -> Result<State, Stuck>
    ensures { Does (machine.old_operator_ended around.file begun new operator around.decls around.frames token.kind token.spot (words.extended_at operator token.kind token.spot)) result }
{
    match extended_at(operator, &token.kind, &token.spot) {
        Some(operator) => Ok(at(
            Focus::OldOperator {
                begun,
                new,
                operator,
            },
            around,
        )),
        None => {
            if is_operator(operator) {
                let old = Word::of(alloc, operator_text(operator))?;
                after_alias(alloc, begun, new, old, around, token)
            } else {
                Err(Stuck::Syntax)
            }
        }
    }
}
