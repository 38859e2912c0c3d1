//! Names of methods, from `def` up to the colon.

ghost use Rattle.std.specs.Prelude.{◌≡◌, ◌++◌, ℕ, IfOk};
ghost use Rattle.std.specs.Option.{option_copied};
ghost use Rattle.rbs_declarations.specs.Machine as machine;
ghost use Rattle.rbs_declarations.specs.Words as words;
ghost use Rattle.rbs_declarations.specs.Does.{Does};

use crate::around::{Around, at};
use crate::operators::{Operator, begun_by, is_operator, operator_text};
use crate::plain::Methods;
use crate::refused::Stuck;
use crate::state::{Begun, Focus, Signature, State};
use crate::texts::text_of_self;
use crate::words::{ending_of, extended_at, is_joined, method_word};
use plain_data::{NoMemory, Word};
use rbs_terminals::{Keyword, Kind, Mark, Spot, Token};
use sig_model::decl::Vis;
use std::alloc::Global;

/// Behind the name of a method, which is whole.
pub fn after_method_name(
    alloc: Global,
    signature: Signature,
    around: Around,
    kind: Kind,
) -> Result<State, Stuck>
    ensures { Does (machine.after_method_name around.file signature around.decls around.frames kind) result }
{
    match kind {
        Kind::Mark(Mark::Colon) => {
            let done = Methods::new(alloc);
            Ok(at(Focus::Overload { signature, done }, around))
        }
        _ => Err(Stuck::Syntax),
    }
}

/// The word with this behind it.
pub fn with_ending(word: Word, ending: &str) -> Result<Word, NoMemory>
    ensures { IfOk result (λ w. w ≡ word ++ ending.now) }
{
    let mut word = word;
    word.push_str(ending)?;
    Ok(word)
}

/// The method, with this ending behind its name.
fn renamed_with(signature: Signature, ending: &str) -> Result<Signature, NoMemory>
    ensures { (file : ℕ) → IfOk result (λ s. s ≡ machine.renamed_with file signature ending.now) }
{
    let Signature {
        begun,
        vis,
        single,
        name,
    } = signature;
    Ok(Signature {
        begun,
        vis,
        single,
        name: with_ending(name, ending)?,
    })
}

/// The ending that a token is for the word directly before it, if it is one.
pub fn ending_at(kind: &Kind, spot: &Spot) -> Option<&'static str>
    ensures { (file : ℕ) → machine.ending_at file kind.now spot.now ≡ option_copied result }
{
    match kind {
        Kind::Mark(mark) => {
            if is_joined(spot) {
                ending_of(*mark)
            } else {
                None
            }
        }
        _ => None,
    }
}

/// Behind a word as the name of a method.
pub fn after_method_word(
    alloc: Global,
    signature: Signature,
    around: Around,
    kind: Kind,
    spot: &Spot,
) -> Result<State, Stuck>
    ensures { Does (machine.after_method_word around.file signature around.decls around.frames kind spot.now) result }
{
    match ending_at(&kind, spot) {
        Some(ending) => {
            let signature = renamed_with(signature, ending)?;
            Ok(at(Focus::MethodName { signature }, around))
        }
        None => after_method_name(alloc, signature, around, kind),
    }
}

/// Behind the marks of an operator as the name of a method.
pub fn operator_ended(
    alloc: Global,
    begun: Begun,
    vis: Option<Vis>,
    single: bool,
    operator: Operator,
    around: Around,
    token: Token,
) -> Result<State, Stuck>
    ensures { Does (machine.operator_ended around.file begun vis single operator around.decls around.frames token.kind (words.extended_at operator token.kind token.spot)) result }
{
    let Token { kind, spot } = token;
    match extended_at(operator, &kind, &spot) {
        Some(operator) => Ok(at(
            Focus::MethodOperator {
                begun,
                vis,
                single,
                operator,
            },
            around,
        )),
        None => {
            if is_operator(operator) {
                let name = Word::of(alloc, operator_text(operator))?;
                let signature = Signature {
                    begun,
                    vis,
                    single,
                    name,
                };
                after_method_name(alloc, signature, around, kind)
            } else {
                Err(Stuck::Syntax)
            }
        }
    }
}

/// The operator that a token begins, if it begins one.
pub fn operator_at(kind: &Kind) -> Option<Operator>
    ensures { (file : ℕ) → result ≡ machine.operator_at file kind.now }
{
    match kind {
        Kind::Mark(mark) => begun_by(*mark),
        _ => None,
    }
}

/// Where the name of a method must come, and no word does.
fn operator_begins(
    begun: Begun,
    vis: Option<Vis>,
    single: bool,
    around: Around,
    operator: Option<Operator>,
) -> Result<State, Stuck>
    ensures { Does (machine.operator_begins around.file begun vis single around.decls around.frames operator) result }
{
    match operator {
        Some(operator) => Ok(at(
            Focus::MethodOperator {
                begun,
                vis,
                single,
                operator,
            },
            around,
        )),
        None => Err(Stuck::Syntax),
    }
}

/// Where the name of a method must come.
pub fn method_start(
    alloc: Global,
    begun: Begun,
    vis: Option<Vis>,
    single: bool,
    around: Around,
    kind: Kind,
) -> Result<State, Stuck>
    ensures { Does (machine.method_start around.file begun vis single around.decls around.frames kind) result }
{
    let operator = operator_at(&kind);
    match method_word(alloc, kind)? {
        Some(name) => {
            let signature = Signature {
                begun,
                vis,
                single,
                name,
            };
            Ok(at(Focus::MethodWord { signature }, around))
        }
        None => operator_begins(begun, vis, single, around, operator),
    }
}

/// Behind `def`.
pub fn after_def(
    alloc: Global,
    begun: Begun,
    vis: Option<Vis>,
    around: Around,
    kind: Kind,
) -> Result<State, Stuck>
    ensures { Does (machine.after_def around.file begun vis around.decls around.frames kind) result }
{
    match kind {
        Kind::Keyword(Keyword::SelfWord) => Ok(at(Focus::DefSelf { begun, vis }, around)),
        kind => method_start(alloc, begun, vis, false, around, kind),
    }
}

/// Behind `def self`, which a dot may follow, or else the method's name is `self`.
pub fn after_def_self(
    alloc: Global,
    begun: Begun,
    vis: Option<Vis>,
    around: Around,
    token: Token,
) -> Result<State, Stuck>
    ensures { Does (machine.after_def_self around.file begun vis around.decls around.frames token.kind token.spot) result }
{
    let Token { kind, spot } = token;
    match kind {
        Kind::Mark(Mark::Dot) => {
            let single = true;
            Ok(at(Focus::MethodStart { begun, vis, single }, around))
        }
        kind => {
            let name = text_of_self(alloc)?;
            let single = false;
            let signature = Signature {
                begun,
                vis,
                single,
                name,
            };
            after_method_word(alloc, signature, around, kind, &spot)
        }
    }
}
