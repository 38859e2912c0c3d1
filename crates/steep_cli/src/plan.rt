//! What a command line answers: the words, the files, and the outcome.

ghost use Rattle.std.specs.Prelude.{◌≡◌, ◌≤◌, ◌⊎◌, ◌↔◌, [], ◌∷◌, List, ℕ, IfOk, IfSome, IsErrOf, false};
ghost use Rattle.run_base.specs.Causes.{Rose};
ghost use Rattle.diagnostics.specs.Lines.{AllSmall};
ghost use Rattle.call_outcomes.specs.Only.{IsOnly};
ghost use Rattle.call_outcomes.specs.Code.{is_fault};
ghost use Rattle.call_outcomes.specs.Loads.{IsLoaded, IsSmall, text_of};
ghost use Rattle.call_outcomes.specs.Outcomes.{source};
ghost use Rattle.steep_cli.specs.Answer.{IsAnswer, IsChecked, IsFirst, IsSecond, IsList, is_file, is_command};

use crate::lists::list_of;
use call_outcomes::{Loaded, Outcome, PlanRefused, listed, load, refusal, usage};
use diagnostics::Source;
use plain_data::{Many, NoMemory, Word};
use print_command::print_files;
use run_base::Files;
use std::alloc::Global;

/// The two files of a check.
fn sources_of(
    alloc: Global,
    a: &Word,
    signature: Loaded,
    b: &Word,
    ruby: Loaded,
) -> Result<Many<Source>, NoMemory>
    requires signature { IsSmall signature }
    requires ruby { IsSmall ruby }
    ensures sources { IfOk result (λ sources. sources ≡ source a.now (text_of signature) ∷ source b.now (text_of ruby) ∷ []) }
    ensures small { IfOk result AllSmall }
{
    let mut sources = Many::new(alloc);
    sources.push(Source {
        name: a.clone()?,
        text: signature.into_text(alloc),
    })?;
    sources.push(Source {
        name: b.clone()?,
        text: ruby.into_text(alloc),
    })?;
    Ok(sources)
}

/// The outcome of a check of two files that were read.
fn checked(
    alloc: Global,
    a: &Word,
    signature: Loaded,
    b: &Word,
    ruby: Loaded,
) -> Result<Outcome, NoMemory>
    requires signature { IsSmall signature }
    requires ruby { IsSmall ruby }
    ensures outcome { IfOk result (λ outcome. (x y : List ℕ) → IsLoaded x signature → IsLoaded y ruby → IsOnly (IsList a.now x b.now y) outcome) }
    ensures status { IfOk result (λ outcome. is_fault outcome.status ≡ false) }
{
    let list = list_of(alloc, &signature, &ruby)?;
    let sources = sources_of(alloc, a, signature, b, ruby)?;
    listed(alloc, sources.as_slice(), list.as_slice())
}

/// Reads the second file, and checks both.
fn second<F: Files>(
    alloc: Global,
    a: &Word,
    signature: Loaded,
    b: &Word,
    files: &mut F,
) -> Result<Outcome, PlanRefused>
    requires { IsSmall signature }
    ensures told { F.told files.new ≡ F.told files.old }
    ensures later { F.faults files.old ≤ F.faults files.new }
    ensures fault { IsErrOf result PlanRefused.Fault → Rose (F.faults files.old) (F.faults files.new) }
    ensures kept { IsErrOf result PlanRefused.Fault ⊎ (F.faults files.new ≡ F.faults files.old) }
    ensures status { IfOk result (λ outcome. is_fault outcome.status ≡ false) }
    ensures outcome { IfOk result (λ outcome. IfSome (F.told files.old) (λ shelf. (x : List ℕ) → IsLoaded x signature → IsOnly (IsSecond a.now x b.now (shelf b.now)) outcome)) }
{
    match load(alloc, files, b) {
        Ok(ruby) => Ok(checked(alloc, a, signature, b, ruby)?),
        Err(refused) => refusal(alloc, b, refused),
    }
}

/// Reads both files, and checks them.
fn first<F: Files>(alloc: Global, a: &Word, b: &Word, files: &mut F) -> Result<Outcome, PlanRefused>
    ensures told { F.told files.new ≡ F.told files.old }
    ensures later { F.faults files.old ≤ F.faults files.new }
    ensures fault { IsErrOf result PlanRefused.Fault → Rose (F.faults files.old) (F.faults files.new) }
    ensures kept { IsErrOf result PlanRefused.Fault ⊎ (F.faults files.new ≡ F.faults files.old) }
    ensures status { IfOk result (λ outcome. is_fault outcome.status ≡ false) }
    ensures outcome { IfOk result (λ outcome. IfSome (F.told files.old) (λ shelf. IsOnly (IsFirst a.now (shelf a.now) b.now (shelf b.now)) outcome)) }
{
    match load(alloc, files, a) {
        Ok(signature) => second(alloc, a, signature, b, files),
        Err(refused) => refusal(alloc, a, refused),
    }
}

/// A word that names a file: it is no option, and ends so.
fn is_file(ending: &str, word: &Word) -> bool
    ensures { result ≡ is_file ending.now word.now }
{
    !word.as_bytes().starts_with(b"-") && word.as_bytes().ends_with(ending.as_bytes())
}

/// What the words behind `steep check` answer.
fn check_command<F: Files>(
    alloc: Global,
    words: &[Word],
    files: &mut F,
) -> Result<Outcome, PlanRefused>
    ensures told { F.told files.new ≡ F.told files.old }
    ensures later { F.faults files.old ≤ F.faults files.new }
    ensures fault { IsErrOf result PlanRefused.Fault → Rose (F.faults files.old) (F.faults files.new) }
    ensures kept { IsErrOf result PlanRefused.Fault ⊎ (F.faults files.new ≡ F.faults files.old) }
    ensures status { IfOk result (λ outcome. is_fault outcome.status ≡ false) }
    ensures outcome { IfOk result (λ outcome. IfSome (F.told files.old) (λ shelf. IsOnly (IsChecked words.now shelf) outcome)) }
{
    let [a, b] = words else {
        return Ok(usage(alloc, "words")?);
    };
    if is_file(".rbs", a) && is_file(".rb", b) {
        first(alloc, a, b, files)
    } else {
        Ok(usage(alloc, "words")?)
    }
}

/// The first two words are these.
fn is_command(family: &Word, command: &Word, first: &str, second: &str) -> bool
    ensures { result ≡ is_command family.now command.now first.now second.now }
{
    family.as_str() == first && command.as_str() == second
}

/// What a command line answers. Nothing is written.
pub fn plan_of<F: Files>(
    alloc: Global,
    words: &Many<Word>,
    files: &mut F,
) -> Result<Outcome, PlanRefused>
    ensures told { F.told files.new ≡ F.told files.old }
    ensures later { F.faults files.old ≤ F.faults files.new }
    ensures fault { IsErrOf result PlanRefused.Fault → Rose (F.faults files.old) (F.faults files.new) }
    ensures kept { IsErrOf result PlanRefused.Fault ⊎ (F.faults files.new ≡ F.faults files.old) }
    ensures status { IfOk result (λ outcome. is_fault outcome.status ≡ false) }
    ensures outcome { IfOk result (λ outcome. IfSome (F.told files.old) (λ shelf. IsOnly (IsAnswer words.now shelf) outcome)) }
{
    let [family, command, rest @ ..] = words.as_slice() else {
        return Ok(usage(alloc, "command")?);
    };
    if is_command(family, command, "steep", "check") {
        check_command(alloc, rest, files)
    } else if is_command(family, command, "rbs", "print") {
        print_files(alloc, rest, files)
    } else {
        Ok(usage(alloc, "command")?)
    }
}
