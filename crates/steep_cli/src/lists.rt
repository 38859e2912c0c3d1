//! The check of a signature file and a Ruby file.

ghost use Rattle.std.specs.Prelude.{◌≡◌, ◌≤◌, ◌<◌, ◌^◌, List, ℕ, length, IfOk};
ghost use Rattle.sig_model.specs.PlainDecl.{plain_decls};
ghost use Rattle.call_outcomes.specs.Only.{IsOnly};
ghost use Rattle.steep_cli.specs.Lists.{at_first, RubyLists, Lists, AnswersProgram};
ghost use Rattle.call_outcomes.specs.Loads.{IsLoaded, IsSmall};

use body_check::{check, classes_of};
use call_outcomes::Loaded;
use diagnostics::ordered;
use plain_data::{Many, NoMemory};
use sig_model::decl::Decl;
use sig_model::diag::{Diag, DiagId};
use sig_model::place::Place;
use signature_profile::read_classes;
use std::alloc::Global;

/// The number of the signature file: 0 and 1 are the core's.
const SIGNATURE: u32 = 2;

/// The number of the Ruby file.
const RUBY: u32 = 3;

/// The list of one fault of a whole file, at its first byte.
fn at_first(alloc: Global, file: u32, id: DiagId) -> Result<Many<Diag>, NoMemory>
    ensures { IfOk result (λ list. list ≡ at_first file id) }
{
    let mut list = Many::new(alloc);
    list.push(Diag {
        place: Place {
            file,
            start: 0,
            end: 0,
        },
        id,
        args: Many::new(alloc),
    })?;
    Ok(list)
}

/// The faults of a Ruby text's bodies, or `None` where it is no program for these declarations.
fn program_faults(
    alloc: Global,
    decls: &[Decl],
    bytes: &[u8],
) -> Result<Option<Many<Diag>>, NoMemory>
    requires { length bytes.now < 2 ^ 32 }
    ensures { IfOk result (AnswersProgram (plain_decls decls.now) bytes.now) }
{
    let Some(program) = ruby_reader::read(alloc, bytes)? else {
        return Ok(None);
    };
    let classes = classes_of(alloc, decls)?;
    check(alloc, RUBY, classes.as_slice(), &program)
}

/// What is listed of a Ruby text.
fn text_list(alloc: Global, decls: &[Decl], bytes: &[u8]) -> Result<Many<Diag>, NoMemory>
    requires { length bytes.now ≤ 1048576 }
    ensures { IfOk result (IsOnly (RubyLists (plain_decls decls.now) bytes.now)) }
{
    match program_faults(alloc, decls, bytes)? {
        Some(list) => Ok(ordered(list)),
        None => at_first(alloc, RUBY, DiagId::UnsupportedSyntax),
    }
}

/// What is listed of a Ruby file, where the signature file is good.
fn ruby_list(alloc: Global, decls: &[Decl], ruby: &Loaded) -> Result<Many<Diag>, NoMemory>
    requires { IsSmall ruby.now }
    ensures { IfOk result (λ list. (bytes : List ℕ) → IsLoaded bytes ruby.now → IsOnly (RubyLists (plain_decls decls.now) bytes) list) }
{
    match ruby {
        Loaded::Text(bytes) => text_list(alloc, decls, bytes.as_slice()),
        Loaded::TooLarge => at_first(alloc, RUBY, DiagId::StrictLimit),
    }
}

/// What is listed of a signature text and a Ruby file.
fn signature_list(alloc: Global, bytes: &[u8], ruby: &Loaded) -> Result<Many<Diag>, NoMemory>
    requires signature { length bytes.now ≤ 1048576 }
    requires ruby { IsSmall ruby.now }
    ensures { IfOk result (λ list. (text : List ℕ) → IsLoaded text ruby.now → IsOnly (Lists bytes.now text) list) }
{
    match read_classes(alloc, SIGNATURE, bytes)? {
        Some(decls) => ruby_list(alloc, decls.as_slice(), ruby),
        None => at_first(alloc, SIGNATURE, DiagId::SignatureSyntaxError),
    }
}

/// What a check of both files lists.
pub fn list_of(alloc: Global, signature: &Loaded, ruby: &Loaded) -> Result<Many<Diag>, NoMemory>
    requires signature { IsSmall signature.now }
    requires ruby { IsSmall ruby.now }
    ensures { IfOk result (λ list. (a b : List ℕ) → IsLoaded a signature.now → IsLoaded b ruby.now → IsOnly (Lists a b) list) }
{
    match signature {
        Loaded::Text(bytes) => signature_list(alloc, bytes.as_slice(), ruby),
        Loaded::TooLarge => at_first(alloc, SIGNATURE, DiagId::StrictLimit),
    }
}
