//! Ruby text, from its bytes.

ghost use Rattle.std.specs.Prelude.{◌≡◌, ◌<◌, ◌^◌, length, IfOk};
ghost use Rattle.ruby_reader.specs.PlainTree.{PlainProgram};
ghost use Rattle.ruby_reader.specs.Grammar.{IsRuby};
ghost use Rattle.ruby_reader.specs.Answers.{Answers};

use crate::file::program_of;
use crate::open::keeps_open;
use crate::scopes::has_scopes;
use crate::tree::Program;
use plain_data::NoMemory;
use ruby_tokens::tokens;
use std::alloc::Global;

/// The program that a text writes, or none where the bytes are no text of the profile, more than 400
/// parentheses, classes and methods are open at one place, a statement is higher than 200 levels, or a local
/// or a class is out of scope. It fails where there is no memory. No text writes two programs.
#[tactic(auto, using(crate::proofs::Once::ruby_once))]
pub fn read(alloc: Global, bytes: &[u8]) -> Result<Option<Program>, NoMemory>
    requires { length bytes.now < 2 ^ 32 }
    ensures answer { IfOk result (Answers bytes.now) }
    ensures once { (p q : PlainProgram) → IsRuby p bytes.now → IsRuby q bytes.now → p ≡ q }
{
    let Some(tokens) = tokens(alloc, bytes)? else {
        return Ok(None);
    };
    if !keeps_open(tokens.as_slice()) {
        return Ok(None);
    }
    let Some(program) = program_of(alloc, tokens.as_slice())? else {
        return Ok(None);
    };
    if has_scopes(alloc, &program)? {
        Ok(Some(program))
    } else {
        Ok(None)
    }
}
