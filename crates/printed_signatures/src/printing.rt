//! Declarations, printed.

ghost use Rattle.std.specs.Prelude.{◌≡◌, ◌++◌, OnOk, OnErr};
ghost use Rattle.sig_model.specs.PlainDecl.{plain_decls};
ghost use Rattle.rbs_printer.specs.Declarations.{printed};
ghost use Rattle.printed_signatures.specs.ReadBack.{ReadsBack};

use plain_data::{Many, NoMemory};
use sig_model::decl::Decl;
use std::alloc::Global;

/// Adds the printed form of declarations. Where some text spells them, this form spells equal declarations, the places
/// aside, which are printed so again.
///
/// # Errors
///
/// `NoMemory` where there is none for it; `out` is as before then.
pub fn print(alloc: Global, decls: &[Decl], out: &mut Many<u8>) -> Result<(), NoMemory>
    ensures printed { OnOk result (out.new ≡ out.old ++ printed (plain_decls decls.now)) }
    ensures kept { OnErr result (out.new ≡ out.old) }
    ensures read_back { ReadsBack (plain_decls decls.now) }
{
    let mut text = Many::new(alloc);
    rbs_printer::print(alloc, decls, &mut text)?;
    out.extend(text.as_slice())
}
