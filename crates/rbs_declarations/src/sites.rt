//! Where a part of a file stands.

ghost use Rattle.std.specs.Prelude.{◌≡◌};
ghost use Rattle.rbs_declarations.specs.Machine as machine;
ghost use Rattle.rbs_declarations.specs.Does.{use_for};
ghost use Rattle.rbs_declarations.specs.Sites.{site_for};

use crate::state::{Frame, Heading};
use crate::type_names::NameUse;
use rbs_types::Stack;

/// Where a part stands.
#[derive(Clone, Copy, Debug, PartialEq, Eq, Drop)]
pub enum Site {
    /// In no declaration.
    File,
    /// In a class or a module.
    Class,
    Interface,
}

/// Where the parts behind this heading stand.
fn site_in(heading: &Heading) -> Site
    ensures { site_for result ≡ machine.site_in heading.now }
{
    match heading {
        Heading::Class { .. } | Heading::Module { .. } => Site::Class,
        Heading::Interface { .. } => Site::Interface,
    }
}

/// Where a part stands with these declarations open.
pub fn site_of(frames: &Stack<Frame>) -> Site
    ensures { site_for result ≡ machine.site_of frames.now }
{
    match frames.as_slice().split_last() {
        Some((frame, _)) => site_in(&frame.heading),
        None => Site::File,
    }
}

impl Site {
    /// What an `include` and the like may name here.
    pub fn mixin_use(self) -> NameUse
        ensures { use_for result ≡ machine.mixin_use (site_for self) }
    {
        match self {
            Site::Interface => NameUse::Interface,
            Site::File | Site::Class => NameUse::Class,
        }
    }
}
