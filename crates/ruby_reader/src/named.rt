//! What has a name in a program.

use crate::tree::{Definition, Opening};
use names::Named;
use plain_data::Word;

impl Named for Opening {
    ghost name_of = { λ o. o.name };

    fn name(&self) -> &Word {
        &self.name
    }
}

impl Named for Definition {
    ghost name_of = { λ d. d.name };

    fn name(&self) -> &Word {
        &self.name
    }
}
