//! What has a name in a signature.

use crate::table::{ClassMethods, MethodEntry};
use names::Named;
use plain_data::Word;

impl Named for ClassMethods {
    ghost name_of = { λ c. c.name };

    fn name(&self) -> &Word {
        &self.name
    }
}

impl Named for MethodEntry {
    ghost name_of = { λ m. m.name };

    fn name(&self) -> &Word {
        &self.name
    }
}
