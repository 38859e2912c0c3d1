//! What has a name in a signature.

use crate::decl::TyParam;
use crate::ty::RecKey;
use names::Named;
use plain_data::Word;

impl Named for RecKey {
    ghost name_of = { λ k. k.key };

    fn name(&self) -> &Word {
        &self.key
    }
}

impl Named for TyParam {
    ghost name_of = { λ p. p.name };

    fn name(&self) -> &Word {
        &self.name
    }
}
