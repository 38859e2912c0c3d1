//! Functions that are put together in one place.

ghost use Rattle.std.specs.Prelude.{◌≡◌};
ghost use Rattle.sig_model.specs.PlainTy.{plain_fun};
ghost use Rattle.sig_model.specs.Height.{fun_height};
ghost use Rattle.rbs_types.specs.Capped.{capped};
ghost use Rattle.rbs_types.specs.Parts as parts;

use crate::parts::none_yet;
use crate::state::FunctionHead;
use crate::tall::{Block, Rest, Tall, fun_of, levels_of};
use sig_model::ty::FunTy;
use std::alloc::Global;

impl FunctionHead {
    /// No parameter and no block. Takes no memory.
    pub fn new(alloc: Global) -> FunctionHead
        ensures { result ≡ parts.no_head }
    {
        FunctionHead {
            parameters: none_yet(alloc),
            key_rest: Rest::none(),
            block: Block::none(),
        }
    }

    /// The height of the tallest type of the function with this result, as far as heights are told apart.
    pub fn levels(&self, outcome: &Tall) -> u32
        ensures { result ≡ capped (fun_height (parts.function_with self.now outcome.now)) }
    {
        levels_of(&self.parameters, &self.key_rest, &self.block, outcome)
    }

    /// The function with this result.
    pub fn with_result(self, outcome: Tall) -> FunTy
        ensures { plain_fun result ≡ parts.function_with self outcome }
    {
        let FunctionHead {
            parameters,
            key_rest,
            block,
        } = self;
        fun_of(parameters, key_rest, block, outcome)
    }
}
