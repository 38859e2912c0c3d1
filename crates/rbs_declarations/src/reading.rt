//! A reader of declarations within the limits, which takes one token at a time.

ghost use Rattle.std.specs.Prelude.{◌≡◌, ◌≤◌, IfOk};
ghost use Rattle.rbs_declarations.specs.Machine as machine;
ghost use Rattle.rbs_declarations.specs.Needs.{need};
ghost use Rattle.rbs_declarations.specs.Takes.{Takes, Finishes};

use crate::plain::Decls;
use crate::refused::Stuck;
use crate::state::{Focus, State};
use crate::step;
use crate::within::is_within;
use plain_data::{Boxed, Many, NoMemory};
use rbs_terminals::{Kind, Token};
use rbs_types::{Refused, Stack};
use sig_model::decl::Decl;
use std::alloc::Global;

/// What was read so far of a file, and the byte at which its last token ends, 0 where there is none.
#[derive(Drop)]
pub struct Reading {
    pub state: Boxed<State>,
    pub end: u32,
}

impl Reading {
    /// Where nothing was read yet.
    pub fn new(alloc: Global) -> Result<Reading, NoMemory>
        ensures { IfOk result (λ r. (r.state ≡ machine.start_of_file) × (r.end ≡ 0)) }
    {
        let state = State {
            decls: Decls::new(alloc),
            frames: Stack::new(alloc),
            focus: Focus::Parts,
        };
        let state = Boxed::new(alloc, state)?;
        Ok(Reading { state, end: 0 })
    }

    /// Takes the next token of the file of this number. What was read before must be within the limit of heights.
    ///
    /// # Errors
    ///
    /// `Syntax` where the token continues no text, `Limit` where it continues only texts with types that are higher than 200, with more than 400
    /// brackets and words open at a place, or with an integer past 64 bits, and `NoMemory` where there is none for what is read with it.
    #[tactic(auto, using(crate::proofs::Kept::whole_low))]
    pub fn take(self, alloc: Global, file: u32, token: Token) -> Result<Reading, Refused>
        requires { need self.state ≤ 200 }
        ensures { Takes file self.state self.end token result }
    {
        let Reading { state, end } = self;
        let past = matches!(token.kind, Kind::PastInteger);
        let token_end = token.spot.end;
        match step::advance(alloc, file, state, token) {
            Ok(state) => {
                if past || !is_within(state.get()) {
                    return Err(Refused::Limit(end));
                }
                Ok(Reading {
                    state,
                    end: token_end,
                })
            }
            Err(Stuck::Syntax) => Err(Refused::Syntax(end)),
            Err(Stuck::NoMemory) => Err(Refused::NoMemory),
        }
    }

    /// The declarations that were read, those of the file of this number.
    ///
    /// # Errors
    ///
    /// `Syntax` where a declaration isn't whole, and `NoMemory` where there is none for it.
    pub fn finish(self, alloc: Global, file: u32) -> Result<Many<Decl>, Refused>
        ensures { Finishes file self.state self.end result }
    {
        let Reading { state, end } = self;
        match step::finish(alloc, file, end, state.into_inner())? {
            Some(decls) => Ok(decls.into_items()),
            None => Err(Refused::Syntax(end)),
        }
    }
}
