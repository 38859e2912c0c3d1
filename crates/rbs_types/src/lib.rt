//! Types of signatures, read one token at a time.
#![tactic(auto)]

mod begins;
mod behind;
mod ended;
mod functions;
mod heads;
mod keys;
mod parameters;
mod parts;
mod reading;
mod refused;
mod stack;
mod starts;
mod state;
pub mod step;
mod tall;
mod tallest;
mod text;
mod type_names;
mod within;

pub use ended::is_ended;
pub use parts::{add, grown, no_name, none_yet, root, takes_optional, takes_positional};
pub use reading::Refused;
pub use refused::Stuck;
pub use stack::Stack;
pub use starts::{start, start_arguments, start_function};
pub use state::{
    Focus, Frame, FunctionHead, Head, Level, Listed, Members, Opening, Owner, Parameters, Slot,
    State,
};
pub use tall::{Args, Block, Keys, Rest, Tall, Talls};
pub use text::read_type;
pub use type_names::is_scope;
pub use within::{is_within, need_of, reach_of};
