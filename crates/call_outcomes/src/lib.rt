//! What a call of the program answers: its status, its texts, the files that it reads, and the list that it prints.
#![tactic(auto)]

mod gathering;
mod lists;
mod loading;
mod outcome;
mod refused;
mod status;
#[cfg(test)]
mod tests;

pub use gathering::{KeptFile, MOST_BYTES, Stopped, gather, sources_of};
pub use lists::listed;
pub use loading::{LIMIT, LoadRefused, Loaded, load};
pub use outcome::{Outcome, missing, read_fault, usage};
pub use refused::{PlanRefused, refusal};
pub use status::Status;
