//! The printed form of signatures, as pieces of text: how it divides into tokens, and what terminals these are.
#![tactic(auto)]
