//! Viable prefixes: what is proved of every reader that takes one token at a time.
#![tactic(auto)]
