//! Facts on lists, filters, maps, orders and jobs that the proofs of several crates cite and that std doesn't have. It has
//! no function: `proofs/` is all of it, and each of its files is proved with the crate. What speaks of names, messages or
//! records stands in the lowest crate that knows them.
#![tactic(auto)]
