// The bench's instructions on what is lent, a function for each kind, over its operands: state words, outside results, context words; and Store, which ends
// the run.
#![tactic(auto)]

pub mod lent; // what is lent
pub mod steps; // the instructions

pub use lent::{Context, Outside};
