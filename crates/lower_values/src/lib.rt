// What an expression comes to, once the values of its parts are known: expressions without expressions in them, operators, fields and calls.
// `LogAlone` stands beside the equation, which of a refused lowering says the error and nothing of the state.
#![tactic(auto)]

use ir::{IrType, ValueId};

pub mod calls; // what is called, and the call of it
pub mod leaves; // expressions without expressions in them, and what is done with values

// A value and its type.
pub type Value = (ValueId, IrType);
