// A program sheet that passed 40, as the program that the Rust has (`ir/mod.rs`): nodes that know where they stand, and what each of them is.
// A list of nodes is a place and an end (or a count), and no slice: the definitions read a sheet at places, and a refusal names them. Five iterators
// by hand, and no plainer: a trait of what they give would need a width or a length, a reading and its law, for bodies of six lines.
#![tactic(auto)]

pub mod block; // blocks and their records
pub mod instr; // instructions and what they are
pub mod program; // the program, its functions and their parameters
pub mod term; // terminators and what they are

pub use block::{Block, Blocks, Record, Records};
pub use instr::{Ids, Instr, Instruction};
pub use program::{Function, Functions, Param, Params, Program, function_at};
pub use term::{Term, Terminator};
