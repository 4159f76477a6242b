// What a name stands for on a contract sheet: a type, a storage field, a struct and its fields, a function.
#![tactic(auto)]

pub mod declarations; // the structs or functions, listed once, and the last of a name
pub mod symbols; // storage fields, structs and functions by name
pub mod types; // types by name
