// Where the fields of a contract sheet's records stand, and what a contract may have at most.
use crate::{COUNT, HEAD, ID};

// A record's name, if it has one, its fields or operator, and what follows it.
pub const NAME: usize = HEAD;

pub const AFTER_NAME: usize = HEAD + ID;

// The contract's children; the first record of one stands here.
pub const CHILDREN: usize = AFTER_NAME;

// A storage field: its name and its type's.
pub const STORAGE_BYTES: usize = HEAD + 2 * ID;

// A field of a struct, and a parameter: its name and its type's.
pub const PARAM_TYPE: usize = ID;

pub const PARAM: usize = 2 * ID;

// A function: its name, its return type's, whether it is public, the count of its parameters, the parameters, then its statements.
pub const RETURN_TYPE: usize = HEAD + ID;

pub const PARAM_COUNT: usize = HEAD + 3 * ID;

pub const PARAMS: usize = PARAM_COUNT + COUNT;

// An Int: its number.
pub const NUMBER: usize = HEAD;

// A Binary: its operator.
pub const OPERATOR: usize = HEAD;

// The depth of the deepest record; the contract's is 1. At a function's record, so much of it is left.
pub const MOST_DEPTH: usize = 40;

pub const FUNCTION_DEPTH: usize = MOST_DEPTH - 1;

// Refusal 4: the most that a contract may have of each, a struct of fields, a function of parameters, an Emit or a Call of arguments.
pub const MOST_STORAGE: usize = 256;

pub const MOST_STRUCTS: usize = 64;

pub const MOST_FUNCTIONS: usize = 64;

pub const MOST_FIELDS: usize = 64;

pub const MOST_PARAMS: usize = 16;

pub const MOST_ARGUMENTS: usize = 16;
