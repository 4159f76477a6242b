// The numbers of both sheets' format (docs/FORMAT.md), each said once (of kinds: `kinds`). Places are counted from a record's first byte.
#![tactic(auto)]

pub mod contract; // where the fields of a contract sheet's records stand, and the limits of a contract
pub mod kinds; // record kinds
pub mod operators; // the operators of a Binary
pub mod program; // where the fields of a program sheet's records stand

// A sheet's most bytes.
pub const MOST_BYTES: usize = 32768;

// What stands in place of an id or a name that is absent, and the highest id or name.
pub const ABSENT: u16 = 65535;

pub const HIGHEST_ID: usize = ABSENT as usize - 1;

// The bytes of a record's length, its kind, a count, an id or a name, a number of 64 bits, a slot of the state, and a type: its tag, then a name.
pub const LENGTH_BYTES: usize = 4;

pub const KIND_BYTES: usize = 2;

pub const COUNT: usize = 2;

pub const ID: usize = 2;

pub const WORD: usize = 8;

pub const SLOT: usize = 4;

// What the upper two of four bytes count, where two numbers of two bytes each are one number.
pub const HIGH_HALF: usize = 65536;

pub const TAG: usize = 2;

pub const TYPE: usize = TAG + ID;

// A record's head: its length at its first byte, then its kind.
pub const KIND: usize = LENGTH_BYTES;

pub const HEAD: usize = KIND + KIND_BYTES;
