// Where the fields of a program sheet's records stand.
ghost use Rattle.format.specs.Contexts as numbers;

use crate::kinds::UnknownKind;
use crate::{COUNT, HEAD, ID, SLOT, TYPE, WORD};

// The program: its functions, then their names.
pub const FUNCTIONS: usize = HEAD;

// A function: its id, name and return type, then the count of its parameters and the parameters, a value and a type each. The count of its
// locals follows, then their types, then its blocks.
pub const FUNCTION_ID: usize = HEAD;

pub const FUNCTION_NAME: usize = HEAD + ID;

pub const RETURN_TYPE: usize = HEAD + 2 * ID;

pub const PARAM_COUNT: usize = RETURN_TYPE + TYPE;

pub const PARAMS: usize = PARAM_COUNT + COUNT;

pub const PARAM_TYPE: usize = ID;

pub const PARAM: usize = ID + TYPE;

// The name of a function: the name and the id.
pub const NAME_OF: usize = HEAD;

pub const NAMED_ID: usize = HEAD + ID;

// A block: its id, then its records.
pub const BLOCK_ID: usize = HEAD;

pub const RECORDS: usize = HEAD + ID;

// Instructions and terminators: what stands between the kind and the fields (nothing), and where the fields start.
pub const ORIGIN: usize = 0;

pub const FIELDS: usize = HEAD + ORIGIN;

// An instruction: its result first, then its own fields.
pub const RESULT: usize = FIELDS;

pub const OWN: usize = FIELDS + ID;

// Its type, if it has one: first of its own fields, or behind an id (ReadLocal, Call). These two serve where the kind is not known, the names of each
// kind below where it is.
pub const TYPE_FIRST: usize = OWN;

pub const TYPE_SECOND: usize = OWN + ID;

pub const CONST_TYPE: usize = OWN;

pub const CONST_VALUE: usize = OWN + TYPE;

pub const BINARY_TYPE: usize = OWN;

pub const LEFT: usize = OWN + TYPE;

pub const RIGHT: usize = LEFT + ID;

pub const LOAD_TYPE: usize = OWN;

pub const LOAD_BASE: usize = OWN + TYPE;

pub const LOAD_OFFSET: usize = LOAD_BASE + ID;

pub const STORE_BASE: usize = OWN;

pub const STORE_OFFSET: usize = OWN + ID;

pub const STORED: usize = STORE_OFFSET + WORD;

pub const STATE_READ_TYPE: usize = OWN;

pub const STATE_READ_SLOT: usize = OWN + TYPE;

pub const STATE_WRITE_SLOT: usize = OWN;

pub const STATE_WRITTEN: usize = OWN + SLOT;

pub const READ_LOCAL: usize = OWN;

pub const READ_LOCAL_TYPE: usize = OWN + ID;

pub const WRITE_LOCAL: usize = OWN;

pub const WRITE_LOCAL_VALUE: usize = OWN + ID;

pub const CALLEE: usize = OWN;

pub const CALL_TYPE: usize = OWN + ID;

pub const CALL_ARGS: usize = CALL_TYPE + TYPE;

pub const ASSERTED: usize = OWN;

pub const POSEIDON_LEFT: usize = OWN;

pub const POSEIDON_RIGHT: usize = OWN + ID;

pub const EVENT: usize = OWN;

pub const EVENT_ARGS: usize = OWN + ID;

pub const CONTEXT: usize = OWN;

// What a ContextRead can read: the Rust's `ContextKind`.
#[derive(Clone, Copy)]
pub enum ContextKind {
    MsgSender,
    MsgNonce,
    BlockNumber,
}

impl TryFrom<u16> for ContextKind {
    type Error = UnknownKind;

    ghost try_from_gives = { numbers.IsContextKind };

    fn try_from(number: u16) -> Result<Self, UnknownKind> {
        match number {
            0 => Ok(ContextKind::MsgSender),
            1 => Ok(ContextKind::MsgNonce),
            2 => Ok(ContextKind::BlockNumber),
            _ => Err(UnknownKind(number)),
        }
    }
}

// Terminators.
pub const TARGET: usize = FIELDS;

pub const CONDITION: usize = FIELDS;

pub const THEN: usize = FIELDS + ID;

pub const ELSE: usize = FIELDS + 2 * ID;

pub const RETURNED: usize = FIELDS;
