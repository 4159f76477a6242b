// What lowering keeps of a function under way, and why it refuses.
#![tactic(auto)]

use format::MOST_BYTES;

pub mod ctx; // a function under way
mod part; // a part of a record
mod records; // records appended to the log
pub mod refusals; // why lowering refuses

pub use ctx::{FnCtx, ThreeBlocks};
pub use part::Part;
pub use records::id_or_absent;
pub use refusals::LoweringError;

// How many blocks and how many locals a function may have.
pub const MOST_BLOCKS: usize = 256;

pub const MOST_LOCALS: usize = 256;

// The records of all blocks of a function, in the order of the walk.
type Log = [u8; MOST_BYTES];

// The number of a span for a place of the log that is over the room. Not None: the state of the walk, which a clause sees, has numbers.
const LOST: usize = MOST_BYTES + 1;
