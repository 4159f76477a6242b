// Records appended to the log, as bytes.
ghost use Rattle.std.specs.Prelude.{◌≡◌, ◌+◌, ◌*◌, ◌≤◌, length, Some};
ghost use Rattle.definitions.specs.Fields.{bytes};
ghost use Rattle.lower_state.specs.Bytes.{part_in, first_number, record_bytes, id_bytes, ids_of, Put, Added};
ghost use Rattle.lower_state.specs.Restored.{ZerosBehind};

use crate::{Log, Part};
use format::{ABSENT, ID, KIND_BYTES, LENGTH_BYTES, MOST_BYTES, program};
use ir::ValueId;

// An id, or what stands for none.
pub fn id_or_absent(id: Option<ValueId>) -> u16
    ensures { result ≡ first_number id }
{
    match id {
        Some(id) => id.0,
        None => ABSENT,
    }
}

// The n bytes of v, for which there is room; the place behind them.
fn put(log: &mut Log, at: usize, n: usize, v: usize) -> usize
    requires { at + n ≤ 32768 }
    ensures put { Put (bytes n v) log.old at log.new result }
    ensures behind { result ≡ at + n }
{
    writer::write(log, at, n, v);
    at + n
}

// Ids, for which there is room; the place behind them.
fn put_ids(log: &mut Log, at: usize, ids: &[ValueId]) -> usize
    requires { at + 2 * length ids.now ≤ 32768 }
    ensures { Put (id_bytes (ids_of ids.now)) log.old at log.new result }
{
    let mut to = at;
    for id in ids {
        to = put(log, to, ID, id.0 as usize);
    }
    to
}

// A record, if there is room for it: its size, its kind, the two bytes that its fields start with, up to three parts, and ids. The place
// behind it; a log without room is cleared.
pub(crate) fn put_record(
    log: &mut Log,
    at: usize,
    kind: u16,
    first: u16,
    a: Part,
    b: Part,
    c: Part,
    ids: &[ValueId],
) -> Option<usize>
    requires { length ids.now ≤ 16 }
    ensures added { Added log.old at (record_bytes kind first (part_in a) (part_in b) (part_in c) (ids_of ids.now)) log.new result }
    ensures zeros { ZerosBehind log.old (Some at) → ZerosBehind log.new result }
{
    let size = program::OWN + a.width + b.width + c.width + ID * ids.len();
    if MOST_BYTES - size < at {
        log.fill(0);
        return None;
    }
    let to = put(log, at, LENGTH_BYTES, size);
    let to = put(log, to, KIND_BYTES, kind as usize);
    let to = put(log, to, program::ORIGIN, 0);
    let to = put(log, to, ID, first as usize);
    let to = put(log, to, a.width, a.number);
    let to = put(log, to, b.width, b.number);
    let to = put(log, to, c.width, c.number);
    Some(put_ids(log, to, ids))
}
