// The instructions on what is lent, and Store.
ghost use Rattle.std.specs.Prelude.{◌<◌, ℕ, length, IfOk};
ghost use Rattle.std.proofs.Math.Option as maths;
ghost use Rattle.definitions.specs.Ir.{IrType, Instruction};
ghost use Rattle.format.specs.Contexts.{context_number};
ghost use Rattle.machine_slots.specs.Slots.{id_of};
ghost use Rattle.machine_state.specs.Frames.{Fits, Given};
ghost use Rattle.machine_state.specs.Running.{Does, DoesState};
ghost use Rattle.machine_outside.specs.Outside.{left, ReadsState, Takes, Uses, DoesTaking, DoesContext};

use crate::lent::{Context, Outside};
use format::program::ContextKind;
use ir::ValueId;
use machine_state::{Frame, Halt};

// The slots from here on are negative.
const NEGATIVE: usize = 2147483648;

// The state word of a slot.
fn state_word(state: &[u64], slot: usize) -> Result<u64, Halt>
    ensures is { ReadsState state.now slot result }
    ensures there { IfOk result (λ _. slot < length state.now) }
{
    if NEGATIVE <= slot {
        return Err(Halt::SlotAbsent);
    }
    let word = state.get(slot).ok_or(Halt::SlotAbsent)?;
    Ok(*word)
}

// StateRead: its result takes the state word of the slot.
pub fn step_state_read(
    frame: &Frame,
    memory: &mut [u8],
    state: &[u64],
    to: Option<ValueId>,
    slot: usize,
) -> Result<(), Halt>
    requires { Given (length memory.old) frame.now (id_of to) }
    ensures { (t : IrType) → DoesState frame.now memory.old memory.new state.now state.now (id_of to) (Instruction.StateRead t slot) result }
{
    let word = state_word(state, slot)?;
    frame.give(memory, to, word);
    Ok(())
}

// StateWrite: the value, then the slot.
pub fn step_state_write(
    frame: &Frame,
    memory: &[u8],
    state: &mut [u64],
    slot: usize,
    value: ValueId,
) -> Result<(), Halt>
    requires { Fits (length memory.now) frame.now }
    ensures { (o : maths.Option ℕ) → DoesState frame.now memory.now memory.now state.old state.new o (Instruction.StateWrite slot value.0) result }
{
    let word = frame.value(memory, value).ok_or(Halt::Unset)?;
    // No `get_mut`: its Option tells nothing of a negative slot, and what it lends is not known to be unchanged where `ok_or` makes an error of it.
    let _before = state_word(state, slot)?;
    state[slot] = word;
    Ok(())
}

// The result takes the next outside result, which is then used up.
fn take_outside(
    frame: &Frame,
    memory: &mut [u8],
    outside: &mut Outside,
    to: Option<ValueId>,
) -> Result<(), Halt>
    requires { Given (length memory.old) frame.now (id_of to) }
    ensures does { Takes frame.now memory.old memory.new (left outside.old) (left outside.new) (id_of to) result }
    ensures uses { Uses outside.old outside.new result }
{
    let word = outside.next().ok_or(Halt::ListUsedUp)?;
    frame.give(memory, to, word);
    Ok(())
}

// Load: its base is asked for, then an outside result is taken.
pub fn step_load(
    frame: &Frame,
    memory: &mut [u8],
    outside: &mut Outside,
    to: Option<ValueId>,
    base: ValueId,
) -> Result<(), Halt>
    requires { Given (length memory.old) frame.now (id_of to) }
    ensures does { (t : IrType) (n : ℕ) → DoesTaking frame.now memory.old memory.new outside.old outside.new (id_of to) (Instruction.Load t base.0 n) result }
    ensures uses { Uses outside.old outside.new result }
{
    let _word = frame.value(memory, base).ok_or(Halt::Unset)?;
    take_outside(frame, memory, outside, to)
}

// Poseidon: both operands are asked for, then an outside result is taken.
pub fn step_poseidon(
    frame: &Frame,
    memory: &mut [u8],
    outside: &mut Outside,
    to: Option<ValueId>,
    lhs: ValueId,
    rhs: ValueId,
) -> Result<(), Halt>
    requires { Given (length memory.old) frame.now (id_of to) }
    ensures does { DoesTaking frame.now memory.old memory.new outside.old outside.new (id_of to) (Instruction.Poseidon lhs.0 rhs.0) result }
    ensures uses { Uses outside.old outside.new result }
{
    let _a = frame.value(memory, lhs).ok_or(Halt::Unset)?;
    let _b = frame.value(memory, rhs).ok_or(Halt::Unset)?;
    take_outside(frame, memory, outside, to)
}

// Store: both operands are asked for, then the run ends.
pub fn step_store(frame: &Frame, memory: &[u8], base: ValueId, value: ValueId) -> Result<(), Halt>
    requires { Fits (length memory.now) frame.now }
    ensures { (o : maths.Option ℕ) → (offset : ℕ) → Does frame.now memory.now memory.now o (Instruction.Store base.0 offset value.0) result }
{
    let _a = frame.value(memory, base).ok_or(Halt::Unset)?;
    let _b = frame.value(memory, value).ok_or(Halt::Unset)?;
    Err(Halt::Store)
}

// ContextRead: its result takes the context word.
pub fn step_context_read(
    frame: &Frame,
    memory: &mut [u8],
    context: Context,
    to: Option<ValueId>,
    kind: ContextKind,
)
    requires { Given (length memory.old) frame.now (id_of to) }
    ensures { DoesContext frame.now memory.old memory.new context (id_of to) (context_number kind) }
{
    let word = context.word(kind);
    frame.give(memory, to, word);
}
