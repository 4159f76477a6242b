// The bench's instructions on the frame's words and its terminators, without calls: a function for each kind, over its operands.
#![tactic(auto)]

ghost use Rattle.std.specs.Prelude.{ℕ, List, ◌<◌, length};
ghost use Rattle.std.proofs.Math.Option as maths;
ghost use Rattle.definitions.specs.Ir.{IrType, Instruction, Terminator};
ghost use Rattle.definitions.specs.ContractSheet.{op_of};
ghost use Rattle.format.specs.Operators.{operator_number};
ghost use Rattle.program_nodes.specs.Nodes.{ids_in};
ghost use Rattle.machine_state.specs.declared.under_way.UnderWay.{UnderWay};
ghost use Rattle.machine_slots.specs.Slots.{id_of};
ghost use Rattle.machine_state.specs.Frames.{frame_function, Fits, Given};
ghost use Rattle.machine_state.specs.Running.{Does, Ends};
ghost use Rattle.machine_steps.specs.Steps.{went, halted, AllAsked};

use format::operators::BinOp;
use ir::{BlockId, LocalId, ValueId};
use machine_state::{Frame, Halt, UnderWay};
use program_nodes::Ids;

// Const: its result takes the number.
pub fn step_const(frame: &Frame, memory: &mut [u8], to: Option<ValueId>, word: u64)
    requires { Given (length memory.old) frame.now (id_of to) }
    ensures { (t : IrType) → Does frame.now memory.old memory.new (id_of to) (Instruction.Const t word) went }
{
    frame.give(memory, to, word);
}

// The binary instruction of an operator: the left operand, the right one, then the number.
pub fn step_binary(
    frame: &Frame,
    memory: &mut [u8],
    to: Option<ValueId>,
    op: BinOp,
    left: ValueId,
    right: ValueId,
) -> Result<(), Halt>
    requires { Given (length memory.old) frame.now (id_of to) }
    ensures { (t : IrType) → Does frame.now memory.old memory.new (id_of to) (Instruction.Binary (op_of (operator_number op)) t left.0 right.0) result }
{
    let a = frame.value(memory, left).ok_or(Halt::Unset)?;
    let b = frame.value(memory, right).ok_or(Halt::Unset)?;
    let word = machine_arithmetic::compute(op, a, b)?;
    frame.give(memory, to, word);
    Ok(())
}

// ReadLocal: its result takes the local's word.
pub fn step_read_local(
    frame: &Frame,
    memory: &mut [u8],
    to: Option<ValueId>,
    local: LocalId,
) -> Result<(), Halt>
    requires { Given (length memory.old) frame.now (id_of to) }
    ensures { (t : IrType) → Does frame.now memory.old memory.new (id_of to) (Instruction.ReadLocal local.0 t) result }
{
    let word = frame.local(memory, local).ok_or(Halt::Unset)?;
    frame.give(memory, to, word);
    Ok(())
}

// WriteLocal: the local takes the value's word.
pub fn step_write_local(
    frame: &Frame,
    memory: &mut [u8],
    local: LocalId,
    value: ValueId,
) -> Result<(), Halt>
    requires fits { Fits (length memory.old) frame.now }
    requires own { local.0 < length (frame_function frame.now).locals }
    ensures { (o : maths.Option ℕ) → Does frame.now memory.old memory.new o (Instruction.WriteLocal local.0 value.0) result }
{
    let word = frame.value(memory, value).ok_or(Halt::Unset)?;
    frame.write_local(memory, local, word);
    Ok(())
}

// Assert: its operand is asked for, and it passes.
pub fn step_assert(frame: &Frame, memory: &[u8], condition: ValueId) -> Result<(), Halt>
    requires { Fits (length memory.now) frame.now }
    ensures { (o : maths.Option ℕ) → Does frame.now memory.now memory.now o (Instruction.Assert condition.0) result }
{
    let _word = frame.value(memory, condition).ok_or(Halt::Unset)?;
    Ok(())
}

// Whether these values are all set.
pub fn all_set(frame: &Frame, memory: &[u8], values: Ids) -> Result<(), Halt>
    requires { Fits (length memory.now) frame.now }
    ensures { AllAsked frame.now memory.now (ids_in values.entry) result }
{
    for v in values {
        let _word = frame.value(memory, v).ok_or(Halt::Unset)?;
    }
    Ok(())
}

// Emit: its operands are asked for, and it passes.
pub fn step_emit(frame: &Frame, memory: &[u8], args: Ids) -> Result<(), Halt>
    requires { Fits (length memory.now) frame.now }
    ensures { (o : maths.Option ℕ) → (event : ℕ) → Does frame.now memory.now memory.now o (Instruction.Emit event (ids_in args.entry)) result }
{
    all_set(frame, memory, args)
}

// Jump: to the first block with the id.
pub fn step_jump(top: &mut UnderWay, target: BlockId) -> Result<(), Halt>
    ensures { (memory : List ℕ) → Ends memory top.old top.new (Terminator.Jump target.0) result }
{
    top.go_to(target)
}

// Branch: to the then block unless the word is 0.
pub fn step_branch(
    top: &mut UnderWay,
    memory: &[u8],
    condition: ValueId,
    then_block: BlockId,
    else_block: BlockId,
) -> Result<(), Halt>
    requires { Fits (length memory.now) top.old.frame }
    ensures { Ends memory.now top.old top.new (Terminator.Branch condition.0 then_block.0 else_block.0) result }
{
    let word = top.frame.value(memory, condition).ok_or(Halt::Unset)?;
    if word == 0 {
        return top.go_to(else_block);
    }
    top.go_to(then_block)
}

// Unreachable ends the run.
pub fn step_unreachable() -> Halt
    ensures { (memory : List ℕ) → (t : UnderWay) → Ends memory t t Terminator.Unreachable (halted result) }
{
    Halt::Unreachable
}
