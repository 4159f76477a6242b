// Instructions and terminators appended to the log, each by one call. An instruction that gives a value takes the next one from the counters.
#![tactic(auto)]

ghost use Rattle.std.specs.Prelude.{◌≡◌, ◌<◌, []};
ghost use Rattle.definitions.specs.ContractSheet.{op_of};
ghost use Rattle.definitions.specs.InstrTable.{binary_kind};
ghost use Rattle.definitions.specs.Ir as defs;
ghost use Rattle.definitions.specs.Ir.{Instruction, Terminator, tag_of};
ghost use Rattle.format.specs.Contexts.{context_number};
ghost use Rattle.format.specs.Kinds.{instr_number};
ghost use Rattle.format.specs.Operators.{operator_number};
ghost use Rattle.ir.specs.Answers.{option_of};
ghost use Rattle.ir.specs.Types.{as_type, type_code};
ghost use Rattle.lower_walk.specs.Stmts.{taken};
ghost use Rattle.lower_state.specs.Bytes.{part_in, record_bytes};
ghost use Rattle.lower_state.specs.State.{appended};
ghost use Rattle.lower_emit.specs.Emitted.{Pushes, Appends, AppendsTerm};

use format::operators::BinOp;
use format::program::ContextKind;
use format::{TYPE, kinds};
use ir::{BlockId, FunctionId, IrType, LocalId, Name, U64_TAG, VOID_TAG, ValueId};
use lower_state::{FnCtx, Part, id_or_absent};

pub mod args; // the values of a call's or an event's arguments

pub use args::Args;

const NOTHING: Part = Part::NOTHING;

// The types U64 and Void: tags alone, since they have no name. They are no `Part::four`, which is no constant.
const U64: Part = Part {
    width: TYPE,
    number: U64_TAG,
};

const VOID: Part = Part {
    width: TYPE,
    number: VOID_TAG,
};

// A type as a part of a record.
fn type_part(ty: IrType) -> Part
    ensures { part_in result ≡ (4, type_code (as_type ty)) }
{
    Part::four(u32::from(ty) as usize)
}

// `push_instr` of an instruction that gives a value, which is the next one.
fn push_instr(ctx: &mut FnCtx, kind: kinds::Instruction, a: Part, b: Part, c: Part) -> ValueId
    ensures number { result.0 ≡ ctx.old.log.value }
    ensures is { ctx.new ≡ appended (record_bytes (instr_number kind) result.0 (part_in a) (part_in b) (part_in c) []) (taken ctx.old) }
{
    let id = ctx.next_value();
    ctx.append(kind, Some(id), a, b, c);
    id
}

// Const, of type U64.
pub fn emit_const(ctx: &mut FnCtx, value: usize) -> ValueId
    ensures { Pushes (Instruction.Const defs.IrType.U64 value) ctx.old ctx.new result }
{
    push_instr(
        ctx,
        kinds::Instruction::Const,
        U64,
        Part::eight(value),
        NOTHING,
    )
}

// The kind of an operator's instruction. No `From` of crates/format, which has no definition to promise it by.
fn binary_kind(op: BinOp) -> kinds::Instruction
    ensures { instr_number result ≡ binary_kind (op_of (operator_number op)) }
{
    match op {
        BinOp::Add => kinds::Instruction::Add,
        BinOp::Sub => kinds::Instruction::Sub,
        BinOp::Mul => kinds::Instruction::Mul,
        BinOp::Div => kinds::Instruction::Div,
        BinOp::Eq => kinds::Instruction::IrEq,
        BinOp::Neq => kinds::Instruction::IrNe,
        BinOp::Lt => kinds::Instruction::Lt,
        BinOp::Gt => kinds::Instruction::Gt,
        BinOp::Lte => kinds::Instruction::Le,
        BinOp::Gte => kinds::Instruction::Ge,
    }
}

// The ten operators.
pub fn emit_binary(ctx: &mut FnCtx, op: BinOp, ty: IrType, lhs: ValueId, rhs: ValueId) -> ValueId
    ensures { Pushes (Instruction.Binary (op_of (operator_number op)) (as_type ty) lhs.0 rhs.0) ctx.old ctx.new result }
{
    let left = Part::id(lhs.0);
    let right = Part::id(rhs.0);
    push_instr(ctx, binary_kind(op), type_part(ty), left, right)
}

// Load, of type U64.
pub fn emit_load(ctx: &mut FnCtx, base: ValueId, offset: usize) -> ValueId
    ensures { Pushes (Instruction.Load defs.IrType.U64 base.0 offset) ctx.old ctx.new result }
{
    push_instr(
        ctx,
        kinds::Instruction::Load,
        U64,
        Part::id(base.0),
        Part::eight(offset),
    )
}

// StateRead, of type U64.
pub fn emit_state_read(ctx: &mut FnCtx, slot: usize) -> ValueId
    ensures { Pushes (Instruction.StateRead defs.IrType.U64 slot) ctx.old ctx.new result }
{
    push_instr(
        ctx,
        kinds::Instruction::StateRead,
        U64,
        Part::four(slot),
        NOTHING,
    )
}

pub fn emit_state_write(ctx: &mut FnCtx, slot: usize, value: ValueId)
    ensures { Appends (Instruction.StateWrite slot value.0) ctx.old ctx.new }
{
    ctx.append(
        kinds::Instruction::StateWrite,
        None,
        Part::four(slot),
        Part::id(value.0),
        NOTHING,
    );
}

pub fn emit_read_local(ctx: &mut FnCtx, local: LocalId, ty: IrType) -> ValueId
    ensures { Pushes (Instruction.ReadLocal local.0 (as_type ty)) ctx.old ctx.new result }
{
    push_instr(
        ctx,
        kinds::Instruction::ReadLocal,
        Part::id(local.0),
        type_part(ty),
        NOTHING,
    )
}

pub fn emit_write_local(ctx: &mut FnCtx, local: LocalId, value: ValueId)
    ensures { Appends (Instruction.WriteLocal local.0 value.0) ctx.old ctx.new }
{
    ctx.append(
        kinds::Instruction::WriteLocal,
        None,
        Part::id(local.0),
        Part::id(value.0),
        NOTHING,
    );
}

// Call of a function that gives a value. Two functions, and `lower_values::call_user` tests the type: one for both would be the same test over the
// same two bodies.
pub fn emit_call(ctx: &mut FnCtx, function: FunctionId, ty: IrType, args: &Args) -> ValueId
    requires { tag_of (as_type ty) < 4 }
    ensures { Pushes (Instruction.Call function.0 args.now (as_type ty)) ctx.old ctx.new result }
{
    let id = ctx.next_value();
    let function = Part::id(function.0);
    ctx.append_list(
        kinds::Instruction::Call,
        Some(id),
        function,
        type_part(ty),
        args.as_slice(),
    );
    id
}

// Call of a function that gives none.
pub fn emit_call_void(ctx: &mut FnCtx, function: FunctionId, args: &Args)
    ensures { Appends (Instruction.Call function.0 args.now defs.IrType.Void) ctx.old ctx.new }
{
    let function = Part::id(function.0);
    ctx.append_list(
        kinds::Instruction::Call,
        None,
        function,
        VOID,
        args.as_slice(),
    );
}

pub fn emit_assert(ctx: &mut FnCtx, condition: ValueId)
    ensures { Appends (Instruction.Assert condition.0) ctx.old ctx.new }
{
    ctx.append(
        kinds::Instruction::Assert,
        None,
        Part::id(condition.0),
        NOTHING,
        NOTHING,
    );
}

pub fn emit_poseidon(ctx: &mut FnCtx, lhs: ValueId, rhs: ValueId) -> ValueId
    ensures { Pushes (Instruction.Poseidon lhs.0 rhs.0) ctx.old ctx.new result }
{
    push_instr(
        ctx,
        kinds::Instruction::Poseidon,
        Part::id(lhs.0),
        Part::id(rhs.0),
        NOTHING,
    )
}

// Emit.
pub fn emit_event(ctx: &mut FnCtx, event: Name, args: &Args)
    ensures { Appends (Instruction.Emit event.0 args.now) ctx.old ctx.new }
{
    ctx.append_list(
        kinds::Instruction::Emit,
        None,
        Part::id(event.0),
        NOTHING,
        args.as_slice(),
    );
}

pub fn emit_context_read(ctx: &mut FnCtx, context: ContextKind) -> ValueId
    ensures { Pushes (Instruction.ContextRead (context_number context)) ctx.old ctx.new result }
{
    push_instr(
        ctx,
        kinds::Instruction::ContextRead,
        Part::id(context as u16),
        NOTHING,
        NOTHING,
    )
}

pub fn emit_jump(ctx: &mut FnCtx, target: BlockId)
    ensures { AppendsTerm (Terminator.Jump target.0) ctx.old ctx.new }
{
    ctx.append_terminator(kinds::Terminator::Jump, target.0, NOTHING, NOTHING);
}

pub fn emit_branch(ctx: &mut FnCtx, condition: ValueId, then_block: BlockId, else_block: BlockId)
    ensures { AppendsTerm (Terminator.Branch condition.0 then_block.0 else_block.0) ctx.old ctx.new }
{
    let yes = Part::id(then_block.0);
    let no = Part::id(else_block.0);
    ctx.append_terminator(kinds::Terminator::Branch, condition.0, yes, no);
}

pub fn emit_return(ctx: &mut FnCtx, value: Option<ValueId>)
    ensures { AppendsTerm (Terminator.Return (option_of (λ v. v.0) value)) ctx.old ctx.new }
{
    ctx.append_terminator(
        kinds::Terminator::Return,
        id_or_absent(value),
        NOTHING,
        NOTHING,
    );
}
