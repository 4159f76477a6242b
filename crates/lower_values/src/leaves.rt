// Expressions without expressions in them, and what is done with values.
ghost use Rattle.std.specs.Prelude.{◌≡◌};
ghost use Rattle.definitions.specs.ContractSheet.{op_of};
ghost use Rattle.definitions.specs.Ir as defs;
ghost use Rattle.definitions.specs.Ir.{Instruction, binary_type};
ghost use Rattle.format.specs.Operators.{operator_number};
ghost use Rattle.ir.specs.Types.{as_type};
ghost use Rattle.contract_nodes.specs.Nodes.{contract_in};
ghost use Rattle.lower_walk.specs.Exprs.{push_value, push_binary, walk_ident, walk_storage_read, walk_field};
ghost use Rattle.lower_state.specs.Answers.{with_state, KeptIfErr};
ghost use Rattle.lower_values.specs.Values.{some_value, gives_value, LogAlone};

use crate::Value;
use contract_lookup::symbols::storage_slot;
use contract_nodes::Contract;
use format::operators::BinOp;
use ir::{IrType, Name, ValueId};
use lower_emit::{emit_binary, emit_const, emit_load, emit_read_local, emit_state_read};
use lower_names::Scopes;
use lower_names::offsets::field_offset;
use lower_state::{FnCtx, LoweringError};

// An integer.
#[tactic(auto, unfolding(lower_walk::specs::Exprs::push_value))]
pub fn lower_int(ctx: &mut FnCtx, number: usize) -> Value
    ensures is { gives_value ctx.new.log result ≡ push_value (Instruction.Const defs.IrType.U64 number) defs.IrType.U64 ctx.old.log }
    ensures log_alone { LogAlone ctx.old ctx.new }
{
    (emit_const(ctx, number), IrType::U64)
}

// A name that is held.
#[tactic(auto, unfolding(lower_walk::specs::Exprs::walk_ident, lower_walk::specs::Exprs::push_value))]
pub fn lower_ident(ctx: &mut FnCtx, scopes: &Scopes, name: Name) -> Result<Value, LoweringError>
    ensures is { with_state some_value ctx.new.log result ≡ walk_ident scopes.now.held name.0 ctx.old.log }
    ensures log_alone { LogAlone ctx.old ctx.new }
    ensures refused { KeptIfErr result ctx.old ctx.new }
{
    let (local, ty) = scopes
        .lookup(name)
        .ok_or(LoweringError::UndefinedVariable(name))?;
    Ok((emit_read_local(ctx, local, ty), ty))
}

// A storage field.
#[tactic(auto, unfolding(lower_walk::specs::Exprs::walk_storage_read, lower_walk::specs::Exprs::push_value, contract_lookup::specs::Answers::slot_named))]
pub fn lower_storage_read(
    ctx: &mut FnCtx,
    contract: Contract,
    name: Name,
) -> Result<Value, LoweringError>
    ensures is { with_state some_value ctx.new.log result ≡ walk_storage_read (contract_in contract.entry) name.0 ctx.old.log }
    ensures log_alone { LogAlone ctx.old ctx.new }
    ensures refused { KeptIfErr result ctx.old ctx.new }
{
    let slot = storage_slot(contract, name).ok_or(LoweringError::UndefinedVariable(name))?;
    Ok((emit_state_read(ctx, slot), IrType::U64))
}

// A field of a value.
#[tactic(auto, unfolding(lower_walk::specs::Exprs::walk_field, lower_walk::specs::Exprs::push_value))]
pub fn lower_field(
    ctx: &mut FnCtx,
    contract: Contract,
    field: Name,
    base: ValueId,
    ty: IrType,
) -> Result<Value, LoweringError>
    ensures is { with_state some_value ctx.new.log result ≡ walk_field (contract_in contract.entry) field.0 base.0 (as_type ty) ctx.old.log }
    ensures log_alone { LogAlone ctx.old ctx.new }
    ensures refused { KeptIfErr result ctx.old ctx.new }
{
    let offset = field_offset(contract, ty, field)?;
    Ok((emit_load(ctx, base, offset), IrType::U64))
}

// What an operator gives on operands of a type.
fn binary_type(op: BinOp, ty: IrType) -> IrType
    ensures { as_type result ≡ binary_type (op_of (operator_number op)) (as_type ty) }
{
    match op {
        BinOp::Add | BinOp::Sub | BinOp::Mul | BinOp::Div => ty,
        _ => IrType::Bool,
    }
}

// An operator on two values, the left of a type.
#[tactic(auto, unfolding(lower_walk::specs::Exprs::push_value))]
pub fn lower_binary(ctx: &mut FnCtx, op: BinOp, ty: IrType, lhs: ValueId, rhs: ValueId) -> Value
    ensures is { gives_value ctx.new.log result ≡ push_binary (op_of (operator_number op)) (as_type ty) lhs.0 rhs.0 ctx.old.log }
    ensures log_alone { LogAlone ctx.old ctx.new }
{
    (emit_binary(ctx, op, ty, lhs, rhs), binary_type(op, ty))
}
