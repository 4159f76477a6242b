// What an instruction or a terminator refers to, for the second pass of verifying: values, blocks, functions and locals that there are; and the types that it asks.
#![tactic(auto)]

ghost use Rattle.std.specs.Prelude.{◌≡◌};
ghost use Rattle.definitions.specs.Ir.{eq_type};
ghost use Rattle.definitions.specs.Verify.{check_value_refs};
ghost use Rattle.ir.specs.Types.{as_type};
ghost use Rattle.program_nodes.specs.Nodes.{ids_in};
ghost use Rattle.verify_state.specs.Errors.{checked_of};
ghost use Rattle.verify_state.specs.Promises.{Says, Checks};
ghost use Rattle.verify_refs.specs.Promises.{Finds, function_check, local_check, target_check, operands_check, return_check, condition_check};

use ir::{BlockId, FunctionId, IrType, LocalId, ValueId};
use program_nodes::{Function, Ids};
use verify_state::VerifyError;

// Whether two types are the same: `==` with the equation that the definitions' `eq_type` has, which the derived one does not state.
fn same_type(a: IrType, b: IrType) -> bool
    ensures { result ≡ eq_type (as_type a) (as_type b) }
{
    a == b
}

// The type of a value, which is defined (`check_value_ref`).
// Inlined: verifying asks it for each operand.
#[inline(always)]
pub fn check_value(f: Function<'_>, v: ValueId) -> Result<IrType, VerifyError>
    ensures { Finds f.entry v.0 result }
{
    program_lookup::defined_type(f, v).ok_or(VerifyError::UndefinedValue(f.name, v))
}

// Each of the values is defined.
pub fn check_values(f: Function<'_>, values: Ids<'_>) -> Result<(), VerifyError>
    ensures { Checks f.entry (checked_of result) (check_value_refs (ids_in values.entry)) }
{
    for v in values {
        check_value(f, v)?;
    }
    Ok(())
}

// A block has the id (`check_block_ref`).
pub fn check_block(f: Function<'_>, b: BlockId) -> Result<(), VerifyError>
    ensures { Says f.entry (checked_of result) (target_check f.entry b.0) }
{
    if program_lookup::has_block(f, b) {
        return Ok(());
    }
    Err(VerifyError::UndefinedBlock(f.name, b))
}

// A function has the id.
pub fn check_function(f: Function<'_>, g: FunctionId) -> Result<(), VerifyError>
    ensures { Says f.entry (checked_of result) (function_check f.entry g.0) }
{
    if program_lookup::has_function(f.program, g) {
        return Ok(());
    }
    Err(VerifyError::UndefinedFunction(f.name, g))
}

// A local has the id: there are as many as the function has types for (`check_local_ref`).
pub fn check_local(f: Function<'_>, l: LocalId) -> Result<(), VerifyError>
    ensures { Says f.entry (checked_of result) (local_check f.entry l.0) }
{
    if (l.0 as usize) < f.local_count() {
        return Ok(());
    }
    Err(VerifyError::UndefinedLocal(f.name, l))
}

// Operands: both are defined and have the instruction's type.
pub fn check_operands(
    f: Function<'_>,
    ty: IrType,
    l: ValueId,
    r: ValueId,
) -> Result<(), VerifyError>
    ensures { Checks f.entry (checked_of result) (operands_check ty l.0 r.0) }
{
    let lhs = check_value(f, l)?;
    let rhs = check_value(f, r)?;
    if !same_type(lhs, ty) || !same_type(rhs, ty) {
        return Err(VerifyError::OperandTypeMismatch(f.name, lhs, rhs));
    }
    Ok(())
}

// A return: nothing where the function's type is Void, and otherwise a value of that type.
pub fn check_return(f: Function<'_>, value: Option<ValueId>) -> Result<(), VerifyError>
    ensures { Checks f.entry (checked_of result) (return_check f.entry value) }
{
    let expected = f.return_type();
    let Some(v) = value else {
        if same_type(expected, IrType::Void) {
            return Ok(());
        }
        return Err(VerifyError::ReturnTypeMismatch(f.name, expected, None));
    };
    let got = check_value(f, v)?;
    if same_type(expected, IrType::Void) || !same_type(expected, got) {
        return Err(VerifyError::ReturnTypeMismatch(f.name, expected, Some(got)));
    }
    Ok(())
}

// The value of a branch: defined, and a Bool.
pub fn check_condition(f: Function<'_>, v: ValueId) -> Result<(), VerifyError>
    ensures { Checks f.entry (checked_of result) (condition_check v.0) }
{
    let ty = check_value(f, v)?;
    if !same_type(ty, IrType::Bool) {
        return Err(VerifyError::BranchConditionNotBool(f.name, v, ty));
    }
    Ok(())
}
