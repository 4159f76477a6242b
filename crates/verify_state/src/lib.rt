// Why the verifier refuses.
#![tactic(auto)]

use ir::{BlockId, FunctionId, IrType, LocalId, Name, ValueId};
use thiserror::Error;

// The Rust's `VerifyError`: each variant has the function's name, as the Rust's have, and here it stands first. `ResultOnNone` takes the place of a
// panic and has the number of the instruction's kind. The texts have the numbers of names and ids, as the Rust's have: its ids have no Display.
#[derive(Clone, Copy, Debug, Error)]
pub enum VerifyError {
    #[error("fn {}: undefined value %{}", .0.0, .1.0)]
    UndefinedValue(Name, ValueId),
    #[error("fn {}: value %{} defined more than once", .0.0, .1.0)]
    DuplicateValueDef(Name, ValueId),
    #[error("fn {}: undefined block bb{}", .0.0, .1.0)]
    UndefinedBlock(Name, BlockId),
    #[error("fn {}: block bb{} has no terminator", .0.0, .1.0)]
    MissingTerminator(Name, BlockId),
    #[error("fn {}: return type mismatch - expected {:?}, got {:?}", .0.0, .1, .2)]
    ReturnTypeMismatch(Name, IrType, Option<IrType>),
    #[error("fn {}: branch condition %{} has type {:?} (expected Bool)", .0.0, .1.0, .2)]
    BranchConditionNotBool(Name, ValueId, IrType),
    #[error("fn {}: operand type mismatch - lhs {:?}, rhs {:?}", .0.0, .1, .2)]
    OperandTypeMismatch(Name, IrType, IrType),
    #[error("fn {}: undefined local l{}", .0.0, .1.0)]
    UndefinedLocal(Name, LocalId),
    #[error("fn {}: call to undefined function id {}", .0.0, .1.0)]
    UndefinedFunction(Name, FunctionId),
    #[error("fn {}: an instruction of kind {} gives no result", .0.0, .1)]
    ResultOnNone(Name, u16),
}
