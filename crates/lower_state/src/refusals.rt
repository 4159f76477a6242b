// Why lowering refuses.
use ir::{FunctionId, Name};
use thiserror::Error;

// The errors of lowering (`LoweringError`); the Rust's `UnsupportedNode` is told apart by its text. The texts have the numbers of names and ids, as
// the Rust's have: its ids have no Display.
#[derive(Clone, Copy, Debug, Error)]
pub enum LoweringError {
    #[error("unresolved type: name {}", .0.0)]
    UnresolvedType(Name),
    #[error("undefined variable: name {}", .0.0)]
    UndefinedVariable(Name),
    #[error("undefined function: name {}", .0.0)]
    UndefinedFunction(Name),
    #[error("field access on non-struct type")]
    FieldOfNonStruct,
    #[error("struct {} has no field {}", .0.0, .1.0)]
    NoSuchField(Name, Name),
    #[error("struct literal is not supported")]
    StructLiteral,
    #[error("mapping read is not supported")]
    MappingRead,
    #[error("mapping write is not supported")]
    MappingWrite,
    #[error("void expression used as value")]
    VoidAsValue,
    #[error("poseidon takes exactly 2 arguments")]
    PoseidonArguments,
    #[error("verify_merkle_proof is not supported")]
    MerkleProof,
    #[error("function {} has more than 256 blocks or locals", .0.0)]
    TooManyBlocksOrLocals(FunctionId),
}
