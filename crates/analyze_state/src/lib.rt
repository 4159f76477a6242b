// What the body check knows of the contract, and why it refuses.
#![tactic(auto)]

ghost use Rattle.std.specs.Prelude.{◌≡◌};

use contract_lookup::declarations::{Functions, Structs};
use ir::IrType;
use thiserror::Error;

// The errors of the body check, in the order of their texts in `sema.rs`, each with the place of the record whose rule raised it.
// Each has its own place, and not all one place beside a kind: with an enum for the kind and a struct around it, each `return Err(..)` names both.
#[derive(Clone, Copy, Debug, Error)]
pub enum SemaError {
    #[error("Type mismatch in assign at byte {0}")]
    AssignMismatch(usize),
    #[error("Undefined variable at byte {0}")]
    UndefinedVariable(usize),
    #[error("Type mismatch in return at byte {0}")]
    ReturnMismatch(usize),
    #[error("Undefined identifier at byte {0}")]
    UndefinedIdentifier(usize),
    #[error("Struct has no such field at byte {0}")]
    NoSuchField(usize),
    #[error("Field access on non-struct at byte {0}")]
    FieldOfNonStruct(usize),
    #[error("Field type mismatch at byte {0}")]
    FieldMismatch(usize),
    #[error("Unknown field at byte {0}")]
    UnknownField(usize),
    #[error("Undefined struct at byte {0}")]
    UndefinedStruct(usize),
    #[error("Function expects another number of args at byte {0}")]
    ArgumentCount(usize),
    #[error("Arg type mismatch at byte {0}")]
    ArgumentMismatch(usize),
    #[error("Undefined function at byte {0}")]
    UndefinedFunction(usize),
    #[error("Type mismatch in binary expression at byte {0}")]
    BinaryMismatch(usize),
}

// The Rust's `SemanticAnalyzer`: the structs and the functions of the contract, and the return type of the function under way.
#[derive(Clone, Copy)]
pub struct Analyzer<'a> {
    pub structs: &'a Structs<'a>,
    pub functions: &'a Functions<'a>,
    pub ret: IrType,
    pub ghost same_sheet: { functions.now.contract.sheet.now ≡ structs.now.contract.sheet.now },
}
