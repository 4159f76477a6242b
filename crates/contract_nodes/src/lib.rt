// A contract sheet that passed its check, as the tree that the Rust has (`ast.rs`): nodes that know where they stand, and what each of them is.
#![tactic(auto)]

// `Exprs`, `FieldInits` and `Stmts` are no generic list: each reads as a list type of its own in the definitions, and a trait of their elements would need a class,
// three readings and two laws, for three bodies of ten lines. `ParamIter` are no records: they have no size of their own, and are counted.
// A list is a place and an end, or a count, and no slice: the definitions read a sheet at places, and a refusal names them.

pub mod contract; // the contract, its declarations and what they have in them
pub mod expr; // expressions
pub mod stmt; // statements

pub use contract::{Contract, Function, Param, ParamIter, Struct};
pub use expr::{Expr, ExprNode, Exprs, FieldInit, FieldInits};
pub use stmt::{SimpleNode, Stmt, StmtNode, Stmts};
