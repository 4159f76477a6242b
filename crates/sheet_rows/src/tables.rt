// What the row of a record kind says (document 01, "Contract sheet" and "Program sheet"), and the row of each kind.
ghost use Rattle.std.specs.Prelude.{◌≡◌};
ghost use Rattle.definitions.specs.Grammar.{rows};
ghost use Rattle.definitions.specs.Records.{row_in};
ghost use Rattle.format.specs.Kinds.{kind_number};
ghost use Rattle.sheet_rows.specs.Tables.{row_of};

use crate::contract_rows::{
    BLOCK_ROW, CONTRACT_ROW, FIELD_INIT_ROW, declaration_row, expr_row, stmt_row,
};
use crate::program_rows::{
    BASIC_BLOCK_ROW, FUNCTION_NAME_ROW, IR_FUNCTION_ROW, PROGRAM_ROW, instruction_row,
    terminator_row,
};
use format::kinds::{InBlock, Kind};

// What a record is, to the record around it.
#[derive(Clone, Copy, PartialEq, Eq)]
pub enum Class {
    Contract,
    Storage,
    Struct,
    Function,
    Block,
    FieldInit,
    Stmt,
    Expr,
    Program,
    IrFunction,
    FunctionName,
    BasicBlock,
    Instruction,
    Terminator,
}

#[derive(Clone, Copy, PartialEq, Eq)]
pub enum Often {
    Once,
    AtMostOnce,
    Any,
}

// What may come next among a record's children.
#[derive(Clone, Copy)]
pub struct Child {
    pub class: Class,
    pub often: Often,
}

#[derive(Clone, Copy)]
pub enum Entry {
    Id,
    Type,
    ValueAndType,
    NameAndType,
}

// A field. The entries of a list are counted before the first, or go on to the record's end.
#[derive(Clone, Copy)]
pub enum Field {
    Origin, // what stands before the own fields of an instruction or terminator
    Id, // of anything, or a name
    OptId,
    Type,
    U64,
    U32,
    Flag,
    Operator,
    Context,
    Counted(Entry),
    Listed(Entry),
}

// A record's class, its fixed fields, and its children in order.
#[derive(Clone, Copy)]
pub struct Row {
    pub class: Class,
    pub fields: &'static [Field],
    pub children: &'static [Child],
}

// Inlined, with the rows of each class of kinds, as `Kind::try_from` is: by two calls for each record, the form of a sheet takes half as long again.
#[inline(always)]
#[tactic(auto, unfolding(definitions::specs::Grammar::rows, definitions::specs::Records::row_in))]
pub fn row_of(kind: Kind) -> &'static Row
    ensures { row_of result.now ≡ row_in (kind_number kind) rows }
{
    match kind {
        Kind::Contract => &CONTRACT_ROW,
        Kind::Declaration(declaration) => declaration_row(declaration),
        Kind::Block => &BLOCK_ROW,
        Kind::FieldInit => &FIELD_INIT_ROW,
        Kind::Stmt(stmt) => stmt_row(stmt),
        Kind::Expr(expr) => expr_row(expr),
        Kind::Program => &PROGRAM_ROW,
        Kind::IrFunction => &IR_FUNCTION_ROW,
        Kind::FunctionName => &FUNCTION_NAME_ROW,
        Kind::BasicBlock => &BASIC_BLOCK_ROW,
        Kind::InBlock(InBlock::Instruction(instruction)) => instruction_row(instruction),
        Kind::InBlock(InBlock::Terminator(terminator)) => terminator_row(terminator),
    }
}
