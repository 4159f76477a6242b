// The rows of a contract sheet's record kinds (document 01, "Contract sheet").
ghost use Rattle.std.specs.Prelude.{◌≡◌};
ghost use Rattle.definitions.specs.Grammar.{rows};
ghost use Rattle.definitions.specs.Records.{row_in};
ghost use Rattle.format.specs.Kinds.{declaration_number, stmt_number, expr_number};
ghost use Rattle.sheet_rows.specs.Tables.{row_of};

use crate::tables::{Child, Class, Entry, Field, Often, Row};
use format::kinds::{Declaration, Expr, Stmt};

const EXPR: Child = Child {
    class: Class::Expr,
    often: Often::Once,
};

const OPT_EXPR: Child = Child {
    class: Class::Expr,
    often: Often::AtMostOnce,
};

const EXPRS: Child = Child {
    class: Class::Expr,
    often: Often::Any,
};

const STMTS: Child = Child {
    class: Class::Stmt,
    often: Often::Any,
};

const BLOCK: Child = Child {
    class: Class::Block,
    often: Often::Once,
};

const OPT_BLOCK: Child = Child {
    class: Class::Block,
    often: Often::AtMostOnce,
};

const FIELD_INITS: Child = Child {
    class: Class::FieldInit,
    often: Often::Any,
};

pub(crate) static CONTRACT_ROW: Row = Row {
    class: Class::Contract,
    fields: &[Field::Id],
    children: &[
        Child {
            class: Class::Storage,
            often: Often::Any,
        },
        Child {
            class: Class::Struct,
            often: Often::Any,
        },
        Child {
            class: Class::Function,
            often: Often::Any,
        },
    ],
};

static STORAGE_ROW: Row = Row {
    class: Class::Storage,
    fields: &[Field::Id, Field::Id],
    children: &[],
};

static STRUCT_ROW: Row = Row {
    class: Class::Struct,
    fields: &[Field::Id, Field::Listed(Entry::NameAndType)],
    children: &[],
};

// Its name, return type, whether it is public, and its parameters.
static FUNCTION_ROW: Row = Row {
    class: Class::Function,
    fields: &[
        Field::Id,
        Field::OptId,
        Field::Flag,
        Field::Counted(Entry::NameAndType),
    ],
    children: &[STMTS],
};

pub(crate) static BLOCK_ROW: Row = Row {
    class: Class::Block,
    fields: &[],
    children: &[STMTS],
};

pub(crate) static FIELD_INIT_ROW: Row = Row {
    class: Class::FieldInit,
    fields: &[Field::Id],
    children: &[EXPR],
};

static NAME_AND_EXPR_ROW: Row = Row {
    class: Class::Stmt,
    fields: &[Field::Id],
    children: &[EXPR],
};

static ONE_EXPR_ROW: Row = Row {
    class: Class::Stmt,
    fields: &[],
    children: &[EXPR],
};

static MAPPING_WRITE_ROW: Row = Row {
    class: Class::Stmt,
    fields: &[Field::Id],
    children: &[EXPR, EXPR],
};

static IF_ROW: Row = Row {
    class: Class::Stmt,
    fields: &[],
    children: &[EXPR, BLOCK, OPT_BLOCK],
};

static WHILE_ROW: Row = Row {
    class: Class::Stmt,
    fields: &[],
    children: &[EXPR, BLOCK],
};

static FOR_ROW: Row = Row {
    class: Class::Stmt,
    fields: &[Field::Id],
    children: &[EXPR, EXPR, BLOCK],
};

static RETURN_STMT_ROW: Row = Row {
    class: Class::Stmt,
    fields: &[],
    children: &[OPT_EXPR],
};

static EMIT_STMT_ROW: Row = Row {
    class: Class::Stmt,
    fields: &[Field::Id],
    children: &[EXPRS],
};

static INT_ROW: Row = Row {
    class: Class::Expr,
    fields: &[Field::U64],
    children: &[],
};

static NAME_ROW: Row = Row {
    class: Class::Expr,
    fields: &[Field::Id],
    children: &[],
};

static NAME_OF_EXPR_ROW: Row = Row {
    class: Class::Expr,
    fields: &[Field::Id],
    children: &[EXPR],
};

static STRUCT_LITERAL_ROW: Row = Row {
    class: Class::Expr,
    fields: &[Field::Id],
    children: &[FIELD_INITS],
};

static BINARY_ROW: Row = Row {
    class: Class::Expr,
    fields: &[Field::Operator],
    children: &[EXPR, EXPR],
};

static CALL_EXPR_ROW: Row = Row {
    class: Class::Expr,
    fields: &[Field::Id],
    children: &[EXPRS],
};

// Inlined as `tables::row_of` is.
#[inline(always)]
#[tactic(auto, unfolding(definitions::specs::Grammar::rows, definitions::specs::Records::row_in))]
pub(crate) fn declaration_row(declaration: Declaration) -> &'static Row
    ensures { row_of result.now ≡ row_in (declaration_number declaration) rows }
{
    match declaration {
        Declaration::Storage => &STORAGE_ROW,
        Declaration::Struct => &STRUCT_ROW,
        Declaration::Function => &FUNCTION_ROW,
    }
}

// Inlined as `tables::row_of` is.
#[inline(always)]
#[tactic(auto, unfolding(definitions::specs::Grammar::rows, definitions::specs::Records::row_in))]
pub(crate) fn stmt_row(stmt: Stmt) -> &'static Row
    ensures { row_of result.now ≡ row_in (stmt_number stmt) rows }
{
    match stmt {
        Stmt::Let | Stmt::Assign | Stmt::StorageWrite => &NAME_AND_EXPR_ROW,
        Stmt::Constrain | Stmt::Expr => &ONE_EXPR_ROW,
        Stmt::MappingWrite => &MAPPING_WRITE_ROW,
        Stmt::If => &IF_ROW,
        Stmt::While => &WHILE_ROW,
        Stmt::For => &FOR_ROW,
        Stmt::Return => &RETURN_STMT_ROW,
        Stmt::Emit => &EMIT_STMT_ROW,
    }
}

// Inlined as `tables::row_of` is.
#[inline(always)]
#[tactic(auto, unfolding(definitions::specs::Grammar::rows, definitions::specs::Records::row_in))]
pub(crate) fn expr_row(expr: Expr) -> &'static Row
    ensures { row_of result.now ≡ row_in (expr_number expr) rows }
{
    match expr {
        Expr::Int => &INT_ROW,
        Expr::Ident | Expr::StorageRead => &NAME_ROW,
        Expr::MappingRead | Expr::FieldAccess => &NAME_OF_EXPR_ROW,
        Expr::StructLiteral => &STRUCT_LITERAL_ROW,
        Expr::Binary => &BINARY_ROW,
        Expr::Call => &CALL_EXPR_ROW,
    }
}
