// The rows of a program sheet's record kinds (document 01, "Program sheet").
ghost use Rattle.std.specs.Prelude.{◌≡◌};
ghost use Rattle.definitions.specs.Grammar.{rows};
ghost use Rattle.definitions.specs.Records.{row_in};
ghost use Rattle.format.specs.Kinds.{instr_number, term_number};
ghost use Rattle.sheet_rows.specs.Tables.{row_of};

use crate::tables::{Child, Class, Entry, Field, Often, Row};
use format::kinds::{Instruction, Terminator};

pub(crate) static PROGRAM_ROW: Row = Row {
    class: Class::Program,
    fields: &[],
    children: &[
        Child {
            class: Class::IrFunction,
            often: Often::Any,
        },
        Child {
            class: Class::FunctionName,
            often: Often::Any,
        },
    ],
};

// Its id, name, return type, parameters and locals.
pub(crate) static IR_FUNCTION_ROW: Row = Row {
    class: Class::IrFunction,
    fields: &[
        Field::Id,
        Field::Id,
        Field::Type,
        Field::Counted(Entry::ValueAndType),
        Field::Counted(Entry::Type),
    ],
    children: &[Child {
        class: Class::BasicBlock,
        often: Often::Any,
    }],
};

pub(crate) static FUNCTION_NAME_ROW: Row = Row {
    class: Class::FunctionName,
    fields: &[Field::Id, Field::Id],
    children: &[],
};

pub(crate) static BASIC_BLOCK_ROW: Row = Row {
    class: Class::BasicBlock,
    fields: &[Field::Id],
    children: &[
        Child {
            class: Class::Instruction,
            often: Often::Any,
        },
        Child {
            class: Class::Terminator,
            often: Often::AtMostOnce,
        },
    ],
};

// Instructions: the result, then their own fields.
static CONST_ROW: Row = Row {
    class: Class::Instruction,
    fields: &[Field::Origin, Field::OptId, Field::Type, Field::U64],
    children: &[],
};

static BINARY_INSTRUCTION_ROW: Row = Row {
    class: Class::Instruction,
    fields: &[
        Field::Origin,
        Field::OptId,
        Field::Type,
        Field::Id,
        Field::Id,
    ],
    children: &[],
};

static LOAD_ROW: Row = Row {
    class: Class::Instruction,
    fields: &[
        Field::Origin,
        Field::OptId,
        Field::Type,
        Field::Id,
        Field::U64,
    ],
    children: &[],
};

static STORE_ROW: Row = Row {
    class: Class::Instruction,
    fields: &[
        Field::Origin,
        Field::OptId,
        Field::Id,
        Field::U64,
        Field::Id,
    ],
    children: &[],
};

static STATE_READ_ROW: Row = Row {
    class: Class::Instruction,
    fields: &[Field::Origin, Field::OptId, Field::Type, Field::U32],
    children: &[],
};

static STATE_WRITE_ROW: Row = Row {
    class: Class::Instruction,
    fields: &[Field::Origin, Field::OptId, Field::U32, Field::Id],
    children: &[],
};

static READ_LOCAL_ROW: Row = Row {
    class: Class::Instruction,
    fields: &[Field::Origin, Field::OptId, Field::Id, Field::Type],
    children: &[],
};

static TWO_IDS_ROW: Row = Row {
    class: Class::Instruction,
    fields: &[Field::Origin, Field::OptId, Field::Id, Field::Id],
    children: &[],
};

static CALL_ROW: Row = Row {
    class: Class::Instruction,
    fields: &[
        Field::Origin,
        Field::OptId,
        Field::Id,
        Field::Type,
        Field::Listed(Entry::Id),
    ],
    children: &[],
};

static ASSERT_ROW: Row = Row {
    class: Class::Instruction,
    fields: &[Field::Origin, Field::OptId, Field::Id],
    children: &[],
};

static EMIT_ROW: Row = Row {
    class: Class::Instruction,
    fields: &[
        Field::Origin,
        Field::OptId,
        Field::Id,
        Field::Listed(Entry::Id),
    ],
    children: &[],
};

static CONTEXT_READ_ROW: Row = Row {
    class: Class::Instruction,
    fields: &[Field::Origin, Field::OptId, Field::Context],
    children: &[],
};

static JUMP_ROW: Row = Row {
    class: Class::Terminator,
    fields: &[Field::Origin, Field::Id],
    children: &[],
};

static BRANCH_ROW: Row = Row {
    class: Class::Terminator,
    fields: &[Field::Origin, Field::Id, Field::Id, Field::Id],
    children: &[],
};

static RETURN_ROW: Row = Row {
    class: Class::Terminator,
    fields: &[Field::Origin, Field::OptId],
    children: &[],
};

static UNREACHABLE_ROW: Row = Row {
    class: Class::Terminator,
    fields: &[Field::Origin],
    children: &[],
};

// Inlined as `tables::row_of` is.
#[inline(always)]
#[tactic(auto, unfolding(definitions::specs::Grammar::rows, definitions::specs::Records::row_in))]
pub(crate) fn instruction_row(instruction: Instruction) -> &'static Row
    ensures { row_of result.now ≡ row_in (instr_number instruction) rows }
{
    match instruction {
        Instruction::Const => &CONST_ROW,
        Instruction::Add | Instruction::Sub | Instruction::Mul | Instruction::Div =>
            &BINARY_INSTRUCTION_ROW,
        Instruction::IrEq | Instruction::IrNe => &BINARY_INSTRUCTION_ROW,
        Instruction::Lt | Instruction::Le | Instruction::Gt | Instruction::Ge =>
            &BINARY_INSTRUCTION_ROW,
        Instruction::Load => &LOAD_ROW,
        Instruction::Store => &STORE_ROW,
        Instruction::StateRead => &STATE_READ_ROW,
        Instruction::StateWrite => &STATE_WRITE_ROW,
        Instruction::ReadLocal => &READ_LOCAL_ROW,
        Instruction::WriteLocal | Instruction::Poseidon => &TWO_IDS_ROW,
        Instruction::Call => &CALL_ROW,
        Instruction::Assert => &ASSERT_ROW,
        Instruction::Emit => &EMIT_ROW,
        Instruction::ContextRead => &CONTEXT_READ_ROW,
    }
}

// Inlined as `tables::row_of` is.
#[inline(always)]
#[tactic(auto, unfolding(definitions::specs::Grammar::rows, definitions::specs::Records::row_in))]
pub(crate) fn terminator_row(terminator: Terminator) -> &'static Row
    ensures { row_of result.now ≡ row_in (term_number terminator) rows }
{
    match terminator {
        Terminator::Jump => &JUMP_ROW,
        Terminator::Branch => &BRANCH_ROW,
        Terminator::Return => &RETURN_ROW,
        Terminator::Unreachable => &UNREACHABLE_ROW,
    }
}
