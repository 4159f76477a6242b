// Verifying (`ir/verify.rs`): a program sheet to the verifier's answer.
#![tactic(auto)]

ghost use Rattle.std.specs.Prelude.{◌≡◌, [], ◌∷◌};
ghost use Rattle.definitions.specs.Answers.{verify_sheet};
ghost use Rattle.definitions.specs.Verify.{check_value_refs, verify_function, verify_functions};
ghost use Rattle.program_nodes.specs.Nodes.{ir_of, functions_of, ids_of_all, instr_is, term_is};
ghost use Rattle.verify_state.specs.Errors.{checked_of};
ghost use Rattle.verify_state.specs.Promises.{Says, Checks};
ghost use Rattle.verify_refs.specs.Promises.{instr_check, term_check};
ghost use Rattle.verify.specs.Answers.{answer_of};
ghost use Rattle.verify.specs.Promises.{block_check, blocks_check};

use ir::ValueId;
use program_nodes::{Block, Function, Instruction, Program, Record, Terminator};
use verify_define::{define_blocks, define_params};
use verify_refs::{
    check_block, check_condition, check_function, check_local, check_operands, check_return,
    check_value, check_values,
};
use verify_state::VerifyError;

pub mod refusal; // why a sheet is refused

pub use refusal::Refusal;

// The value is defined.
fn check_use(f: Function<'_>, v: ValueId) -> Result<(), VerifyError>
    ensures { Checks f.entry (checked_of result) (check_value_refs (v.0 ∷ [])) }
{
    check_value(f, v)?;
    Ok(())
}

// What an instruction refers to (`verify_instr`).
fn verify_instr(f: Function<'_>, instr: Instruction<'_>) -> Result<(), VerifyError>
    ensures { Checks f.entry (checked_of result) (instr_check f.entry (instr_is instr.entry)) }
{
    match instr {
        Instruction::Const(_, _) => Ok(()),
        Instruction::Binary(_, ty, l, r) => check_operands(f, ty, l, r),
        Instruction::Load(_, base, _) => check_use(f, base),
        Instruction::Store(base, _, value) => {
            check_use(f, base)?;
            check_use(f, value)
        }
        Instruction::StateRead(_, _) => Ok(()),
        Instruction::StateWrite(_, value) => check_use(f, value),
        Instruction::ReadLocal(local, _) => check_local(f, local),
        Instruction::WriteLocal(local, value) => {
            check_local(f, local)?;
            check_use(f, value)
        }
        Instruction::Call(function, args, _) => {
            check_function(f, function)?;
            check_values(f, args)
        }
        Instruction::Assert(condition) => check_use(f, condition),
        Instruction::Poseidon(l, r) => {
            check_use(f, l)?;
            check_use(f, r)
        }
        Instruction::Emit(_, args) => check_values(f, args),
        Instruction::ContextRead(_) => Ok(()),
    }
}

// What a terminator refers to (a part of `verify_block`).
fn verify_terminator(f: Function<'_>, term: Terminator) -> Result<(), VerifyError>
    ensures { Checks f.entry (checked_of result) (term_check f.entry (term_is term)) }
{
    match term {
        Terminator::Jump(target) => check_block(f, target),
        Terminator::Branch(condition, then_target, else_target) => {
            check_condition(f, condition)?;
            check_block(f, then_target)?;
            check_block(f, else_target)
        }
        Terminator::Return(value) => check_return(f, value),
        Terminator::Unreachable => Ok(()),
    }
}

// A block (`verify_block`).
fn verify_block(f: Function<'_>, block: Block<'_>) -> Result<(), VerifyError>
    ensures { Checks f.entry (checked_of result) (block_check f.entry block.entry) }
{
    for record in block.records() {
        match record {
            Record::Instr(instr) => verify_instr(f, instr.node())?,
            Record::Term(term) => return verify_terminator(f, term.node()),
        }
    }
    Err(VerifyError::MissingTerminator(f.name, block.id()))
}

// All blocks of a function.
fn verify_blocks(f: Function<'_>) -> Result<(), VerifyError>
    ensures { Checks f.entry (checked_of result) (blocks_check f.entry) }
{
    for block in f.blocks() {
        verify_block(f, block)?;
    }
    Ok(())
}

// A function (`verify_function`).
fn verify_function(f: Function<'_>) -> Result<(), VerifyError>
    ensures { Says f.entry (checked_of result) (verify_function (ir_of f.entry) (ids_of_all f.entry.program)) }
{
    define_params(f)?;
    define_blocks(f)?;
    verify_blocks(f)
}

// The functions of the program (`verify_program`).
fn verify_program(program: Program<'_>) -> Result<(), VerifyError>
    ensures { checked_of result ≡ verify_functions (functions_of program.entry) (ids_of_all program.entry) }
{
    for function in program.functions() {
        verify_function(function)?;
    }
    Ok(())
}

// The verifier's answer to any bytes: 1, 40, then what `verify_program` says.
pub fn verify(sheet: &[u8]) -> Result<(), Refusal>
    ensures { answer_of result ≡ verify_sheet sheet.now }
{
    if format::MOST_BYTES < sheet.len() {
        return Err(Refusal::TooLong);
    }
    let program = Program::new(sheet)?;
    verify_program(program)?;
    Ok(())
}
