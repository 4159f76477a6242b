// The first pass of verifying: each value of a function is defined once, and what has a result gives one.
#![tactic(auto)]

ghost use Rattle.verify_state.specs.Errors.{checked_of};
ghost use Rattle.verify_define.specs.Promises.{DefinesResult, DefinesBlock, DefinesBlocks, DefinesParams};

use program_nodes::{Block, Function, Instr, Record};
use verify_state::VerifyError;

// The parameters of a function: none is defined twice.
pub fn define_params(f: Function<'_>) -> Result<(), VerifyError>
    ensures { DefinesParams f.entry (checked_of result) }
{
    for param in f.params() {
        let value = param.value();
        if !program_lookup::is_first_definition(f, value, param.at) {
            return Err(VerifyError::DuplicateValueDef(f.name, value));
        }
    }
    Ok(())
}

// An instruction with a result id: its kind must give a result (50), and no earlier definition may have the id (42).
fn define_result(f: Function<'_>, instr: Instr<'_>) -> Result<(), VerifyError>
    ensures { DefinesResult f.entry (checked_of result) instr.entry }
{
    let Some(value) = instr.result() else {
        return Ok(());
    };
    let Some(_) = instr.result_type() else {
        return Err(VerifyError::ResultOnNone(f.name, instr.kind_number()));
    };
    let first = program_lookup::is_first_definition(f, value, instr.at);
    if !first {
        return Err(VerifyError::DuplicateValueDef(f.name, value));
    }
    Ok(())
}

// The instructions of a block: each result is defined once.
fn define_block(f: Function<'_>, block: Block<'_>) -> Result<(), VerifyError>
    ensures { DefinesBlock f.entry (checked_of result) block.entry }
{
    for record in block.records() {
        match record {
            Record::Instr(instr) => define_result(f, instr)?,
            Record::Term(_) => return Ok(()),
        }
    }
    Ok(())
}

// The blocks of a function: each result is defined once, and is no parameter.
pub fn define_blocks(f: Function<'_>) -> Result<(), VerifyError>
    ensures { DefinesBlocks f.entry (checked_of result) }
{
    for block in f.blocks() {
        define_block(f, block)?;
    }
    Ok(())
}
