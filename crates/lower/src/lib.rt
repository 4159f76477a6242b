// Lowering: from any bytes to a program sheet or one numbered refusal.
#![tactic(auto)]

ghost use Rattle.std.specs.Prelude.{◌≡◌, length, take, IfOk};
ghost use Rattle.definitions.specs.Answers.{lower_sheet, length_of, output_of};
ghost use Rattle.definitions.specs.Demand3.{Demand3Of};
ghost use Rattle.contract_nodes.specs.Nodes.{contract_in, function_in};
ghost use Rattle.lower.specs.Whole.{FunctionPlaced, FunctionsPlaced, answer_of, lower_rest, AnsweredWith};

use contract_lookup::declarations::Functions;
use contract_nodes::{Contract, Function};
use format::HEAD;
use format::kinds::Kind;
use ir::FunctionId;
use lower_functions::lower_function;
use lower_layout::{lay_function, place_behind, write_head};
use lower_name_table::lay_names;
use lower_state::{FnCtx, LoweringError};
use writer::clear;

pub mod refusal; // why there is no program sheet

pub use refusal::Refusal;

// A function: it is walked, and then laid down at `to`, if all before it fitted. Gives the place behind it. The function and its id are two: a node
// knows its place, and not its position.
fn place_function(
    ctx: &mut FnCtx,
    f: Function,
    id: FunctionId,
    out: &mut [u8],
    to: Option<usize>,
) -> Result<Option<usize>, LoweringError>
    ensures { FunctionPlaced (contract_in f.entry.contract) id.0 (function_in f.entry) out.old to out.new result }
{
    lower_function(ctx, f, id)?;
    let Some(at) = to else {
        return Ok(None);
    };
    Ok(lay_function(f, id, ctx, out, at))
}

// All functions, each behind the last.
fn place_functions(functions: &Functions, out: &mut [u8]) -> Result<Option<usize>, LoweringError>
    ensures { FunctionsPlaced (contract_in functions.now.contract) out.old out.new result }
{
    let mut ctx = FnCtx::new(FunctionId(0));
    let mut to = place_behind(out, 0, HEAD); // room for the program's head, which is written at last
    for (id, f) in functions.iter() {
        to = place_function(&mut ctx, f, id, out, to)?;
    }
    Ok(to)
}

// A contract sheet that passed its check.
fn lower_contract(contract: Contract, out: &mut [u8]) -> Result<usize, Refusal>
    ensures { AnsweredWith (lower_rest (contract_in contract.entry) (length out.old)) (length out.old) out.new result }
{
    let functions = Functions::new(contract);
    let to = place_functions(&functions, out)?.ok_or(Refusal::NoRoom)?;
    let end = lay_names(&functions, out, to).ok_or(Refusal::NoRoom)?;
    write_head(out, 0, end, Kind::Program);
    Ok(end)
}

// The checks in their order, then the walk.
fn lower_sheet(sheet: &[u8], out: &mut [u8]) -> Result<usize, Refusal>
    ensures { AnsweredWith (lower_sheet sheet.now (length out.old)) (length out.old) out.new result }
{
    let contract = Contract::new(sheet)?;
    lower_contract(contract, out)
}

// Lowers a contract sheet: on acceptance the output holds the program sheet and then zeros, on any refusal zeros. Gives the sheet's length.
pub fn lower(sheet: &[u8], out: &mut [u8]) -> Result<usize, Refusal>
    ensures answered { answer_of result ≡ length_of (lower_sheet sheet.now (length out.old)) }
    ensures out_after { out.new ≡ output_of (lower_sheet sheet.now (length out.old)) (length out.old) }
    ensures demand3 { IfOk result (λ n. Demand3Of sheet.now (take n out.new)) }
{
    let answer = lower_sheet(sheet, out);
    clear(out, answer.unwrap_or(0)); // zeros behind the sheet; throughout, if there is none
    answer
}
