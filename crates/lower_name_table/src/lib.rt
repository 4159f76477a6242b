// The records of the functions' names at the program sheet's end: one for each distinct name in order of first appearance, with the last id of it.
#![tactic(auto)]

// `out` and `to` stay two parameters, as in lower_layout.

ghost use Rattle.std.specs.Prelude.{ℕ, ◌≡◌};
ghost use Rattle.std.proofs.Math.Option.{some};
ghost use Rattle.definitions.specs.Ir as defs;
ghost use Rattle.definitions.specs.Records.{write_tree};
ghost use Rattle.definitions.specs.ProgramSheet.{function_name_tree};
ghost use Rattle.contract_nodes.specs.Nodes.{contract_in};
ghost use Rattle.contract_lookup.specs.Answers.{id_named};
ghost use Rattle.lower_layout.specs.Laid.{Laid};
ghost use Rattle.lower_name_table.specs.NameTable.{is_named, names_of};

use contract_lookup::declarations::Functions;
use contract_lookup::symbols::function_named;
use format::kinds::Kind;
use format::{ID, program};
use ir::{FunctionId, Name};
use lower_layout::{place_behind, write_head};
use writer::write;

// Whether a function before the one with this id has this name.
fn named_before(functions: &Functions, id: FunctionId, name: Name) -> bool
    ensures { result ≡ is_named name.0 id.0 (contract_in functions.now.contract).functions }
{
    functions
        .iter()
        .take(id.0 as usize)
        .any(|(_, f)| f.name() == name)
}

// The bytes of a record of a function's name.
const NAME_BYTES: usize = program::NAMED_ID + ID;

// The record of a function's name: the name and the last id of it.
fn lay_name(name: Name, id: FunctionId, out: &mut [u8], to: usize) -> Option<usize>
    ensures { Laid (write_tree (function_name_tree (name.0, id.0))) out.old to out.new result }
{
    let end = place_behind(out, to, NAME_BYTES)?;
    write_head(out, to, NAME_BYTES, Kind::FunctionName);
    write(out, to + program::NAME_OF, ID, name.0 as usize);
    write(out, to + program::NAMED_ID, ID, id.0 as usize);
    Some(end)
}

// The last id of a name that a function has.
fn last_id(functions: &Functions, name: Name) -> FunctionId
    requires { (p : ℕ × defs.IrType) × (id_named (contract_in functions.now.contract) name.0 ≡ some p) }
    ensures { (i : ℕ) (t : defs.IrType) → id_named (contract_in functions.now.contract) name.0 ≡ some (i, t) → result.0 ≡ i }
{
    function_named(functions.contract, name).unwrap().function
}

// A record for each distinct name in order of first appearance, with the last id; the place behind them, if they fit.
pub fn lay_names(functions: &Functions, out: &mut [u8], to: usize) -> Option<usize>
    ensures { Laid (names_of (contract_in functions.now.contract)) out.old to out.new result }
{
    let mut at = place_behind(out, to, 0)?;
    for (id, f) in functions.iter() {
        let name = f.name();
        if !named_before(functions, id, name) {
            at = lay_name(name, last_id(functions, name), out, at)?;
        }
    }
    Some(at)
}
