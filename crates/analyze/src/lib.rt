// The body check: from any bytes to acceptance or one refusal.
#![tactic(auto)]

ghost use Rattle.std.specs.Prelude.{◌≡◌, ◌+◌, ◌*◌, ◌≤◌, [], length, OnOk};
ghost use Rattle.definitions.specs.Answers.{analyze_sheet};
ghost use Rattle.definitions.specs.Analyze.{param_env};
ghost use Rattle.ir.specs.Answers.{done_of};
ghost use Rattle.contract_nodes.specs.Nodes.{contract_in, function_in};
ghost use Rattle.analyze_walk.specs.Stops.{check_function};
ghost use Rattle.analyze_state.specs.Errors.{error_of};
ghost use Rattle.analyze_state.specs.State.{sheet_of, analyzed_contract, OfSheet};
ghost use Rattle.analyze.specs.Whole.{answer_of, check_bodies, Empty};

use analyze_env::{ALL, Binding, Env, FEW, Link, Ty};
use analyze_state::{Analyzer, SemaError};
use analyze_stmts::analyze_stmts;
use contract_lookup::declarations::{Functions, Structs};
use contract_lookup::types::{from_str, return_type};
use contract_nodes::{Contract, Function};
use ir::IrType;
use sheet::ContractError;
use thiserror::Error;

// Why a sheet is refused.
#[derive(Clone, Copy, Debug, Error)]
pub enum Refusal {
    #[error(transparent)]
    Contract(ContractError),
    #[error(transparent)]
    Sema(SemaError),
}

// The two are written, and not derived by `#[from]`: a derived `From` has no `from_gives`, so that nothing were known of what `?` passes on.
impl From<ContractError> for Refusal {
    ghost use Rattle.analyze.specs.declared.Refusal.TheVariants as refusal;

    ghost from_gives = { λ e r. r ≡ refusal.Contract e };

    fn from(e: ContractError) -> Refusal {
        Refusal::Contract(e)
    }
}

impl From<SemaError> for Refusal {
    ghost use Rattle.analyze.specs.declared.Refusal.TheVariants as refusal;

    ghost from_gives = { λ e r. r ≡ refusal.Sema e };

    fn from(e: SemaError) -> Refusal {
        Refusal::Sema(e)
    }
}

// The parameters of a function are known, in order.
fn insert_params(env: &mut Env, f: Function)
    requires { (env.old.names ≡ []) × (16 ≤ env.old.room) }
    ensures is { env.new ≡ record { names = param_env (function_in f.entry).params []; room = env.old.room } }
    ensures few { length env.new.names ≤ 16 }
{
    for param in f.params() {
        env.insert(param.name, Ty::Known(from_str(param.ty)));
    }
}

// A function of the contract. No name is known before it, and none behind it.
// `OfSheet`: as in analyze_exprs.
#[tactic(auto, unfolding(analyze_walk::specs::Stops::check_function))]
fn analyze_function(a: Analyzer, env: &mut Env, f: Function) -> Result<(), SemaError>
    requires of_sheet { OfSheet a f.contract }
    requires empty { Empty (sheet_of a) env.old }
    ensures is { done_of error_of result ≡ check_function (analyzed_contract a.entry) (function_in f.entry) }
    ensures empty { OnOk result (Empty (sheet_of a.entry) env.new) }
{
    insert_params(env, f);
    let ret = return_type(f.return_type());
    let a = Analyzer {
        structs: a.structs,
        functions: a.functions,
        ret,
    };
    analyze_stmts(&a, env, f.body())?;
    env.truncate(0);
    Ok(())
}

// All functions, in order.
fn analyze_functions(contract: Contract, env: &mut Env) -> Result<(), SemaError>
    requires { Empty contract.sheet.now env.old }
    ensures { done_of error_of result ≡ check_bodies (contract_in contract.entry) }
{
    let structs = Structs::new(contract);
    let functions = Functions::new(contract);
    let a = Analyzer {
        structs: &structs,
        functions: &functions,
        ret: IrType::Void,
    };
    for (_, f) in functions.iter() {
        analyze_function(a, env, f)?;
    }
    Ok(())
}

// All functions, with room for so many names in so many chains.
fn analyze_with<const NAMES: usize, const CHAINS: usize>(
    contract: Contract,
) -> Result<(), SemaError>
    requires names { (length contract.sheet.now + 256 ≤ 16 * NAMES) × (NAMES ≤ 65535) }
    requires chains { (1024 ≤ CHAINS) × (CHAINS ≤ 65536) }
    ensures { done_of error_of result ≡ check_bodies (contract_in contract.entry) }
{
    let mut bindings = [Binding::BLANK; NAMES];
    let mut heads = [Link::NONE; CHAINS];
    let mut env = Env::new(&mut bindings, &mut heads);
    analyze_functions(contract, &mut env)
}

// A sheet of at most SHORT bytes has so few names that chains of them are short.
const SHORT: usize = 1024;

const SHORT_NAMES: usize = 80;

const MOST_NAMES: usize = 2064;

// The functions of a contract.
fn analyze_contract(contract: Contract) -> Result<(), SemaError>
    ensures { done_of error_of result ≡ check_bodies (contract_in contract.entry) }
{
    if contract.sheet.len() <= SHORT {
        return analyze_with::<SHORT_NAMES, FEW>(contract);
    }
    analyze_with::<MOST_NAMES, ALL>(contract)
}

// The checks in their order, then the bodies.
pub fn analyze(sheet: &[u8]) -> Result<(), Refusal>
    ensures { answer_of result ≡ analyze_sheet sheet.now }
{
    let contract = Contract::new(sheet)?;
    analyze_contract(contract)?;
    Ok(())
}
