// What is called, and the call of it.
ghost use Rattle.std.specs.Prelude.{◌≡◌};
ghost use Rattle.ir.specs.Answers.{result_of, option_of};
ghost use Rattle.ir.specs.Types.{as_type};
ghost use Rattle.contract_nodes.specs.Nodes.{contract_in};
ghost use Rattle.lower_walk.specs.Exprs.{resolve_user, resolve, finish_call, walk_user_call};
ghost use Rattle.lower_state.specs.Answers.{with_state, KeptIfErr};
ghost use Rattle.lower_state.specs.Errors.{error_of};
ghost use Rattle.lower_values.specs.Values.{value_in, called_of, LogAlone};

use crate::Value;
use contract_lookup::symbols::function_named;
use contract_nodes::Contract;
use format::program::ContextKind;
use ir::{FunctionId, IrType, Name};
use lower_emit::{Args, emit_call, emit_call_void, emit_context_read, emit_poseidon};
use lower_state::{FnCtx, LoweringError};

// What a name stands for in a call: a read of the context, the hash of two values, a function of the contract.
#[derive(Clone, Copy)]
pub enum Called {
    Context(ContextKind),
    Poseidon,
    User(FunctionId, IrType),
}

// A function of the contract.
#[tactic(auto, unfolding(lower_walk::specs::Exprs::resolve_user, contract_lookup::specs::Answers::id_named))]
fn resolve_user(contract: Contract, name: Name) -> Result<Called, LoweringError>
    ensures { result_of error_of called_of result ≡ resolve_user (contract_in contract.entry) name.0 }
{
    function_named(contract, name)
        .map(|signature| Called::User(signature.function, signature.ret))
        .ok_or(LoweringError::UndefinedFunction(name))
}

// What a name stands for in a call with so many arguments, in the order of `lower_call`.
#[tactic(auto, unfolding(lower_walk::specs::Exprs::resolve))]
pub fn resolve(contract: Contract, name: Name, many: usize) -> Result<Called, LoweringError>
    ensures { result_of error_of called_of result ≡ resolve (contract_in contract.entry) name.0 many }
{
    match name {
        Name::MSG_SENDER => Ok(Called::Context(ContextKind::MsgSender)),
        Name::MSG_NONCE => Ok(Called::Context(ContextKind::MsgNonce)),
        Name::BLOCK_NUMBER => Ok(Called::Context(ContextKind::BlockNumber)),
        Name::POSEIDON => {
            if many != 2 {
                return Err(LoweringError::PoseidonArguments);
            }
            Ok(Called::Poseidon)
        }
        Name::VERIFY_MERKLE_PROOF => Err(LoweringError::MerkleProof),
        _ => resolve_user(contract, name),
    }
}

// A call of a function, which gives nothing if its type is Void.
#[tactic(auto, unfolding(lower_walk::specs::Exprs::walk_user_call))]
fn call_user(ctx: &mut FnCtx, function: FunctionId, ty: IrType, args: &Args) -> Option<Value>
    ensures is { (ctx.new.log, option_of value_in result) ≡ walk_user_call function.0 (as_type ty) args.now ctx.old.log }
    ensures log_alone { LogAlone ctx.old ctx.new }
{
    if ty == IrType::Void {
        emit_call_void(ctx, function, args);
        return None;
    }
    Some((emit_call(ctx, function, ty, args), ty))
}

// The call itself, with the values of its arguments. The promise is for any list of arguments, and so a Poseidon is refused here too if they are not
// two; behind `resolve` they are.
#[tactic(auto, unfolding(lower_walk::specs::Exprs::push_value))]
pub fn finish_call(
    ctx: &mut FnCtx,
    called: Called,
    args: &Args,
) -> Result<Option<Value>, LoweringError>
    ensures is { with_state (option_of value_in) ctx.new.log result ≡ finish_call (called_of called) args.now ctx.old.log }
    ensures log_alone { LogAlone ctx.old ctx.new }
    ensures refused { KeptIfErr result ctx.old ctx.new }
{
    match called {
        Called::Context(kind) => Ok(Some((emit_context_read(ctx, kind), IrType::U64))),
        Called::Poseidon => {
            let (lhs, rhs) = args.two().ok_or(LoweringError::PoseidonArguments)?;
            Ok(Some((emit_poseidon(ctx, lhs, rhs), IrType::U64)))
        }
        Called::User(function, ty) => Ok(call_user(ctx, function, ty, args)),
    }
}
