// The walk of a function: its parameters, its statements and the Return of an open last block, into the log.
#![tactic(auto)]

ghost use Rattle.std.specs.Prelude.{◌≡◌, ◌≤◌, [], length};
ghost use Rattle.contract_nodes.specs.Nodes.{contract_in, function_in};
ghost use Rattle.lower_walk.specs.Grown.{Grown};
ghost use Rattle.lower_walk.specs.Layout.{new_ctx, walk_params, walk_function};
ghost use Rattle.lower_state.specs.Answers.{done_after};
ghost use Rattle.lower_names.specs.Stated.{stated};

use contract_lookup::types::parse_ir_type;
use contract_nodes::Function;
use ir::FunctionId;
use lower_flow::{init_local, return_if_open};
use lower_names::Scopes;
use lower_state::{FnCtx, LoweringError};
use lower_stmts::lower_stmts;

// The parameters: one value, one local and one write for each.
#[tactic(auto, unfolding(lower_walk::specs::Layout::walk_params))]
fn lower_params(ctx: &mut FnCtx, scopes: &mut Scopes, f: Function) -> Result<(), LoweringError>
    requires { scopes.old ≡ record { held = []; scope = 0 } }
    ensures is { stated ctx.new scopes.new result ≡ walk_params (function_in f.entry).params [] ctx.old }
    ensures same_scope { scopes.new.scope ≡ 0 }
    ensures room { length scopes.new.held ≤ length ctx.new.locals }
    ensures grown { Grown ctx.old ctx.new }
{
    for param in f.params() {
        let ty = parse_ir_type(param.ty);
        let value = ctx.next_value();
        let local = init_local(ctx, ty, value)?;
        scopes.declare(param.name, local, ty);
    }
    Ok(())
}

// A function, into the log.
#[tactic(auto, unfolding(lower_walk::specs::Layout::walk_function, lower_walk::specs::Layout::new_ctx))]
pub fn lower_function(ctx: &mut FnCtx, f: Function, id: FunctionId) -> Result<(), LoweringError>
    ensures is { done_after ctx.new result ≡ walk_function (contract_in f.entry.contract) id.0 (function_in f.entry) ctx.old.starts ctx.old.stops }
    ensures grown { Grown (new_ctx id.0 ctx.old.starts ctx.old.stops) ctx.new }
    ensures sizes { (length ctx.old.starts ≡ 256) × (length ctx.old.stops ≡ 256) }
{
    ctx.begin(id);
    let mut scopes = Scopes::new();
    lower_params(ctx, &mut scopes, f)?;
    lower_stmts(ctx, &mut scopes, f.body())?;
    return_if_open(ctx);
    Ok(())
}
