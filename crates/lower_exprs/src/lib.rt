// Expressions into the log: `lower_expr`, `lower_expr_value` and `lower_call`, which call one another; the depth left falls.
#![tactic(auto)]

ghost use Rattle.std.specs.Prelude.{◌≡◌, ◌≤◌};
ghost use Rattle.ir.specs.Answers.{option_of};
ghost use Rattle.contract_nodes.specs.Nodes.{contract_in, expr_in, exprs_in, count_of};
ghost use Rattle.lower_walk.specs.Exprs.{walk_expr, walk_expr_value};
ghost use Rattle.lower_state.specs.Answers.{with_state};
ghost use Rattle.lower_values.specs.Values.{value_in, LogAlone};
ghost use Rattle.lower_exprs.specs.Calls.{call_on};

use contract_nodes::{Expr, ExprNode, Exprs};
use ir::Name;
use lower_emit::Args;
use lower_names::Scopes;
use lower_state::{FnCtx, LoweringError};
use lower_values::calls::{Called, finish_call, resolve};
use lower_values::{Value, leaves};

// An expression, with the names that are held. What it gives is nothing, if it is a call of a function that gives nothing.
#[cycle(exprs)]
#[tactic(auto, unfolding(lower_walk::specs::Exprs::walk_expr, lower_walk::specs::Exprs::walk_expr_value))]
pub fn lower_expr(ctx: &mut FnCtx, scopes: &Scopes, e: Expr) -> Result<Option<Value>, LoweringError>
    ensures is { with_state (option_of value_in) ctx.new.log result ≡ walk_expr (contract_in e.entry.contract) scopes.now.held (expr_in e.entry) ctx.old.log }
    ensures log_alone { LogAlone ctx.old ctx.new }
{
    match e.node() {
        ExprNode::Int(number) => Ok(Some(leaves::lower_int(ctx, number))),
        ExprNode::Ident(name) => Ok(Some(leaves::lower_ident(ctx, scopes, name)?)),
        ExprNode::StorageRead(name) => {
            Ok(Some(leaves::lower_storage_read(ctx, e.contract, name)?))
        }
        ExprNode::MappingRead(_, _) => Err(LoweringError::MappingRead),
        ExprNode::FieldAccess(field, of) => {
            let (base, ty) = lower_expr_value(ctx, scopes, of)?;
            Ok(Some(leaves::lower_field(ctx, e.contract, field, base, ty)?))
        }
        ExprNode::StructLiteral(_, _) => Err(LoweringError::StructLiteral),
        ExprNode::Binary(op, left, right) => {
            let (lhs, ty) = lower_expr_value(ctx, scopes, left)?;
            let (rhs, _) = lower_expr_value(ctx, scopes, right)?;
            Ok(Some(leaves::lower_binary(ctx, op, ty, lhs, rhs)))
        }
        ExprNode::Call(name, args) => lower_call(ctx, scopes, name, args),
    }
}

// An expression that must give a value.
#[cycle(exprs)]
#[tactic(auto, unfolding(lower_walk::specs::Exprs::walk_expr_value, lower_walk::specs::Exprs::need_value))]
pub fn lower_expr_value(ctx: &mut FnCtx, scopes: &Scopes, e: Expr) -> Result<Value, LoweringError>
    ensures is { with_state value_in ctx.new.log result ≡ walk_expr_value (contract_in e.entry.contract) scopes.now.held (expr_in e.entry) ctx.old.log }
    ensures log_alone { LogAlone ctx.old ctx.new }
{
    lower_expr(ctx, scopes, e)?.ok_or(LoweringError::VoidAsValue)
}

// A call: what is called, then its arguments, then the call itself. `finish_call` matches it too, but a read of the context ignores its
// arguments, as in the Rust: they are not lowered. The loop over arguments stands in `lower_simple::lower_emit_stmt` too: the form of document 01 is a
// cycle of three functions, and a function for the loop would be a fourth.
#[cycle(exprs)]
#[tactic(auto, unfolding(lower_walk::specs::Exprs::walk_call))]
fn lower_call(
    ctx: &mut FnCtx,
    scopes: &Scopes,
    name: Name,
    args: Exprs,
) -> Result<Option<Value>, LoweringError>
    requires { count_of (exprs_in args) ≤ 16 }
    ensures is { with_state (option_of value_in) ctx.new.log result ≡ call_on args.entry scopes.now.held name.0 ctx.old.log }
    ensures log_alone { LogAlone ctx.old ctx.new }
{
    let called = resolve(args.contract, name, args.len())?;
    let mut values = Args::new();
    if let Called::Context(_) = called {
        return finish_call(ctx, called, &values);
    }
    for arg in args {
        let (value, _) = lower_expr_value(ctx, scopes, arg)?;
        values.push(value);
    }
    finish_call(ctx, called, &values)
}
