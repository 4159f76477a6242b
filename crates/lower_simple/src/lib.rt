// Statements that have no statements in them.
#![tactic(auto)]

ghost use Rattle.std.specs.Prelude.{◌≡◌, ℕ, ◌≤◌, IfOk};
ghost use Rattle.definitions.specs.Ast.{Stmt as Tree};
ghost use Rattle.contract_nodes.specs.Nodes.{expr_in, exprs_in, count_of, simple_is, SimpleParts};
ghost use Rattle.lower_walk.specs.Grown.{Grown, LocalMade};
ghost use Rattle.contract_nodes.specs.declared.contract.Contract.{Contract};
ghost use Rattle.lower_values.specs.Values.{LogAloneIfErr};
ghost use Rattle.lower_names.specs.Stated.{stated, let_stated, stmt_on};
ghost use Rattle.lower_simple.specs.Returned.{return_on, OnSheet};

use contract_lookup::symbols::storage_slot;
use contract_nodes::{Expr, Exprs, SimpleNode, Stmt};
use ir::{IrType, LocalId, Name};
use lower_emit::{Args, emit_assert, emit_event, emit_state_write, emit_write_local};
use lower_exprs::{lower_expr, lower_expr_value};
use lower_flow::{init_local, return_value};
use lower_names::Scopes;
use lower_state::{FnCtx, LoweringError};

// Let: the expression, then its local. Their type and the local are what the name stands for from then on.
#[tactic(auto, unfolding(lower_walk::specs::Stmts::walk_stmt))]
pub fn lower_let(
    ctx: &mut FnCtx,
    scopes: &Scopes,
    e: Expr,
) -> Result<(LocalId, IrType), LoweringError>
    ensures is { (p n : ℕ) → let_stated ctx.new scopes.now n result ≡ stmt_on e.entry.contract scopes.now (Tree.Let p n (expr_in e.entry)) ctx.old }
    ensures made { IfOk result (λ made. LocalMade ctx.old ctx.new) }
    ensures grown { Grown ctx.old ctx.new }
    ensures refused { LogAloneIfErr result ctx.old ctx.new }
{
    let (value, ty) = lower_expr_value(ctx, scopes, e)?;
    let local = init_local(ctx, ty, value)?;
    Ok((local, ty))
}

// Constrain.
#[tactic(auto, unfolding(lower_walk::specs::Stmts::walk_stmt))]
fn lower_constrain(ctx: &mut FnCtx, scopes: &Scopes, e: Expr) -> Result<(), LoweringError>
    ensures is { (p : ℕ) → stated ctx.new scopes.now result ≡ stmt_on e.entry.contract scopes.now (Tree.Constrain p (expr_in e.entry)) ctx.old }
    ensures grown { Grown ctx.old ctx.new }
    ensures refused { LogAloneIfErr result ctx.old ctx.new }
{
    let (value, _) = lower_expr_value(ctx, scopes, e)?;
    emit_assert(ctx, value);
    Ok(())
}

// Assign: the expression, then the name.
#[tactic(auto, unfolding(lower_walk::specs::Stmts::walk_stmt))]
fn lower_assign(ctx: &mut FnCtx, scopes: &Scopes, name: Name, e: Expr) -> Result<(), LoweringError>
    ensures is { (p : ℕ) → stated ctx.new scopes.now result ≡ stmt_on e.entry.contract scopes.now (Tree.Assign p name.0 (expr_in e.entry)) ctx.old }
    ensures grown { Grown ctx.old ctx.new }
    ensures refused { LogAloneIfErr result ctx.old ctx.new }
{
    let (value, _) = lower_expr_value(ctx, scopes, e)?;
    let (local, _) = scopes
        .lookup(name)
        .ok_or(LoweringError::UndefinedVariable(name))?;
    emit_write_local(ctx, local, value);
    Ok(())
}

// StorageWrite: the name, then the expression.
#[tactic(auto, unfolding(lower_walk::specs::Stmts::walk_stmt, contract_lookup::specs::Answers::slot_named))]
fn lower_storage_write(
    ctx: &mut FnCtx,
    scopes: &Scopes,
    name: Name,
    e: Expr,
) -> Result<(), LoweringError>
    ensures is { (p : ℕ) → stated ctx.new scopes.now result ≡ stmt_on e.entry.contract scopes.now (Tree.StorageWrite p name.0 (expr_in e.entry)) ctx.old }
    ensures grown { Grown ctx.old ctx.new }
    ensures refused { LogAloneIfErr result ctx.old ctx.new }
{
    let slot = storage_slot(e.contract, name).ok_or(LoweringError::UndefinedVariable(name))?;
    let (value, _) = lower_expr_value(ctx, scopes, e)?;
    emit_state_write(ctx, slot, value);
    Ok(())
}

// Return, of a value or of none.
#[tactic(auto, unfolding(lower_walk::specs::Stmts::walk_stmt, lower_walk::specs::Stmts::walk_return))]
fn lower_return(ctx: &mut FnCtx, scopes: &Scopes, value: Option<Expr>) -> Result<(), LoweringError>
    ensures is { (K : Contract) (p : ℕ) → OnSheet K value.entry → stated ctx.new scopes.now result ≡ return_on K scopes.now p value.entry ctx.old }
    ensures grown { Grown ctx.old ctx.new }
    ensures refused { LogAloneIfErr result ctx.old ctx.new }
{
    let value = match value {
        Some(e) => Some(lower_expr_value(ctx, scopes, e)?.0),
        None => None,
    };
    return_value(ctx, value);
    Ok(())
}

// Emit: the arguments, then the event. The loop over arguments stands in `lower_exprs::lower_call` too, where the reason stands.
fn lower_emit_stmt(
    ctx: &mut FnCtx,
    scopes: &Scopes,
    event: Name,
    args: Exprs,
) -> Result<(), LoweringError>
    requires { count_of (exprs_in args) ≤ 16 }
    ensures is { (p : ℕ) → stated ctx.new scopes.now result ≡ stmt_on args.entry.contract scopes.now (Tree.Emit p event.0 (exprs_in args.entry)) ctx.old }
    ensures grown { Grown ctx.old ctx.new }
    ensures refused { LogAloneIfErr result ctx.old ctx.new }
{
    let mut values = Args::new();
    for arg in args {
        let (value, _) = lower_expr_value(ctx, scopes, arg)?;
        values.push(value);
    }
    emit_event(ctx, event, &values);
    Ok(())
}

// An expression as a statement; what it gives is not used.
#[tactic(auto, unfolding(lower_walk::specs::Stmts::walk_stmt))]
fn lower_expr_stmt(ctx: &mut FnCtx, scopes: &Scopes, e: Expr) -> Result<(), LoweringError>
    ensures is { (p : ℕ) → stated ctx.new scopes.now result ≡ stmt_on e.entry.contract scopes.now (Tree.ExprStmt p (expr_in e.entry)) ctx.old }
    ensures grown { Grown ctx.old ctx.new }
    ensures refused { LogAloneIfErr result ctx.old ctx.new }
{
    lower_expr(ctx, scopes, e)?;
    Ok(())
}

// What `node` says a statement is, for every kind but Let. The statement itself is handed on for the promise, which names its contract and its place.
pub fn lower_simple(
    ctx: &mut FnCtx,
    scopes: &Scopes,
    t: Stmt,
    node: SimpleNode,
) -> Result<(), LoweringError>
    requires { SimpleParts t node }
    ensures is { stated ctx.new scopes.now result ≡ stmt_on t.entry.contract scopes.now (simple_is t.entry.at node.entry) ctx.old }
    ensures grown { Grown ctx.old ctx.new }
    ensures refused { LogAloneIfErr result ctx.old ctx.new }
{
    match node {
        SimpleNode::Constrain(e) => lower_constrain(ctx, scopes, e),
        SimpleNode::Assign(name, e) => lower_assign(ctx, scopes, name, e),
        SimpleNode::StorageWrite(name, e) => lower_storage_write(ctx, scopes, name, e),
        SimpleNode::MappingWrite(_, _, _) => Err(LoweringError::MappingWrite),
        SimpleNode::Return(value) => lower_return(ctx, scopes, value),
        SimpleNode::Emit(event, args) => lower_emit_stmt(ctx, scopes, event, args),
        SimpleNode::Expr(e) => lower_expr_stmt(ctx, scopes, e),
    }
}
