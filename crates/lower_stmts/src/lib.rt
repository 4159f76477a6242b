// Statements: `lower_stmt` recurses into arms and bodies, and the depth left falls.
//
// `ctx` and `scopes` are two parameters: an expression is given `&Scopes`, and so its type says that no name changes. In one struct each promise
// would have to say it. `HasRoom` relates the two, so that neither's invariant can have it.
// `OneSheet`: each node knows its own sheet. A struct for the nodes of each statement would be three types for one clause each.
#![tactic(auto)]

ghost use Rattle.std.specs.Prelude.{◌≡◌, ◌≤◌, ℕ, suc, length};
ghost use Rattle.contract_nodes.specs.Nodes.{contract_in, stmt_in, stmts_in};
ghost use Rattle.lower_walk.specs.Stmts.{walk_stmts};
ghost use Rattle.lower_walk.specs.Grown.{Grown};
ghost use Rattle.lower_state.specs.Answers.{done_after};
ghost use Rattle.lower_names.specs.Stated.{stated, stmt_on};
ghost use Rattle.lower_stmts.specs.Bodies.{HasRoom, OneSheet, if_nodes, while_nodes, for_nodes, Extends};

use contract_nodes::{Expr, Stmt, StmtNode, Stmts};
use ir::{IrType, Name};
use lower_control::{enter_if, enter_while, for_blocks, for_locals, leave_for};
use lower_flow::next_arm;
use lower_names::Scopes;
use lower_simple::{lower_let, lower_simple};
use lower_state::{FnCtx, LoweringError};

// An arm or a body, in a scope of its own.
#[cycle(stmts)]
fn lower_body(ctx: &mut FnCtx, scopes: &mut Scopes, body: Stmts) -> Result<(), LoweringError>
    requires { HasRoom ctx.old scopes.old (suc body.depth) }
    ensures is { done_after ctx.new result ≡ walk_stmts (contract_in body.entry.contract) (suc scopes.old.scope) scopes.old.held (stmts_in body.entry) ctx.old }
    ensures same_names { scopes.new ≡ scopes.old }
    ensures grown { Grown ctx.old ctx.new }
{
    let mark = scopes.len();
    scopes.push_scope();
    let done = lower_stmts(ctx, scopes, body);
    scopes.pop_scope(mark); // also behind a refusal
    done
}

// If: the condition, then both arms. An arm that is absent is one without statements.
#[cycle(stmts)]
#[tactic(auto, unfolding(lower_walk::specs::Stmts::walk_if))]
fn lower_if(
    ctx: &mut FnCtx,
    scopes: &mut Scopes,
    condition: Expr,
    then: Stmts,
    otherwise: Stmts,
) -> Result<(), LoweringError>
    requires room { HasRoom ctx.old scopes.old (suc then.depth) × HasRoom ctx.old scopes.old (suc otherwise.depth) }
    requires one_sheet { OneSheet condition then × OneSheet condition otherwise }
    ensures is { stated ctx.new scopes.old result ≡ if_nodes condition.entry then.entry otherwise.entry scopes.old ctx.old }
    ensures same_names { scopes.new ≡ scopes.old }
    ensures grown { Grown ctx.old ctx.new }
{
    let blocks = enter_if(ctx, scopes, condition)?;
    let merge = blocks.third;
    lower_body(ctx, scopes, then)?;
    next_arm(ctx, merge, blocks.second);
    lower_body(ctx, scopes, otherwise)?;
    next_arm(ctx, merge, merge);
    Ok(())
}

// While: the condition in its header, then the body.
#[cycle(stmts)]
#[tactic(auto, unfolding(lower_walk::specs::Stmts::walk_stmt))]
fn lower_while(
    ctx: &mut FnCtx,
    scopes: &mut Scopes,
    condition: Expr,
    body: Stmts,
) -> Result<(), LoweringError>
    requires room { HasRoom ctx.old scopes.old (suc body.depth) }
    requires one_sheet { OneSheet condition body }
    ensures is { (p q : ℕ) → stated ctx.new scopes.old result ≡ while_nodes p q condition.entry body.entry scopes.old ctx.old }
    ensures same_names { scopes.new ≡ scopes.old }
    ensures grown { Grown ctx.old ctx.new }
{
    let blocks = enter_while(ctx, scopes, condition)?;
    lower_body(ctx, scopes, body)?;
    next_arm(ctx, blocks.first, blocks.third);
    Ok(())
}

// For: the bounds, the header, then the body, in which the loop's name is held.
#[cycle(stmts)]
#[tactic(auto, unfolding(lower_walk::specs::Stmts::walk_stmt))]
fn lower_for(
    ctx: &mut FnCtx,
    scopes: &mut Scopes,
    name: Name,
    start: Expr,
    end: Expr,
    body: Stmts,
) -> Result<(), LoweringError>
    requires room { HasRoom ctx.old scopes.old (suc body.depth) }
    requires one_sheet { (end.contract.sheet.now ≡ start.contract.sheet.now) × OneSheet start body }
    ensures is { (p q : ℕ) → stated ctx.new scopes.old result ≡ for_nodes p q name.0 start.entry end.entry body.entry scopes.old ctx.old }
    ensures same_names { scopes.new ≡ scopes.old }
    ensures grown { Grown ctx.old ctx.new }
{
    let bounds = for_locals(ctx, scopes, start, end)?;
    let blocks = for_blocks(ctx, bounds)?;
    let mark = scopes.len();
    scopes.push_scope();
    scopes.declare(name, bounds.var, IrType::U64);
    let done = lower_stmts(ctx, scopes, body);
    scopes.pop_scope(mark);
    done?;
    leave_for(ctx, bounds.var, blocks);
    Ok(())
}

// A statement, in a block that is not terminated.
#[cycle(stmts)]
fn lower_stmt(ctx: &mut FnCtx, scopes: &mut Scopes, t: Stmt) -> Result<(), LoweringError>
    requires { HasRoom ctx.old scopes.old t.depth }
    ensures is { stated ctx.new scopes.new result ≡ stmt_on t.entry.contract scopes.old (stmt_in t.entry) ctx.old }
    ensures names { Extends scopes.old scopes.new }
    ensures room { length scopes.new.held ≤ length ctx.new.locals }
    ensures grown { Grown ctx.old ctx.new }
{
    match t.node() {
        StmtNode::Let(name, e) => {
            let (local, ty) = lower_let(ctx, scopes, e)?;
            scopes.declare(name, local, ty);
            Ok(())
        }
        StmtNode::If(condition, then, otherwise) => {
            lower_if(ctx, scopes, condition, then, otherwise)
        }
        StmtNode::While(condition, body) => lower_while(ctx, scopes, condition, body),
        StmtNode::For(name, start, end, body) => lower_for(ctx, scopes, name, start, end, body),
        StmtNode::Simple(node) => lower_simple(ctx, scopes, t, node),
    }
}

// The statements of a function, an arm or a body. Those after a terminator are skipped.
#[cycle(stmts)]
#[tactic(auto, unfolding(lower_walk::specs::Stmts::walk_stmts))]
pub fn lower_stmts(ctx: &mut FnCtx, scopes: &mut Scopes, body: Stmts) -> Result<(), LoweringError>
    requires { HasRoom ctx.old scopes.old body.depth }
    ensures is { done_after ctx.new result ≡ walk_stmts (contract_in body.entry.contract) scopes.old.scope scopes.old.held (stmts_in body.entry) ctx.old }
    ensures names { Extends scopes.old scopes.new }
    ensures grown { Grown ctx.old ctx.new }
{
    for t in body {
        if ctx.is_ended() {
            return Ok(());
        }
        lower_stmt(ctx, scopes, t)?;
    }
    Ok(())
}
