// The blocks of If, While and For.
#![tactic(auto)]

ghost use Rattle.std.specs.Prelude.{◌≡◌, ◌<◌, IfOk};
ghost use Rattle.contract_nodes.specs.Nodes.{contract_in, expr_in};
ghost use Rattle.lower_walk.specs.Stmts.{enter_if, enter_while, two_locals, for_header, for_blocks, for_next, for_step, switch_to};
ghost use Rattle.lower_walk.specs.Grown.{Grown, LocalMade};
ghost use Rattle.lower_state.specs.Answers.{with_state, KeptIfErr};
ghost use Rattle.lower_state.specs.State.{blocks_of, BlocksMade};
ghost use Rattle.lower_values.specs.Values.{LogAloneIfErr};
ghost use Rattle.lower_control.specs.Bounds.{bounds_of, locals_of};

use contract_nodes::Expr;
use format::operators::BinOp;
use ir::{BlockId, IrType, LocalId, ValueId};
use lower_emit::{emit_binary, emit_const, emit_read_local, emit_write_local};
use lower_exprs::lower_expr_value;
use lower_flow::{branch, init_local, jump};
use lower_names::Scopes;
use lower_state::{FnCtx, LoweringError, ThreeBlocks};

// The two locals of a For: its variable, and the end that it is compared with.
#[derive(Clone, Copy)]
pub struct Bounds {
    pub var: LocalId,
    pub end: LocalId,
}

// If: the condition, the blocks and the branch; the then block is open.
#[tactic(auto, unfolding(lower_walk::specs::Stmts::enter_if, lower_walk::specs::Stmts::terminate, lower_walk::specs::Stmts::switch_to))]
pub fn enter_if(
    ctx: &mut FnCtx,
    scopes: &Scopes,
    condition: Expr,
) -> Result<ThreeBlocks, LoweringError>
    ensures is { with_state blocks_of ctx.new result ≡ enter_if (contract_in condition.entry.contract) scopes.now.held (expr_in condition.entry) ctx.old }
    ensures among { IfOk result (λ blocks. BlocksMade ctx.new blocks) }
    ensures grown { Grown ctx.old ctx.new }
    ensures refused { LogAloneIfErr result ctx.old ctx.new }
{
    let value = lower_expr_value(ctx, scopes, condition)?.0;
    let blocks = ctx.three_blocks()?;
    branch(ctx, value, blocks.first, blocks.second);
    ctx.switch_to(blocks.first);
    Ok(blocks)
}

// While: the blocks, then the condition in the header, and the branch; the body is open.
#[tactic(auto, unfolding(lower_walk::specs::Stmts::enter_while, lower_walk::specs::Stmts::while_header, lower_walk::specs::Stmts::terminate, lower_walk::specs::Stmts::switch_to))]
pub fn enter_while(
    ctx: &mut FnCtx,
    scopes: &Scopes,
    condition: Expr,
) -> Result<ThreeBlocks, LoweringError>
    ensures is { with_state blocks_of ctx.new result ≡ enter_while (contract_in condition.entry.contract) scopes.now.held (expr_in condition.entry) ctx.old }
    ensures among { IfOk result (λ blocks. BlocksMade ctx.new blocks) }
    ensures grown { Grown ctx.old ctx.new }
{
    let blocks = ctx.three_blocks()?;
    jump(ctx, blocks.first);
    ctx.switch_to(blocks.first);
    let (value, _) = lower_expr_value(ctx, scopes, condition)?;
    branch(ctx, value, blocks.second, blocks.third);
    ctx.switch_to(blocks.second);
    Ok(blocks)
}

// The two locals of a For, from the values of its bounds.
#[tactic(auto, unfolding(lower_walk::specs::Stmts::two_locals))]
fn two_locals(ctx: &mut FnCtx, start: ValueId, end: ValueId) -> Result<Bounds, LoweringError>
    ensures is { with_state bounds_of ctx.new result ≡ two_locals start.0 end.0 ctx.old }
    ensures made { IfOk result (λ bounds. LocalMade ctx.old ctx.new) }
    ensures grown { Grown ctx.old ctx.new }
{
    let var = init_local(ctx, IrType::U64, start)?;
    let end = init_local(ctx, IrType::U64, end)?;
    Ok(Bounds { var, end })
}

// For: both bounds, then their locals.
#[tactic(auto, unfolding(lower_walk::specs::Stmts::for_locals))]
pub fn for_locals(
    ctx: &mut FnCtx,
    scopes: &Scopes,
    start: Expr,
    end: Expr,
) -> Result<Bounds, LoweringError>
    requires { end.contract.sheet.now ≡ start.contract.sheet.now }
    ensures is { with_state bounds_of ctx.new result ≡ locals_of start.entry end.entry scopes.now.held ctx.old }
    ensures made { IfOk result (λ bounds. LocalMade ctx.old ctx.new) }
    ensures grown { Grown ctx.old ctx.new }
{
    let (first, _) = lower_expr_value(ctx, scopes, start)?;
    let (last, _) = lower_expr_value(ctx, scopes, end)?;
    two_locals(ctx, first, last)
}

// The test of a For in its header, and the branch.
#[tactic(auto, unfolding(lower_walk::specs::Stmts::for_header, lower_walk::specs::Stmts::terminate))]
fn for_header(ctx: &mut FnCtx, bounds: Bounds, body: BlockId, exit: BlockId)
    ensures is { ctx.new ≡ for_header (bounds_of bounds) body.0 exit.0 ctx.old }
    ensures grown { Grown ctx.old ctx.new }
{
    let i = emit_read_local(ctx, bounds.var, IrType::U64);
    let end = emit_read_local(ctx, bounds.end, IrType::U64);
    let test = emit_binary(ctx, BinOp::Lt, IrType::U64, i, end);
    branch(ctx, test, body, exit);
}

// For: the blocks and the header; the body is open.
#[tactic(auto, unfolding(lower_walk::specs::Stmts::for_blocks, lower_walk::specs::Stmts::terminate, lower_walk::specs::Stmts::switch_to))]
pub fn for_blocks(ctx: &mut FnCtx, bounds: Bounds) -> Result<ThreeBlocks, LoweringError>
    ensures is { with_state blocks_of ctx.new result ≡ for_blocks (bounds_of bounds) ctx.old }
    ensures among { IfOk result (λ blocks. BlocksMade ctx.new blocks) }
    ensures grown { Grown ctx.old ctx.new }
    ensures refused { KeptIfErr result ctx.old ctx.new }
{
    let blocks = ctx.three_blocks()?;
    jump(ctx, blocks.first);
    ctx.switch_to(blocks.first);
    for_header(ctx, bounds, blocks.second, blocks.third);
    ctx.switch_to(blocks.second);
    Ok(blocks)
}

// The step of a For and the jump back.
#[tactic(auto, unfolding(lower_walk::specs::Stmts::for_next, lower_walk::specs::Stmts::terminate))]
fn for_next(ctx: &mut FnCtx, var: LocalId, header: BlockId)
    ensures is { ctx.new ≡ for_next var.0 header.0 ctx.old }
    ensures grown { Grown ctx.old ctx.new }
{
    let i = emit_read_local(ctx, var, IrType::U64);
    let one = emit_const(ctx, 1);
    let sum = emit_binary(ctx, BinOp::Add, IrType::U64, i, one);
    emit_write_local(ctx, var, sum);
    jump(ctx, header);
}

// The end of a For's body: the step, if it is open; then its exit.
#[tactic(auto, unfolding(lower_walk::specs::Stmts::for_step, lower_walk::specs::Stmts::switch_to))]
pub fn leave_for(ctx: &mut FnCtx, var: LocalId, blocks: ThreeBlocks)
    requires { blocks.third.0 < ctx.old.next_block }
    ensures is { ctx.new ≡ switch_to blocks.third.0 (for_step var.0 blocks.first.0 ctx.old) }
    ensures grown { Grown ctx.old ctx.new }
{
    if !ctx.is_ended() {
        for_next(ctx, var, blocks.first);
    }
    ctx.switch_to(blocks.third);
}
