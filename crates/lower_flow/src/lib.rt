// Terminators of blocks, and locals that are written at once. A function for each terminator, where the Rust has `set_terminator` of an enum: the enum
// would be made here only to be taken apart again.
#![tactic(auto)]

ghost use Rattle.std.specs.Prelude.{◌≡◌, ◌<◌, IfOk};
ghost use Rattle.std.proofs.Math.Option.{none};
ghost use Rattle.definitions.specs.Ir.{Terminator};
ghost use Rattle.ir.specs.Answers.{option_of};
ghost use Rattle.ir.specs.Types.{as_type};
ghost use Rattle.lower_walk.specs.Stmts.{terminate, terminate_if_open, next_arm, init_local};
ghost use Rattle.lower_walk.specs.Grown.{Grown, LocalMade};
ghost use Rattle.lower_state.specs.Answers.{with_state, KeptIfErr};

use ir::{BlockId, IrType, LocalId, ValueId};
use lower_emit::{emit_branch, emit_jump, emit_return, emit_write_local};
use lower_state::{FnCtx, LoweringError};

// `set_terminator` of a Jump.
#[tactic(auto, unfolding(lower_walk::specs::Stmts::terminate))]
pub fn jump(ctx: &mut FnCtx, target: BlockId)
    ensures { ctx.new ≡ terminate (Terminator.Jump target.0) ctx.old }
{
    emit_jump(ctx, target);
    ctx.close();
}

// `set_terminator` of a Branch.
#[tactic(auto, unfolding(lower_walk::specs::Stmts::terminate))]
pub fn branch(ctx: &mut FnCtx, condition: ValueId, yes: BlockId, no: BlockId)
    ensures { ctx.new ≡ terminate (Terminator.Branch condition.0 yes.0 no.0) ctx.old }
{
    emit_branch(ctx, condition, yes, no);
    ctx.close();
}

// `set_terminator` of a Return.
#[tactic(auto, unfolding(lower_walk::specs::Stmts::terminate))]
pub fn return_value(ctx: &mut FnCtx, value: Option<ValueId>)
    ensures is { ctx.new ≡ terminate (Terminator.Return (option_of (λ v. v.0) value)) ctx.old }
    ensures grown { Grown ctx.old ctx.new }
{
    emit_return(ctx, value);
    ctx.close();
}

// The Return that ends a function whose last block is open.
#[tactic(auto, unfolding(lower_walk::specs::Stmts::terminate_if_open))]
pub fn return_if_open(ctx: &mut FnCtx)
    ensures is { ctx.new ≡ terminate_if_open (Terminator.Return none) ctx.old }
    ensures grown { Grown ctx.old ctx.new }
{
    if !ctx.is_ended() {
        return_value(ctx, None);
    }
}

// A Jump, if the block is open.
#[tactic(auto, unfolding(lower_walk::specs::Stmts::terminate, lower_walk::specs::Stmts::terminate_if_open))]
fn jump_if_open(ctx: &mut FnCtx, target: BlockId)
    ensures is { ctx.new ≡ terminate_if_open (Terminator.Jump target.0) ctx.old }
    ensures grown { Grown ctx.old ctx.new }
{
    if !ctx.is_ended() {
        jump(ctx, target);
    }
}

// The end of an arm or a body, which jumps to `target` if it is open; then the block `next`.
#[tactic(auto, unfolding(lower_walk::specs::Stmts::next_arm, lower_walk::specs::Stmts::switch_to))]
pub fn next_arm(ctx: &mut FnCtx, target: BlockId, next: BlockId)
    requires { next.0 < ctx.old.next_block }
    ensures is { ctx.new ≡ next_arm target.0 next.0 ctx.old }
    ensures grown { Grown ctx.old ctx.new }
{
    jump_if_open(ctx, target);
    ctx.switch_to(next);
}

// A new local to which a value is written at once.
#[tactic(auto, unfolding(lower_walk::specs::Stmts::init_local))]
pub fn init_local(ctx: &mut FnCtx, ty: IrType, value: ValueId) -> Result<LocalId, LoweringError>
    ensures is { with_state (λ l. l.0) ctx.new result ≡ init_local (as_type ty) value.0 ctx.old }
    ensures made { IfOk result (λ local. LocalMade ctx.old ctx.new) }
    ensures grown { Grown ctx.old ctx.new }
    ensures refused { KeptIfErr result ctx.old ctx.new }
{
    let local = ctx.new_local(ty)?;
    emit_write_local(ctx, local, value);
    Ok(local)
}
