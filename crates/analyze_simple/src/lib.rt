// The body check of what is in a statement besides statements: its expressions, and what is asked of their types. No name becomes known.
#![tactic(auto)]

ghost use Rattle.std.specs.Prelude.{◌≡◌, IfSome};
ghost use Rattle.definitions.specs.Ast.{Stmt as Tree};
ghost use Rattle.contract_nodes.specs.Nodes.{expr_in, exprs_in, opt_expr_in, simple_is, SimpleParts};
ghost use Rattle.analyze_walk.specs.Stops.{check_stmt};
ghost use Rattle.analyze_state.specs.State.{analyzed_contract, ret_of, OfSheet, env_after};
ghost use Rattle.analyze_simple.specs.Checked.{value_checked, pair_checked, args_checked};

use analyze_env::{Env, Ty, differs};
use analyze_exprs::analyze_expr;
use analyze_state::{Analyzer, SemaError};
use contract_nodes::{Expr, Exprs, SimpleNode, Stmt};
use ir::{IrType, Name};

// An expression whose type is not asked: Constrain, StorageWrite and an expression as a statement.
// `OfSheet`: as in analyze_exprs.
fn analyze_value(a: &Analyzer, env: &Env, value: Expr) -> Result<(), SemaError>
    requires { OfSheet a.now value.contract }
    ensures { env_after env.now result ≡ value_checked (analyzed_contract a.now) env.now.names (expr_in value.entry) }
{
    analyze_expr(a, env, value)?;
    Ok(())
}

// Two of them: the key and the value of a MappingWrite, the bounds of a For.
pub fn analyze_pair(a: &Analyzer, env: &Env, first: Expr, second: Expr) -> Result<(), SemaError>
    requires { OfSheet a.now first.contract × OfSheet a.now second.contract }
    ensures { env_after env.now result ≡ pair_checked (analyzed_contract a.now) env.now.names (expr_in first.entry) (expr_in second.entry) }
{
    analyze_expr(a, env, first)?;
    analyze_expr(a, env, second)?;
    Ok(())
}

// Emit: the arguments in order.
fn analyze_args(a: &Analyzer, env: &Env, args: Exprs) -> Result<(), SemaError>
    requires { OfSheet a.now args.contract }
    ensures { env_after env.now result ≡ args_checked (analyzed_contract a.now) env.now.names (exprs_in args.entry) }
{
    for arg in args {
        analyze_expr(a, env, arg)?;
    }
    Ok(())
}

// Assign, at a place: the name, then the expression.
#[tactic(auto, unfolding(analyze_walk::specs::Stops::check_stmt))]
fn analyze_assign(
    a: &Analyzer,
    env: &Env,
    at: usize,
    name: Name,
    value: Expr,
) -> Result<(), SemaError>
    requires { OfSheet a.now value.contract }
    ensures { env_after env.now result ≡ check_stmt (analyzed_contract a.now) (ret_of a.now) (Tree.Assign at name.0 (expr_in value.entry)) env.now.names }
{
    let expected = env.get(name).ok_or(SemaError::UndefinedVariable(at))?;
    let ty = analyze_expr(a, env, value)?;
    if differs(ty, expected) {
        return Err(SemaError::AssignMismatch(at));
    }
    Ok(())
}

// Return, at a place, perhaps of a value; Void without one.
#[tactic(auto, unfolding(analyze_walk::specs::Stops::check_stmt, analyze_walk::specs::Stops::check_return))]
fn analyze_return(a: &Analyzer, env: &Env, at: usize, value: Option<Expr>) -> Result<(), SemaError>
    requires { IfSome value (λ e. OfSheet a.now e.contract) }
    ensures { env_after env.now result ≡ check_stmt (analyzed_contract a.now) (ret_of a.now) (Tree.Return at (opt_expr_in value.entry)) env.now.names }
{
    // No plainer: `map_or` would have an `Ok` around Void, and a closure around the call.
    let ty = match value {
        Some(e) => analyze_expr(a, env, e)?,
        None => Ty::Known(IrType::Void),
    };
    if differs(ty, Ty::Known(a.ret)) {
        return Err(SemaError::ReturnMismatch(at));
    }
    Ok(())
}

// A statement that has no statements in it and makes no name known, by its node.
#[tactic(auto, unfolding(analyze_walk::specs::Stops::check_stmt))]
pub fn analyze_simple(a: &Analyzer, env: &Env, t: Stmt, node: SimpleNode) -> Result<(), SemaError>
    requires of_sheet { OfSheet a.now t.contract }
    requires parts { SimpleParts t node }
    ensures { env_after env.now result ≡ check_stmt (analyzed_contract a.now) (ret_of a.now) (simple_is t.entry.at node.entry) env.now.names }
{
    match node {
        SimpleNode::Constrain(e) => analyze_value(a, env, e),
        SimpleNode::Assign(name, value) => analyze_assign(a, env, t.at, name, value),
        SimpleNode::StorageWrite(_, value) => analyze_value(a, env, value),
        SimpleNode::MappingWrite(_, key, value) => analyze_pair(a, env, key, value),
        SimpleNode::Return(value) => analyze_return(a, env, t.at, value),
        SimpleNode::Emit(_, args) => analyze_args(a, env, args),
        SimpleNode::Expr(e) => analyze_value(a, env, e),
    }
}
