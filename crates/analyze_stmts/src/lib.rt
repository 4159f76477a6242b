// The body check of statements: `analyze_stmt` and `analyze_stmts`, which call each other; the depth left falls. A Let stays known to the end of
// its function, but for those inside a For.
#![tactic(auto)]

ghost use Rattle.std.specs.Prelude.{◌≡◌, OnOk};
ghost use Rattle.contract_nodes.specs.Nodes.{stmt_in, stmts_in, stop_in};
ghost use Rattle.analyze_walk.specs.Stops.{check_stmt, check_stmts};
ghost use Rattle.analyze_state.specs.State.{sheet_of, analyzed_contract, ret_of, OfSheet, env_after};
ghost use Rattle.analyze_stmts.specs.Room.{Room, GrownTo};

use analyze_env::{Env, Ty};
use analyze_exprs::analyze_expr;
use analyze_simple::{analyze_pair, analyze_simple};
use analyze_state::{Analyzer, SemaError};
use contract_nodes::{Stmt, StmtNode, Stmts};
use ir::IrType;

// A statement. After an error the names may be any.
// `OfSheet`: as in analyze_exprs.
#[cycle(stmts)]
#[tactic(auto, unfolding(analyze_walk::specs::Stops::check_stmt))]
pub fn analyze_stmt(a: &Analyzer, env: &mut Env, t: Stmt) -> Result<(), SemaError>
    requires of_sheet { OfSheet a.now t.contract }
    requires room { Room (sheet_of a.now) env.old t.at }
    ensures is { env_after env.new result ≡ check_stmt (analyzed_contract a.now) (ret_of a.now) (stmt_in t.entry) env.old.names }
    ensures grown { OnOk result (GrownTo env.old env.new (stop_in t.entry)) }
{
    match t.node() {
        StmtNode::Let(name, value) => {
            let ty = analyze_expr(a, env, value)?;
            env.insert(name, ty);
            Ok(())
        }
        StmtNode::If(test, then_arm, else_arm) => {
            analyze_expr(a, env, test)?;
            analyze_stmts(a, env, then_arm)?;
            analyze_stmts(a, env, else_arm)
        }
        StmtNode::While(test, body) => {
            analyze_expr(a, env, test)?;
            analyze_stmts(a, env, body)
        }
        StmtNode::For(var, start, end, body) => {
            analyze_pair(a, env, start, end)?;
            let mark = env.len();
            env.insert(var, Ty::Known(IrType::U64));
            analyze_stmts(a, env, body)?;
            env.truncate(mark);
            Ok(())
        }
        StmtNode::Simple(node) => analyze_simple(a, env, t, node),
    }
}

// Statements, in order.
#[cycle(stmts)]
pub fn analyze_stmts(a: &Analyzer, env: &mut Env, body: Stmts) -> Result<(), SemaError>
    requires of_sheet { OfSheet a.now body.contract }
    requires room { Room (sheet_of a.now) env.old body.at }
    ensures is { env_after env.new result ≡ check_stmts (analyzed_contract a.now) (ret_of a.now) (stmts_in body.entry) env.old.names }
    ensures grown { OnOk result (GrownTo env.old env.new body.entry.end) }
{
    for t in body {
        analyze_stmt(a, env, t)?;
    }
    Ok(())
}
