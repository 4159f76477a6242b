// The body check of expressions: `analyze_expr`, `analyze_literal` and `analyze_call`, which call one another; the depth left falls. It stops at
// the first error.
// `OfSheet` stands in the `requires` of each function: it relates the analyzer and a node, and neither has the other. As a ghost field of a node it
// would need the analyzer in all of contract_nodes.
#![tactic(auto)]

ghost use Rattle.std.specs.Prelude.{◌≡◌};
ghost use Rattle.ir.specs.Answers.{result_of};
ghost use Rattle.contract_nodes.specs.Nodes.{expr_in, exprs_in, fields_in};
ghost use Rattle.analyze_env.specs.Types.{as_ty};
ghost use Rattle.analyze_walk.specs.Stops.{check_expr};
ghost use Rattle.analyze_state.specs.Errors.{error_of};
ghost use Rattle.analyze_state.specs.State.{analyzed_contract, OfSheet};
ghost use Rattle.analyze_exprs.specs.Typed.{check_literal, check_call};

use analyze_env::{Env, Ty, differs};
use analyze_state::{Analyzer, SemaError};
use contract_nodes::{Expr, ExprNode, Exprs, FieldInits};
use ir::{IrType, Name};

mod calls; // the signature of what is called, and whether the arguments fit
mod fields; // the fields of a value and of a literal

// The type of an expression, with the names that are known.
#[cycle(exprs)]
#[tactic(auto, unfolding(analyze_walk::specs::Stops::check_expr))]
pub fn analyze_expr(a: &Analyzer, env: &Env, e: Expr) -> Result<Ty, SemaError>
    requires { OfSheet a.now e.contract }
    ensures { result_of error_of as_ty result ≡ check_expr (analyzed_contract a.now) env.now.names (expr_in e.entry) }
{
    match e.node() {
        ExprNode::Int(_) => Ok(Ty::Known(IrType::U64)),
        ExprNode::Ident(name) => env.get(name).ok_or(SemaError::UndefinedIdentifier(e.at)),
        ExprNode::StorageRead(_) => Ok(Ty::Known(IrType::U64)),
        ExprNode::MappingRead(_, key) => {
            analyze_expr(a, env, key)?;
            Ok(Ty::Known(IrType::U64))
        }
        ExprNode::FieldAccess(field, base) => {
            let ty = analyze_expr(a, env, base)?;
            fields::access(a, e.at, field, ty)
        }
        ExprNode::StructLiteral(name, inits) => analyze_literal(a, env, e.at, name, inits),
        ExprNode::Binary(_, left, right) => {
            let l = analyze_expr(a, env, left)?;
            let r = analyze_expr(a, env, right)?;
            if differs(l, r) {
                return Err(SemaError::BinaryMismatch(e.at));
            }
            Ok(l)
        }
        ExprNode::Call(name, args) => analyze_call(a, env, e.at, name, args),
    }
}

// A struct literal at a place: its struct, then its fields in order.
#[cycle(exprs)]
fn analyze_literal(
    a: &Analyzer,
    env: &Env,
    at: usize,
    name: Name,
    inits: FieldInits,
) -> Result<Ty, SemaError>
    requires { OfSheet a.now inits.contract }
    ensures { result_of error_of as_ty result ≡ check_literal (analyzed_contract a.now) env.now.names at name.0 (fields_in inits.entry) }
{
    let of = a.structs.named(name).ok_or(SemaError::UndefinedStruct(at))?;
    for init in inits {
        let ty = analyze_expr(a, env, init.value)?;
        fields::check_field(of, at, init.name, ty)?;
    }
    Ok(Ty::Known(IrType::Struct(name)))
}

// A call at a place: its arguments in order, then what is called. For the Rust's list of the arguments' types stands whether each fits so far.
// No plainer: a list (an ArrayVec of the kit) would take a second loop, which asks each argument the same.
#[cycle(exprs)]
fn analyze_call(
    a: &Analyzer,
    env: &Env,
    at: usize,
    name: Name,
    args: Exprs,
) -> Result<Ty, SemaError>
    requires { OfSheet a.now args.contract }
    ensures { result_of error_of as_ty result ≡ check_call (analyzed_contract a.now) env.now.names at name.0 (exprs_in args.entry) }
{
    let signature = calls::signature_named(a, name);
    let mut fits = true;
    for (i, arg) in args.enumerate() {
        let ty = analyze_expr(a, env, arg)?;
        fits &= !differs(calls::param_ty(signature, i), ty);
    }
    calls::finished(at, signature, args.len(), fits)
}
