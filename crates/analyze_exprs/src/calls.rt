// The signature of what is called, and whether the arguments fit.
ghost use Rattle.std.specs.Prelude.{◌≡◌};
ghost use Rattle.definitions.specs.Analyze.{signature_named};
ghost use Rattle.ir.specs.Answers.{result_of};
ghost use Rattle.ir.specs.Types.{as_type};
ghost use Rattle.analyze_env.specs.Types.{as_ty};
ghost use Rattle.analyze_state.specs.Errors.{error_of};
ghost use Rattle.analyze_state.specs.State.{analyzed_contract};
ghost use Rattle.analyze_exprs.specs.Calls.{signature_found, param_ty, finished_with, finished};

use analyze_env::Ty;
use analyze_state::{Analyzer, SemaError};
use contract_lookup::types::{from_str, return_type};
use contract_nodes::Function;
use ir::{IrType, Name};

// The signature of what is called: of a built-in function, so many parameters of type U64, or that of a function of the contract.
#[derive(Clone, Copy)]
pub(crate) enum Signature<'a> {
    BuiltIn(usize),
    Declared(Function<'a>),
}

// The built-in functions come before those of the contract.
pub(crate) fn signature_named<'a>(a: &Analyzer<'a>, name: Name) -> Option<Signature<'a>>
    ensures { signature_found result ≡ signature_named (analyzed_contract a.now) name.0 }
{
    match name {
        Name::POSEIDON => Some(Signature::BuiltIn(2)),
        Name::VERIFY_MERKLE_PROOF => Some(Signature::BuiltIn(3)),
        Name::MSG_SENDER | Name::MSG_NONCE | Name::BLOCK_NUMBER => Some(Signature::BuiltIn(0)),
        _ => a.functions.named(name).map(Signature::Declared),
    }
}

// The type of the i-th parameter of what is called; Unknown, which differs from nothing, if there is none.
pub(crate) fn param_ty(signature: Option<Signature>, i: usize) -> Ty
    ensures { as_ty result ≡ param_ty (signature_found signature.entry) i }
{
    match signature {
        Some(Signature::BuiltIn(many)) if i < many => Ty::Known(IrType::U64),
        Some(Signature::Declared(f)) if i < f.param_count() => Ty::Known(from_str(f.param(i).ty)),
        _ => Ty::Unknown,
    }
}

// A call with so many parameters and a return type, once its n arguments have types: the count, then the types.
fn finished_with(at: usize, many: usize, n: usize, fits: bool, ret: IrType) -> Result<Ty, SemaError>
    ensures { result_of error_of as_ty result ≡ finished_with at many n fits (as_type ret) }
{
    if many != n {
        return Err(SemaError::ArgumentCount(at));
    }
    if !fits {
        return Err(SemaError::ArgumentMismatch(at));
    }
    Ok(Ty::Known(ret))
}

// The call, once its n arguments have types.
pub(crate) fn finished(
    at: usize,
    signature: Option<Signature>,
    n: usize,
    fits: bool,
) -> Result<Ty, SemaError>
    ensures { result_of error_of as_ty result ≡ finished at (signature_found signature.entry) n fits }
{
    match signature.ok_or(SemaError::UndefinedFunction(at))? {
        Signature::BuiltIn(many) => finished_with(at, many, n, fits, IrType::U64),
        Signature::Declared(f) => {
            finished_with(at, f.param_count(), n, fits, return_type(f.return_type()))
        }
    }
}
