// The fields of a value and of a literal.
ghost use Rattle.std.specs.Prelude.{◌≡◌};
ghost use Rattle.ir.specs.Answers.{result_of, done_of};
ghost use Rattle.contract_nodes.specs.Nodes.{struct_in};
ghost use Rattle.analyze_env.specs.Types.{as_ty};
ghost use Rattle.analyze_walk.specs.Stops.{access};
ghost use Rattle.analyze_state.specs.Errors.{error_of};
ghost use Rattle.analyze_state.specs.State.{analyzed_contract};
ghost use Rattle.analyze_exprs.specs.Typed.{field_check};

use analyze_env::{Ty, differs};
use analyze_state::{Analyzer, SemaError};
use contract_lookup::symbols::field_type;
use contract_nodes::Struct;
use ir::{IrType, Name};

// The type of a field of a value. A struct that is not declared is no error.
#[tactic(auto, unfolding(analyze_walk::specs::Stops::access, contract_lookup::specs::Answers::field_type_named))]
pub(crate) fn access(a: &Analyzer, at: usize, field: Name, ty: Ty) -> Result<Ty, SemaError>
    ensures { result_of error_of as_ty result ≡ access (analyzed_contract a.now) at field.0 (as_ty ty) }
{
    let Ty::Known(t) = ty else {
        return Ok(Ty::Unknown);
    };
    let IrType::Struct(name) = t else {
        return Err(SemaError::FieldOfNonStruct(at));
    };
    let Some(of) = a.structs.named(name) else {
        return Ok(Ty::Unknown);
    };
    field_type(of, field)
        .map(Ty::Known)
        .ok_or(SemaError::NoSuchField(at))
}

// A field of a literal of a struct, by the type of its value. The literal's place is `at`.
#[tactic(auto, unfolding(contract_lookup::specs::Answers::field_type_named))]
pub(crate) fn check_field(of: Struct, at: usize, field: Name, ty: Ty) -> Result<(), SemaError>
    ensures { done_of error_of result ≡ field_check at (struct_in of.entry).fields field.0 (as_ty ty) }
{
    let expected = field_type(of, field).ok_or(SemaError::UnknownField(at))?;
    if differs(ty, Ty::Known(expected)) {
        return Err(SemaError::FieldMismatch(at));
    }
    Ok(())
}
