// The offset of a field in a value.
ghost use Rattle.std.specs.Prelude.{◌≡◌};
ghost use Rattle.ir.specs.Answers.{result_of};
ghost use Rattle.ir.specs.Types.{as_type};
ghost use Rattle.contract_nodes.specs.Nodes.{contract_in};
ghost use Rattle.lower_walk.specs.Exprs.{field_offset};
ghost use Rattle.lower_state.specs.Errors.{error_of};

use contract_lookup::symbols::{field_position, struct_named};
use contract_nodes::Contract;
use ir::{IrType, Name};
use lower_state::LoweringError;

// How many bytes a field takes.
const FIELD_BYTES: usize = 8;

// The offset in bytes of a field in a value of a type, or why there is none.
#[tactic(auto, unfolding(lower_walk::specs::Exprs::field_offset))]
pub fn field_offset(contract: Contract, ty: IrType, field: Name) -> Result<usize, LoweringError>
    ensures { result_of error_of (λ n. n) result ≡ field_offset (contract_in contract.entry) (as_type ty) field.0 }
{
    let IrType::Struct(of) = ty else {
        return Err(LoweringError::FieldOfNonStruct);
    };
    let found = struct_named(contract, of).ok_or(LoweringError::UnresolvedType(of))?;
    let position = field_position(found, field).ok_or(LoweringError::NoSuchField(of, field))?;
    Ok(position * FIELD_BYTES)
}
