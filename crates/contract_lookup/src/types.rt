// Types by name.
ghost use Rattle.std.specs.Prelude.{◌≡◌};
ghost use Rattle.definitions.specs.Lower.{parse_ir_type, own_return_type};
ghost use Rattle.definitions.specs.Sema.{from_str, return_type};
ghost use Rattle.ir.specs.Types.{as_type};
ghost use Rattle.contract_nodes.specs.Nodes.{opt_name};

use ir::{IrType, Name};

// A parameter's type and a function's own return type: `void` and the empty name are Void, and any other is read as in a signature.
pub fn parse_ir_type(name: Name) -> IrType
    ensures { as_type result ≡ parse_ir_type name.0 }
{
    match name {
        Name::VOID | Name::EMPTY => IrType::Void,
        _ => from_str(name),
    }
}

// A function's own return type, as its record has it.
pub fn own_return_type(name: Option<Name>) -> IrType
    ensures { as_type result ≡ own_return_type (opt_name name) }
{
    name.map_or(IrType::Void, parse_ir_type)
}

// Any other name is taken for a struct's, also `void` and the empty one.
pub fn from_str(name: Name) -> IrType
    ensures { as_type result ≡ from_str name.0 }
{
    match name {
        Name::U64 => IrType::U64,
        Name::BOOL => IrType::Bool,
        Name::FIELD => IrType::Field,
        _ => IrType::Struct(name),
    }
}

// The type of a call of a function whose record has this return type.
pub fn return_type(name: Option<Name>) -> IrType
    ensures { as_type result ≡ return_type (opt_name name) }
{
    name.map_or(IrType::Void, from_str)
}
