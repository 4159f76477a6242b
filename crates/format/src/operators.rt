// The operators of a Binary.
ghost use Rattle.format.specs.Operators as numbers;

use crate::kinds::UnknownKind;

// In the order of the Rust's `BinOp`. Arithmetic comes first, then what compares.
#[derive(Clone, Copy)]
pub enum BinOp {
    Add,
    Sub,
    Mul,
    Div,
    Eq,
    Neq,
    Lt,
    Gt,
    Lte,
    Gte,
}

impl TryFrom<u16> for BinOp {
    type Error = UnknownKind;

    ghost try_from_gives = { numbers.IsBinOp };

    fn try_from(number: u16) -> Result<Self, UnknownKind> {
        match number {
            0 => Ok(BinOp::Add),
            1 => Ok(BinOp::Sub),
            2 => Ok(BinOp::Mul),
            3 => Ok(BinOp::Div),
            4 => Ok(BinOp::Eq),
            5 => Ok(BinOp::Neq),
            6 => Ok(BinOp::Lt),
            7 => Ok(BinOp::Gt),
            8 => Ok(BinOp::Lte),
            9 => Ok(BinOp::Gte),
            _ => Err(UnknownKind(number)),
        }
    }
}
