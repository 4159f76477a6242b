// Arithmetic on words: "sums, differences and products wrap modulo 2^64, quotients drop the remainder, comparisons give 1 or 0".
#![tactic(auto)]

ghost use Rattle.std.specs.Prelude.{◌≡◌, ◌*◌};
ghost use Rattle.definitions.specs.Ast as ast;
ghost use Rattle.definitions.specs.Bench.{wrap, binary_word};
ghost use Rattle.definitions.specs.Bench as bench;
ghost use Rattle.definitions.specs.ContractSheet.{op_of};
ghost use Rattle.definitions.specs.ProgramSheet.{binary_of};
ghost use Rattle.format.specs.Operators.{operator_number};
ghost use Rattle.machine_arithmetic.specs.Numbers.{word_or_stop};

use format::operators::BinOp;
use thiserror::Error;

// The divisor of a quotient is 0.
#[derive(Clone, Copy, Debug, Error)]
#[error("the divisor is 0")]
pub struct ZeroDivisor;

// The product modulo 2^64: document 01 asks for "a wrapping multiply helper".
fn wrapping_mul(a: u64, b: u64) -> u64
    ensures { result ≡ wrap (a * b) }
{
    a.wrapping_mul(b)
}

// 1 or 0: `u64::from` with the equation that the definitions have.
fn flag(x: bool) -> u64
    ensures { result ≡ bench.flag x }
{
    u64::from(x)
}

// The quotient without its remainder, if there is one.
#[tactic(auto, using(std::proofs::lemmas::Bool::Decides::nat_tests), unfolding(definitions::specs::Bench::binary_word))]
fn quotient(a: u64, b: u64) -> Result<u64, ZeroDivisor>
    ensures { word_or_stop result ≡ binary_word ast.BinOp.Div a b }
{
    if b == 0 {
        return Err(ZeroDivisor);
    }
    Ok(a / b)
}

// An operator on two words.
#[tactic(auto, unfolding(definitions::specs::Bench::binary_word))]
pub fn compute(op: BinOp, a: u64, b: u64) -> Result<u64, ZeroDivisor>
    ensures { word_or_stop result ≡ binary_word (op_of (operator_number op)) a b }
{
    match op {
        BinOp::Add => Ok(a.wrapping_add(b)),
        BinOp::Sub => Ok(a.wrapping_sub(b)),
        BinOp::Mul => Ok(wrapping_mul(a, b)),
        BinOp::Div => quotient(a, b),
        BinOp::Eq => Ok(flag(a == b)),
        BinOp::Neq => Ok(flag(a != b)),
        BinOp::Lt => Ok(flag(a < b)),
        BinOp::Gt => Ok(flag(b < a)),
        BinOp::Lte => Ok(flag(a <= b)),
        BinOp::Gte => Ok(flag(b <= a)),
    }
}

// The operator of a binary instruction's kind, Add to Gt; of any other it is Gte. The numbers stand here, since a pattern takes no cast.
fn operator_of(kind: usize) -> BinOp
    ensures { op_of (operator_number result) ≡ binary_of kind }
{
    match kind {
        61 => BinOp::Add,
        62 => BinOp::Sub,
        63 => BinOp::Mul,
        64 => BinOp::Div,
        65 => BinOp::Eq,
        66 => BinOp::Neq,
        67 => BinOp::Lt,
        68 => BinOp::Lte,
        69 => BinOp::Gt,
        _ => BinOp::Gte,
    }
}

// The binary instruction of a kind, by the kind's number, on two words.
pub fn compute_kind(kind: usize, a: u64, b: u64) -> Result<u64, ZeroDivisor>
    ensures { word_or_stop result ≡ binary_word (binary_of kind) a b }
{
    compute(operator_of(kind), a, b)
}
