// Record kinds: of both sheets' records what the Rust has as enums, with the numbers that stand for them. Each number stands once more in
// `TryFrom`, since a pattern takes no cast; the promise of each `TryFrom` compares the two.
ghost use Rattle.std.specs.Prelude.{◌≡◌};
ghost use Rattle.format.specs.Kinds as numbers;

use thiserror::Error;

// A number that is no kind.
#[derive(Clone, Copy, Debug, Error)]
#[error("{0} is the number of no kind")]
pub struct UnknownKind(pub u16);

// What a contract consists of, in this order.
#[derive(Clone, Copy)]
pub enum Declaration {
    Storage = 2,
    Struct = 3,
    Function = 4,
}

impl TryFrom<u16> for Declaration {
    type Error = UnknownKind;

    ghost try_from_gives = { numbers.IsDeclaration };

    fn try_from(number: u16) -> Result<Self, UnknownKind> {
        match number {
            2 => Ok(Declaration::Storage),
            3 => Ok(Declaration::Struct),
            4 => Ok(Declaration::Function),
            _ => Err(UnknownKind(number)),
        }
    }
}

// The Rust's `Stmt`.
#[derive(Clone, Copy)]
pub enum Stmt {
    Let = 10,
    Constrain = 11,
    Assign = 12,
    StorageWrite = 13,
    MappingWrite = 14,
    If = 15,
    While = 16,
    For = 17,
    Return = 18,
    Emit = 19,
    Expr = 20,
}

impl TryFrom<u16> for Stmt {
    type Error = UnknownKind;

    ghost try_from_gives = { numbers.IsStmt };

    fn try_from(number: u16) -> Result<Self, UnknownKind> {
        match number {
            10 => Ok(Stmt::Let),
            11 => Ok(Stmt::Constrain),
            12 => Ok(Stmt::Assign),
            13 => Ok(Stmt::StorageWrite),
            14 => Ok(Stmt::MappingWrite),
            15 => Ok(Stmt::If),
            16 => Ok(Stmt::While),
            17 => Ok(Stmt::For),
            18 => Ok(Stmt::Return),
            19 => Ok(Stmt::Emit),
            20 => Ok(Stmt::Expr),
            _ => Err(UnknownKind(number)),
        }
    }
}

// The Rust's `Expr`.
#[derive(Clone, Copy)]
pub enum Expr {
    Int = 30,
    Ident = 31,
    StorageRead = 32,
    MappingRead = 33,
    FieldAccess = 34,
    StructLiteral = 35,
    Binary = 36,
    Call = 37,
}

impl TryFrom<u16> for Expr {
    type Error = UnknownKind;

    ghost try_from_gives = { numbers.IsExpr };

    fn try_from(number: u16) -> Result<Self, UnknownKind> {
        match number {
            30 => Ok(Expr::Int),
            31 => Ok(Expr::Ident),
            32 => Ok(Expr::StorageRead),
            33 => Ok(Expr::MappingRead),
            34 => Ok(Expr::FieldAccess),
            35 => Ok(Expr::StructLiteral),
            36 => Ok(Expr::Binary),
            37 => Ok(Expr::Call),
            _ => Err(UnknownKind(number)),
        }
    }
}

// The Rust's `Instruction`.
#[derive(Clone, Copy, Debug)]
pub enum Instruction {
    Const = 60,
    Add = 61,
    Sub = 62,
    Mul = 63,
    Div = 64,
    IrEq = 65,
    IrNe = 66,
    Lt = 67,
    Le = 68,
    Gt = 69,
    Ge = 70,
    Load = 71,
    Store = 72,
    StateRead = 73,
    StateWrite = 74,
    ReadLocal = 75,
    WriteLocal = 76,
    Call = 77,
    Assert = 78,
    Poseidon = 79,
    Emit = 80,
    ContextRead = 81,
}

impl TryFrom<u16> for Instruction {
    type Error = UnknownKind;

    ghost try_from_gives = { numbers.IsInstruction };

    fn try_from(number: u16) -> Result<Self, UnknownKind> {
        match number {
            60 => Ok(Instruction::Const),
            61 => Ok(Instruction::Add),
            62 => Ok(Instruction::Sub),
            63 => Ok(Instruction::Mul),
            64 => Ok(Instruction::Div),
            65 => Ok(Instruction::IrEq),
            66 => Ok(Instruction::IrNe),
            67 => Ok(Instruction::Lt),
            68 => Ok(Instruction::Le),
            69 => Ok(Instruction::Gt),
            70 => Ok(Instruction::Ge),
            71 => Ok(Instruction::Load),
            72 => Ok(Instruction::Store),
            73 => Ok(Instruction::StateRead),
            74 => Ok(Instruction::StateWrite),
            75 => Ok(Instruction::ReadLocal),
            76 => Ok(Instruction::WriteLocal),
            77 => Ok(Instruction::Call),
            78 => Ok(Instruction::Assert),
            79 => Ok(Instruction::Poseidon),
            80 => Ok(Instruction::Emit),
            81 => Ok(Instruction::ContextRead),
            _ => Err(UnknownKind(number)),
        }
    }
}

// The Rust's `Terminator`.
#[derive(Clone, Copy)]
pub enum Terminator {
    Jump = 90,
    Branch = 91,
    Return = 92,
    Unreachable = 93,
}

impl TryFrom<u16> for Terminator {
    type Error = UnknownKind;

    ghost try_from_gives = { numbers.IsTerminator };

    fn try_from(number: u16) -> Result<Self, UnknownKind> {
        match number {
            90 => Ok(Terminator::Jump),
            91 => Ok(Terminator::Branch),
            92 => Ok(Terminator::Return),
            93 => Ok(Terminator::Unreachable),
            _ => Err(UnknownKind(number)),
        }
    }
}

// What stands in a block.
#[derive(Clone, Copy)]
pub enum InBlock {
    Instruction(Instruction),
    Terminator(Terminator),
}

impl TryFrom<u16> for InBlock {
    type Error = UnknownKind;

    ghost try_from_gives = { numbers.IsInBlock };

    fn try_from(number: u16) -> Result<Self, UnknownKind> {
        if number < Terminator::Jump as u16 {
            return Ok(InBlock::Instruction(Instruction::try_from(number)?));
        }
        Ok(InBlock::Terminator(Terminator::try_from(number)?))
    }
}

// The kinds of both sheets' records: first the contract sheet's.
#[derive(Clone, Copy)]
pub enum Kind {
    Contract,
    Declaration(Declaration),
    Block,
    FieldInit,
    Stmt(Stmt),
    Expr(Expr),
    Program,
    IrFunction,
    FunctionName,
    BasicBlock,
    InBlock(InBlock),
}

impl TryFrom<u16> for Kind {
    type Error = UnknownKind;

    ghost try_from_gives = { numbers.IsKind };

    // Inlined: the form of a sheet asks it for each record (`sheet_rows::tables`).
    #[inline(always)]
    fn try_from(number: u16) -> Result<Self, UnknownKind> {
        Ok(match number {
            1 => Kind::Contract,
            2..=4 => Kind::Declaration(Declaration::try_from(number)?),
            5 => Kind::Block,
            6 => Kind::FieldInit,
            10..=20 => Kind::Stmt(Stmt::try_from(number)?),
            30..=37 => Kind::Expr(Expr::try_from(number)?),
            50 => Kind::Program,
            51 => Kind::IrFunction,
            52 => Kind::FunctionName,
            53 => Kind::BasicBlock,
            _ => Kind::InBlock(InBlock::try_from(number)?),
        })
    }
}

impl From<Kind> for u16 {
    ghost from_gives = { λ kind number. number ≡ numbers.kind_number kind };

    fn from(kind: Kind) -> u16 {
        match kind {
            Kind::Contract => 1,
            Kind::Declaration(declaration) => declaration as u16,
            Kind::Block => 5,
            Kind::FieldInit => 6,
            Kind::Stmt(stmt) => stmt as u16,
            Kind::Expr(expr) => expr as u16,
            Kind::Program => 50,
            Kind::IrFunction => 51,
            Kind::FunctionName => 52,
            Kind::BasicBlock => 53,
            Kind::InBlock(InBlock::Instruction(instruction)) => instruction as u16,
            Kind::InBlock(InBlock::Terminator(terminator)) => terminator as u16,
        }
    }
}
