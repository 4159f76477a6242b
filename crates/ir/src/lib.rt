// Names, ids, types and instruction kinds of the intermediate program (`ir/mod.rs`), as document 01 numbers them.
#![tactic(auto)]

ghost use Rattle.std.specs.Prelude.{◌≡◌, [], ◌∷◌, ◌/◌, ◌%◌};
ghost use Rattle.std.proofs.Math.Option.{some};
ghost use Rattle.definitions.specs.Names.{empty, u64, bool, field, void, poseidon, verify_merkle_proof, msg_sender, msg_nonce, block_number};
ghost use Rattle.definitions.specs.Ir.{tag_of, name_of};
ghost use Rattle.definitions.specs.Records.{type_from};
ghost use Rattle.ir.specs.Types.{as_type, Coded};
ghost use Rattle.definitions.specs.InstrTable.{kind_row};
ghost use Rattle.format.specs.Kinds.{instr_number};
ghost use Rattle.ir.specs.Kinds.{rule_of, effect_of, rule_in, effect_in};

use format::kinds::Instruction;
use format::{ABSENT, HIGH_HALF};

// A name. Equal numbers stand for equal strings.
#[derive(Clone, Copy, Debug, Default, PartialEq, Eq)]
pub struct Name(pub u16);

// The reserved names.
impl Name {
    pub const EMPTY: Name = Name(0);

    pub const U64: Name = Name(1);

    pub const BOOL: Name = Name(2);

    pub const FIELD: Name = Name(3);

    pub const VOID: Name = Name(4);

    pub const POSEIDON: Name = Name(5);

    pub const VERIFY_MERKLE_PROOF: Name = Name(6);

    pub const MSG_SENDER: Name = Name(7);

    pub const MSG_NONCE: Name = Name(8);

    pub const BLOCK_NUMBER: Name = Name(9);

    // A name as a sheet has it.
    pub fn new(number: u16) -> Name
        ensures { result.0 ≡ number }
    {
        Name(number)
    }
}

// The reserved names' numbers, in order.
pub fn reserved() -> [u16; 10]
    ensures { result ≡ empty ∷ u64 ∷ bool ∷ field ∷ void ∷ poseidon ∷ verify_merkle_proof ∷ msg_sender ∷ msg_nonce ∷ block_number ∷ [] }
{
    [
        Name::EMPTY.0,
        Name::U64.0,
        Name::BOOL.0,
        Name::FIELD.0,
        Name::VOID.0,
        Name::POSEIDON.0,
        Name::VERIFY_MERKLE_PROOF.0,
        Name::MSG_SENDER.0,
        Name::MSG_NONCE.0,
        Name::BLOCK_NUMBER.0,
    ]
}

// The four kinds of id: one never passes for another.
#[derive(Clone, Copy, Debug, Default, PartialEq, Eq)]
pub struct ValueId(pub u16);

#[derive(Clone, Copy, Debug, Default, PartialEq, Eq)]
pub struct BlockId(pub u16);

#[derive(Clone, Copy, Debug, Default, PartialEq, Eq)]
pub struct FunctionId(pub u16);

#[derive(Clone, Copy, Debug, Default, PartialEq, Eq)]
pub struct LocalId(pub u16);

#[derive(Clone, Copy, Debug, Default, PartialEq, Eq)]
pub enum IrType {
    #[default]
    U64,
    Bool,
    Field,
    Struct(Name),
    Void,
}

// A type's code is the number of its four bytes on a program sheet: its tag, and HIGH_HALF times its name. Only a struct's type has a name.
pub const U64_TAG: usize = 0;

pub const BOOL_TAG: usize = 1;

pub const FIELD_TAG: usize = 2;

pub const STRUCT_TAG: usize = 3;

pub const VOID_TAG: usize = 4;

// What stands in place of a tag where there is no type, in the numbers of a refusal: the C interface and the printed lines have numbers alone.
pub const NO_TYPE: usize = ABSENT as usize;

impl IrType {
    // The type of a tag and a name.
    #[tactic(auto, using(std::proofs::lemmas::Bool::Decides::nat_tests), unfolding(definitions::specs::Records::type_from))]
    pub fn from_parts(tag: u16, name: u16) -> IrType
        ensures { as_type result ≡ type_from tag name }
    {
        match tag as usize {
            U64_TAG => IrType::U64,
            BOOL_TAG => IrType::Bool,
            FIELD_TAG => IrType::Field,
            STRUCT_TAG => IrType::Struct(Name::new(name)),
            _ => IrType::Void,
        }
    }

    // Its tag and its name.
    pub fn parts(self) -> (u16, u16)
        ensures { (result.0 ≡ tag_of (as_type self)) × (result.1 ≡ name_of (as_type self)) }
    {
        match self {
            IrType::U64 => (U64_TAG as u16, 0),
            IrType::Bool => (BOOL_TAG as u16, 0),
            IrType::Field => (FIELD_TAG as u16, 0),
            IrType::Struct(name) => (STRUCT_TAG as u16, name.0),
            IrType::Void => (VOID_TAG as u16, 0),
        }
    }
}

// The code of a type.
impl From<IrType> for u32 {
    ghost from_gives = { Coded };

    fn from(ty: IrType) -> u32 {
        let (tag, name) = ty.parts();
        (tag as usize + HIGH_HALF * (name as usize)) as u32
    }
}

// The type of a code.
impl From<usize> for IrType {
    ghost from_gives = { λ code ty. as_type ty ≡ type_from (code % 65536) (code / 65536 % 65536) };

    fn from(code: usize) -> IrType {
        IrType::from_parts(
            (code % HIGH_HALF) as u16,
            (code / HIGH_HALF % HIGH_HALF) as u16,
        )
    }
}

// The type of an instruction's result: none, the instruction's own, its own unless that is Void, Bool, U64.
#[derive(Clone, Copy)]
pub enum ResultRule {
    None,
    Own,
    OwnUnlessVoid,
    Bool,
    U64,
}

#[derive(Clone, Copy)]
pub enum Effect {
    Pure,
    MemoryRead,
    MemoryWrite,
    StateRead,
    StateWrite,
    ContextRead,
    Event,
    Call,
}

// What an instruction kind gives and does. Verifying reads the results; the effects have no reader here.
#[derive(Clone, Copy)]
pub struct KindRow {
    pub result: ResultRule,
    pub effect: Effect,
}

// One row for each of the 22 kinds, 60 to 81: `kind_row` checks the table over all of its rows at once. No constant: of one, each call of `kind_row`
// copies the table.
static KIND_ROWS: [(ResultRule, Effect); 22] = [
    (ResultRule::Own, Effect::Pure), // Const
    (ResultRule::Own, Effect::Pure), // Add
    (ResultRule::Own, Effect::Pure), // Sub
    (ResultRule::Own, Effect::Pure), // Mul
    (ResultRule::Own, Effect::Pure), // Div
    (ResultRule::Bool, Effect::Pure), // IrEq
    (ResultRule::Bool, Effect::Pure), // IrNe
    (ResultRule::Bool, Effect::Pure), // Lt
    (ResultRule::Bool, Effect::Pure), // Le
    (ResultRule::Bool, Effect::Pure), // Gt
    (ResultRule::Bool, Effect::Pure), // Ge
    (ResultRule::Own, Effect::MemoryRead), // Load
    (ResultRule::None, Effect::MemoryWrite), // Store
    (ResultRule::Own, Effect::StateRead), // StateRead
    (ResultRule::None, Effect::StateWrite), // StateWrite
    (ResultRule::Own, Effect::Pure), // ReadLocal
    (ResultRule::None, Effect::MemoryWrite), // WriteLocal
    (ResultRule::OwnUnlessVoid, Effect::Call), // Call
    (ResultRule::None, Effect::Pure), // Assert
    (ResultRule::U64, Effect::Pure), // Poseidon
    (ResultRule::None, Effect::Event), // Emit
    (ResultRule::U64, Effect::ContextRead), // ContextRead
];

// The row of a kind.
pub fn kind_row(kind: Instruction) -> KindRow
    ensures rule { some (rule_of result.result) ≡ rule_in (kind_row (instr_number kind)) }
    ensures effect { some (effect_of result.effect) ≡ effect_in (kind_row (instr_number kind)) }
{
    let (result, effect) = KIND_ROWS[kind as usize - Instruction::Const as usize];
    KindRow { result, effect }
}
