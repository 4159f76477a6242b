// Instructions and what they are.
ghost use Rattle.std.specs.Prelude.{◌≡◌, ◌+◌, ◌*◌, ◌≤◌, length};
ghost use Rattle.ir.specs.Types.{as_type};
ghost use Rattle.program_nodes.specs.Standing.{InstrStands};
ghost use Rattle.program_nodes.specs.Positions.{type_here};

use format::operators::BinOp;
use format::program::ContextKind;
use format::{ABSENT, ID, KIND, SLOT, WORD, kinds, program};
use ir::{FunctionId, IrType, LocalId, Name, ResultRule, ValueId};
use reader::{read, read_u16};
use sheet::places;

// An instruction by its place, and where its record stops.
#[derive(Clone, Copy)]
pub struct Instr<'a> {
    pub sheet: &'a [u8],
    pub at: usize,
    pub stop: usize,
    pub ghost here: { InstrStands sheet.now at stop },
}

// So many values from a place on: the arguments of a call or an event.
#[derive(Clone, Copy)]
pub struct Ids<'a> {
    pub sheet: &'a [u8],
    pub at: usize,
    pub left: usize,
    pub ghost inside: { at + 2 * left ≤ length sheet.now },
}

// What an instruction is (`Instruction` of `ir/mod.rs`). `Binary` stands for ten of the Rust's variants, Add to Ge, and has its operator.
// An offset (i64) and a slot (i32) are the numbers of their 8 and 4 bytes.
#[derive(Clone, Copy)]
pub enum Instruction<'a> {
    Const(IrType, usize),
    Binary(BinOp, IrType, ValueId, ValueId),
    Load(IrType, ValueId, usize),
    Store(ValueId, usize, ValueId),
    StateRead(IrType, usize),
    StateWrite(usize, ValueId),
    ReadLocal(LocalId, IrType),
    WriteLocal(LocalId, ValueId),
    Call(FunctionId, Ids<'a>, IrType),
    Assert(ValueId),
    Poseidon(ValueId, ValueId),
    Emit(Name, Ids<'a>),
    ContextRead(ContextKind),
}

// The type at a place.
#[tactic(auto, unfolding(crate::specs::Positions::type_here))]
pub(crate) fn type_at(s: &[u8], at: usize) -> IrType
    requires { at + 4 ≤ length s.now }
    ensures { as_type result ≡ type_here s.now at }
{
    IrType::from_parts(read_u16(s, at), read_u16(s, at + ID))
}

impl<'a> Instr<'a> {
    ghost use Rattle.std.specs.Prelude.{true, ◌-◌, ◌/◌};
    ghost use Rattle.definitions.specs.ContractSheet.{op_of};
    ghost use Rattle.definitions.specs.Fields.{le};
    ghost use Rattle.definitions.specs.InstrTable.{binary_kind, type_by};
    ghost use Rattle.definitions.specs.Ir.{result_type};
    ghost use Rattle.format.specs.Kinds.{instr_number};
    ghost use Rattle.format.specs.Operators.{operator_number};
    ghost use Rattle.std.proofs.Math.Option.{some};
    ghost use Rattle.ir.specs.Answers.{option_of};
    ghost use Rattle.ir.specs.Kinds.{rule_of};
    ghost use Rattle.program_nodes.specs.Offsets.{right_at};
    ghost use Rattle.sheet.specs.Passed.{record_kind};
    ghost use Rattle.program_nodes.specs.Positions.{ids_here, size_here, has_type, own_rule};
    ghost use Rattle.program_nodes.specs.Nodes.{instr_in, instr_is, is_access, own_type_in, result_is, result_in, value_of, ids_in};

    // The id that stands at an offset, the type, and the number of so many bytes.
    fn id(self, offset: usize) -> u16
        requires { self.at + offset + 2 ≤ self.stop }
        ensures { result ≡ le 2 self.entry.sheet.now (self.entry.at + offset) }
    {
        read_u16(self.sheet, self.at + offset)
    }

    fn ty(self, offset: usize) -> IrType
        requires { self.at + offset + 4 ≤ self.stop }
        ensures { as_type result ≡ type_here self.entry.sheet.now (self.entry.at + offset) }
    {
        type_at(self.sheet, self.at + offset)
    }

    fn number(self, offset: usize, bytes: usize) -> usize
        requires { (self.at + offset + bytes ≤ self.stop) × (bytes ≤ 8) }
        ensures { result ≡ le bytes self.entry.sheet.now (self.entry.at + offset) }
    {
        read(self.sheet, self.at + offset, bytes)
    }

    // The number of its kind.
    pub fn kind_number(self) -> u16
        ensures { result ≡ record_kind self.entry.sheet.now self.entry.at }
    {
        self.id(KIND)
    }

    // Its kind.
    pub fn kind(self) -> kinds::Instruction
        ensures is { instr_number result ≡ record_kind self.entry.sheet.now self.entry.at }
        ensures room { self.entry.at + size_here (instr_number result) ≤ self.entry.stop }
    {
        kinds::Instruction::try_from(self.id(KIND)).unwrap()
    }

    // Whether it defines the value: compared as numbers, since the search for a definition asks it of each record, and an Option takes it four
    // instructions in place of one.
    pub fn gives(self, v: ValueId) -> bool
        ensures { result ≡ result_is v.0 (result_in self.entry) }
    {
        let value = self.id(program::RESULT);
        value == v.0 && v.0 != ABSENT
    }

    // The value that it defines, if there is one.
    pub fn result(self) -> Option<ValueId>
        ensures { option_of value_of result ≡ result_in self.entry }
    {
        places::opt_id(self.sheet, self.at + program::RESULT).map(ValueId)
    }

    // The type among its own fields.
    fn own_type(self, kind: kinds::Instruction) -> IrType
        requires { (instr_number kind ≡ record_kind self.sheet.now self.at) × (has_type (instr_number kind) ≡ true) }
        ensures { as_type result ≡ own_type_in self.entry (instr_number kind) }
    {
        let offset = match kind {
            kinds::Instruction::ReadLocal | kinds::Instruction::Call => program::TYPE_SECOND,
            _ => program::TYPE_FIRST,
        };
        self.ty(offset)
    }

    // The values that stand from an offset to its end.
    fn values_from(self, offset: usize) -> Ids<'a>
        requires { self.at + offset ≤ self.stop }
        ensures { ids_in result ≡ ids_here ((self.entry.stop - (self.entry.at + offset)) / 2) self.entry.sheet.now (self.entry.at + offset) }
    {
        let at = self.at + offset;
        Ids {
            sheet: self.sheet,
            at,
            left: (self.stop - at) / ID,
        }
    }

    // The rule of its result.
    fn rule(self, kind: kinds::Instruction) -> ResultRule
        requires { instr_number kind ≡ record_kind self.sheet.now self.at }
        ensures own { own_rule (some (rule_of result)) ≡ true → has_type (instr_number kind) ≡ true }
        ensures gives { type_by (rule_of result) (own_type_in self.entry (instr_number kind)) ≡ result_type (instr_in self.entry) }
    {
        ir::kind_row(kind).result
    }

    // The type of its result, by the rule of its kind; None if it gives none.
    pub fn result_type(self) -> Option<IrType>
        ensures { option_of as_type result ≡ result_type (instr_in self.entry) }
    {
        let kind = self.kind();
        match self.rule(kind) {
            ResultRule::Own => Some(self.own_type(kind)),
            ResultRule::OwnUnlessVoid => match self.own_type(kind) {
                IrType::Void => None,
                ty => Some(ty),
            },
            ResultRule::Bool => Some(IrType::Bool),
            ResultRule::U64 => Some(IrType::U64),
            ResultRule::None => None,
        }
    }

    // What it is.
    #[tactic(auto, unfolding(crate::specs::Positions::instr_here))]
    pub fn node(self) -> Instruction<'a>
        ensures { instr_is result ≡ instr_in self.entry }
    {
        let kind = self.kind();
        match kind {
            kinds::Instruction::Const => Instruction::Const(
                self.ty(program::CONST_TYPE),
                self.number(program::CONST_VALUE, WORD),
            ),
            kinds::Instruction::Add => self.binary(BinOp::Add),
            kinds::Instruction::Sub => self.binary(BinOp::Sub),
            kinds::Instruction::Mul => self.binary(BinOp::Mul),
            kinds::Instruction::Div => self.binary(BinOp::Div),
            kinds::Instruction::IrEq => self.binary(BinOp::Eq),
            kinds::Instruction::IrNe => self.binary(BinOp::Neq),
            kinds::Instruction::Lt => self.binary(BinOp::Lt),
            kinds::Instruction::Le => self.binary(BinOp::Lte),
            kinds::Instruction::Gt => self.binary(BinOp::Gt),
            kinds::Instruction::Ge => self.binary(BinOp::Gte),
            kinds::Instruction::Assert => Instruction::Assert(ValueId(self.id(program::ASSERTED))),
            kinds::Instruction::Poseidon => Instruction::Poseidon(
                ValueId(self.id(program::POSEIDON_LEFT)),
                ValueId(self.id(program::POSEIDON_RIGHT)),
            ),
            kinds::Instruction::Emit => Instruction::Emit(
                Name::new(self.id(program::EVENT)),
                self.values_from(program::EVENT_ARGS),
            ),
            kinds::Instruction::Load
            | kinds::Instruction::Store
            | kinds::Instruction::StateRead
            | kinds::Instruction::StateWrite
            | kinds::Instruction::ReadLocal
            | kinds::Instruction::WriteLocal
            | kinds::Instruction::Call
            | kinds::Instruction::ContextRead => self.access_node(kind),
        }
    }

    // The binary instruction of an operator.
    fn binary(self, op: BinOp) -> Instruction<'a>
        requires { (binary_kind (op_of (operator_number op)) ≡ record_kind self.sheet.now self.at) × (self.at + right_at + 2 ≤ self.stop) }
        ensures { instr_is result ≡ instr_in self.entry }
    {
        Instruction::Binary(
            op,
            self.ty(program::BINARY_TYPE),
            ValueId(self.id(program::LEFT)),
            ValueId(self.id(program::RIGHT)),
        )
    }

    // What it is, if it reaches beyond values: for memory, a state word, a local, a function or the context. Apart from `node`, since a function has
    // at most 40 lines.
    #[tactic(auto, unfolding(crate::specs::Positions::instr_here))]
    fn access_node(self, kind: kinds::Instruction) -> Instruction<'a>
        requires is { (instr_number kind ≡ record_kind self.sheet.now self.at) × (is_access kind ≡ true) }
        requires room { self.at + size_here (instr_number kind) ≤ self.stop }
        ensures { instr_is result ≡ instr_in self.entry }
    {
        match kind {
            kinds::Instruction::Load => Instruction::Load(
                self.ty(program::LOAD_TYPE),
                ValueId(self.id(program::LOAD_BASE)),
                self.number(program::LOAD_OFFSET, WORD),
            ),
            kinds::Instruction::Store => Instruction::Store(
                ValueId(self.id(program::STORE_BASE)),
                self.number(program::STORE_OFFSET, WORD),
                ValueId(self.id(program::STORED)),
            ),
            kinds::Instruction::StateRead => Instruction::StateRead(
                self.ty(program::STATE_READ_TYPE),
                self.number(program::STATE_READ_SLOT, SLOT),
            ),
            kinds::Instruction::StateWrite => Instruction::StateWrite(
                self.number(program::STATE_WRITE_SLOT, SLOT),
                ValueId(self.id(program::STATE_WRITTEN)),
            ),
            kinds::Instruction::ReadLocal => Instruction::ReadLocal(
                LocalId(self.id(program::READ_LOCAL)),
                self.ty(program::READ_LOCAL_TYPE),
            ),
            kinds::Instruction::WriteLocal => Instruction::WriteLocal(
                LocalId(self.id(program::WRITE_LOCAL)),
                ValueId(self.id(program::WRITE_LOCAL_VALUE)),
            ),
            kinds::Instruction::Call => Instruction::Call(
                FunctionId(self.id(program::CALLEE)),
                self.values_from(program::CALL_ARGS),
                self.ty(program::CALL_TYPE),
            ),
            kinds::Instruction::ContextRead => {
                Instruction::ContextRead(ContextKind::try_from(self.id(program::CONTEXT)).unwrap())
            }
            _ => unreachable!(),
        }
    }
}

impl Iterator for Ids<'_> {
    type Item = ValueId;

    ghost use Rattle.std.specs.Iterator.{at_most};
    ghost use Rattle.program_nodes.specs.Nodes.{TakesId};

    ghost next_gives = { λ old v new. TakesId old new v };

    ghost remaining = { λ left. at_most left.left };

    fn next(&mut self) -> Option<ValueId> {
        if self.left == 0 {
            return None;
        }
        let value = ValueId(read_u16(self.sheet, self.at));
        self.at += ID;
        self.left -= 1;
        Some(value)
    }
}
