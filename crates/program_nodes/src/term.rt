// Terminators and what they are.
ghost use Rattle.program_nodes.specs.Standing.{TermStands};

use format::{KIND, kinds, program};
use ir::{BlockId, ValueId};
use reader::read_u16;
use sheet::places;

// A terminator by its place, and where its record stops.
#[derive(Clone, Copy)]
pub struct Term<'a> {
    pub sheet: &'a [u8],
    pub at: usize,
    pub stop: usize,
    pub ghost here: { TermStands sheet.now at stop },
}

// What a terminator is (`Terminator` of `ir/mod.rs`).
#[derive(Clone, Copy)]
pub enum Terminator {
    Jump(BlockId),
    Branch(ValueId, BlockId, BlockId),
    Return(Option<ValueId>),
    Unreachable,
}

impl Term<'_> {
    ghost use Rattle.std.specs.Prelude.{◌≡◌, ◌+◌, ◌≤◌, length};
    ghost use Rattle.definitions.specs.Fields.{le};
    ghost use Rattle.format.specs.Kinds.{term_number};
    ghost use Rattle.sheet.specs.Passed.{record_kind};
    ghost use Rattle.program_nodes.specs.Positions.{term_size};
    ghost use Rattle.program_nodes.specs.Nodes.{term_in, term_is};

    fn kind(self) -> kinds::Terminator
        ensures is { term_number result ≡ record_kind self.entry.sheet.now self.entry.at }
        ensures fits { self.entry.at + term_size (term_number result) ≤ length self.entry.sheet.now }
    {
        kinds::Terminator::try_from(read_u16(self.sheet, self.at + KIND)).unwrap()
    }

    // The id that stands at an offset.
    fn id(self, offset: usize) -> u16
        requires { self.at + offset + 2 ≤ length self.sheet.now }
        ensures { result ≡ le 2 self.entry.sheet.now (self.entry.at + offset) }
    {
        read_u16(self.sheet, self.at + offset)
    }

    // What it is.
    #[tactic(auto, unfolding(crate::specs::Positions::term_here))]
    pub fn node(self) -> Terminator
        ensures { term_is result ≡ term_in self.entry }
    {
        match self.kind() {
            kinds::Terminator::Jump => Terminator::Jump(BlockId(self.id(program::TARGET))),
            kinds::Terminator::Branch => Terminator::Branch(
                ValueId(self.id(program::CONDITION)),
                BlockId(self.id(program::THEN)),
                BlockId(self.id(program::ELSE)),
            ),
            kinds::Terminator::Return => {
                let value = places::opt_id(self.sheet, self.at + program::RETURNED);
                Terminator::Return(value.map(ValueId))
            }
            kinds::Terminator::Unreachable => Terminator::Unreachable,
        }
    }
}
