// Blocks and their records.
ghost use Rattle.std.specs.Prelude.{◌≡◌, ◌-◌};
ghost use Rattle.program_nodes.specs.Standing.{BlocksStand, BlockStands, InBlockStand};

use crate::instr::Instr;
use crate::term::Term;
use format::{KIND, LENGTH_BYTES, kinds, program};
use ir::BlockId;
use reader::{read, read_u16};

// The kinds of a block's records from here on are those of terminators.
const FIRST_TERMINATOR: u16 = kinds::Terminator::Jump as u16;

// The blocks that stand from a place to an end.
#[derive(Clone, Copy)]
pub struct Blocks<'a> {
    pub sheet: &'a [u8],
    pub at: usize,
    pub end: usize,
    pub ghost here: { BlocksStand sheet.now at end },
}

// A block by its place, and where it stops.
#[derive(Clone, Copy)]
pub struct Block<'a> {
    pub sheet: &'a [u8],
    pub at: usize,
    pub stop: usize,
    pub ghost here: { BlockStands sheet.now at stop },
}

// The records of a block from a place to its end.
#[derive(Clone, Copy)]
pub struct Records<'a> {
    pub sheet: &'a [u8],
    pub at: usize,
    pub end: usize,
    pub ghost here: { InBlockStand sheet.now at end },
}

// A record of a block: an instruction, or the terminator that it ends with.
#[derive(Clone, Copy)]
pub enum Record<'a> {
    Instr(Instr<'a>),
    Term(Term<'a>),
}

impl<'a> Iterator for Blocks<'a> {
    type Item = Block<'a>;

    ghost use Rattle.std.specs.Iterator.{at_most};
    ghost use Rattle.program_nodes.specs.Nodes.{TakesBlock};

    ghost next_gives = { λ old block new. TakesBlock old new block };

    ghost remaining = { λ left. at_most (left.end - left.at) };

    fn next(&mut self) -> Option<Block<'a>> {
        let at = self.at;
        if self.end <= at {
            return None;
        }
        let stop = at + read(self.sheet, at, LENGTH_BYTES);
        self.at = stop;
        Some(Block {
            sheet: self.sheet,
            at,
            stop,
        })
    }
}

impl<'a> Block<'a> {
    ghost use Rattle.program_nodes.specs.Nodes.{block_in, RecordsOf};

    pub fn id(self) -> BlockId
        ensures { result.0 ≡ (block_in self.entry).id }
    {
        BlockId(read_u16(self.sheet, self.at + program::BLOCK_ID))
    }

    // Its instructions and its terminator.
    pub fn records(self) -> Records<'a>
        ensures { RecordsOf self.entry result }
    {
        Records {
            sheet: self.sheet,
            at: self.at + program::RECORDS,
            end: self.stop,
        }
    }
}

impl<'a> Iterator for Records<'a> {
    type Item = Record<'a>;

    ghost use Rattle.std.specs.Iterator.{at_most};
    ghost use Rattle.program_nodes.specs.Nodes.{TakesRecord};

    ghost next_gives = { λ old first new. TakesRecord old new first };

    ghost remaining = { λ left. at_most (left.end - left.at) };

    fn next(&mut self) -> Option<Record<'a>> {
        let sheet = self.sheet;
        let at = self.at;
        if self.end <= at {
            return None;
        }
        // The kind is compared as a number: decoded into an enum, verifying takes a fifth more time.
        let kind = read_u16(sheet, at + KIND);
        if kind < FIRST_TERMINATOR {
            let stop = at + read(sheet, at, LENGTH_BYTES);
            self.at = stop;
            return Some(Record::Instr(Instr { sheet, at, stop }));
        }
        let stop = self.end;
        self.at = stop;
        Some(Record::Term(Term { sheet, at, stop }))
    }
}
