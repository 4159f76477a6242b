// Working memory in lent bytes, a cell for each word: the word, little-endian, and a byte that is 0 where the word is unset.
// Unset is a byte, and no Option: memory is lent as bytes, there is no heap.
#![tactic(auto)]

ghost use Rattle.std.specs.Prelude.{◌≡◌, ◌+◌, ◌≤◌, length};
ghost use Rattle.ir.specs.Answers.{option_of};
ghost use Rattle.machine_memory.specs.Cells.{cell_width, cell, stored, emptied, cleared};

use format::WORD;

// The bytes of a cell: a word, and the mark behind it.
pub const CELL: usize = WORD + 1;

// The word of the cell at a place, if it is set.
#[tactic(auto, unfolding(crate::specs::Cells::cell))]
pub fn get(memory: &[u8], at: usize) -> Option<u64>
    requires { at + cell_width ≤ length memory.now }
    ensures { option_of (λ w. w) result ≡ cell memory.now at }
{
    let mark = at + WORD;
    if memory[mark] == 0 {
        return None;
    }
    Some(reader::read(memory, at, WORD) as u64)
}

// The cell at a place takes a word.
#[tactic(auto, unfolding(crate::specs::Cells::stored))]
pub fn put(memory: &mut [u8], at: usize, word: u64)
    requires { at + cell_width ≤ length memory.old }
    ensures { memory.new ≡ stored memory.old at word }
{
    writer::write(memory, at, WORD, word as usize);
    let mark = at + WORD;
    memory[mark] = 1;
}

// The cell at a place becomes unset.
#[tactic(auto, unfolding(crate::specs::Cells::emptied))]
pub fn forget(memory: &mut [u8], at: usize)
    requires { at + cell_width ≤ length memory.old }
    ensures { memory.new ≡ emptied memory.old at }
{
    let mark = at + WORD;
    memory[mark] = 0;
}

// n bytes from a place on become zeros: no cell within them is set.
pub fn clear(memory: &mut [u8], at: usize, n: usize)
    requires { at + n ≤ length memory.old }
    ensures { memory.new ≡ cleared memory.old at n }
{
    memory[at..at + n].fill(0);
}
