// Where the function under way has its words: a cell for each of its value ids, then one for each local.
ghost use Rattle.std.specs.Prelude.{◌≡◌, ◌+◌, ◌^◌, ◌<◌, true, length};
ghost use Rattle.definitions.specs.Bench.{bytes_for};
ghost use Rattle.program_nodes.specs.Nodes.{ir_of};
ghost use Rattle.machine_state.specs.Owned.{writes_own};

use ir::{LocalId, ValueId};
use machine_memory::CELL;
use machine_slots::ValueIds;

// A function's ids, where its cells start, and how many locals it has. The memory stays an argument of its own: in here it would be a `&mut`, of which
// each contract had to say that it is still the same one. So `Fits` and `Given` relate a memory and a frame.
#[derive(Clone, Copy)]
pub struct Frame<'a> {
    pub ids: ValueIds<'a>,
    pub base: usize,
    pub locals: usize,
    pub ghost locals_are: { locals ≡ length (ir_of ids.function).locals },
    pub ghost end: { base + bytes_for (ir_of ids.function) < 2 ^ 64 },
    pub ghost own: { writes_own (ir_of ids.function) ≡ true },
}

impl Frame<'_> {
    ghost use Rattle.std.specs.Prelude.{◌≡◌, ◌+◌, ◌*◌, ◌<◌, length, IfSome};
    ghost use Rattle.machine_memory.specs.Cells.{cell_width, stored};
    ghost use Rattle.machine_slots.specs.Slots.{id_of, Among};
    ghost use Rattle.machine_state.specs.Frames.{frame_function, frame_ids, word_of, Fits, Given, CellWithin, value_cell, value_place, local_place, value_held, local_held, given, forgotten, local_cell};

    // The place of cell i.
    fn place(&self, i: usize) -> usize
        requires { i < length (frame_ids self.now) + length (frame_function self.now).locals }
        ensures is { result ≡ self.now.base + cell_width * i }
        ensures within { CellWithin self.now result }
    {
        self.base + CELL * i
    }

    // The place of the cell of the value v, if it has one.
    #[tactic(auto, unfolding(crate::specs::Frames::slot_place))]
    fn value_place(&self, v: ValueId) -> Option<usize>
        ensures is { word_of result ≡ value_place self.now v.0 }
        ensures within { IfSome result (CellWithin self.now) }
    {
        let slot = self.ids.slot_of(v)?;
        Some(self.place(slot))
    }

    // The place of the cell of the local l, if there is one.
    #[tactic(auto, using(std::proofs::lemmas::Bool::Decides::nat_tests), unfolding(crate::specs::Frames::slot_place))]
    fn local_place(&self, l: LocalId) -> Option<usize>
        ensures is { word_of result ≡ local_place self.now l.0 }
        ensures within { IfSome result (CellWithin self.now) }
    {
        let slot = l.0 as usize;
        if self.locals <= slot {
            return None;
        }
        Some(self.place(self.ids.count + slot))
    }

    // The word of the value v. `local` differs from it in one call of two, and `unset` from `give`: a function over both would ask which it is.
    #[tactic(auto, unfolding(crate::specs::Frames::held_at))]
    pub fn value(&self, memory: &[u8], v: ValueId) -> Option<u64>
        requires { Fits (length memory.now) self.now }
        ensures { word_of result ≡ value_held memory.now self.now v.0 }
    {
        let cell = self.value_place(v)?;
        machine_memory::get(memory, cell)
    }

    // The word of the local l.
    #[tactic(auto, unfolding(crate::specs::Frames::held_at))]
    pub fn local(&self, memory: &[u8], l: LocalId) -> Option<u64>
        requires { Fits (length memory.now) self.now }
        ensures { word_of result ≡ local_held memory.now self.now l.0 }
    {
        let cell = self.local_place(l)?;
        machine_memory::get(memory, cell)
    }

    // The place of the cell of a value that is one of the function's.
    fn value_cell(&self, v: ValueId) -> usize
        requires { Among v.0 (frame_ids self.now) }
        ensures is { result ≡ value_cell self.now v.0 }
        ensures within { CellWithin self.now result }
    {
        self.value_place(v).unwrap()
    }

    // The value v, where there is one, takes a word.
    #[tactic(auto, unfolding(crate::specs::Frames::given))]
    pub fn give(&self, memory: &mut [u8], v: Option<ValueId>, word: u64)
        requires { Given (length memory.old) self.now (id_of v) }
        ensures { memory.new ≡ given memory.old self.now (id_of v) word }
    {
        if let Some(v) = v {
            let cell = self.value_cell(v);
            machine_memory::put(memory, cell, word);
        }
    }

    // The value v, where there is one, becomes unset.
    #[tactic(auto, unfolding(crate::specs::Frames::forgotten))]
    pub fn unset(&self, memory: &mut [u8], v: Option<ValueId>)
        requires { Given (length memory.old) self.now (id_of v) }
        ensures { memory.new ≡ forgotten memory.old self.now (id_of v) }
    {
        if let Some(v) = v {
            let cell = self.value_cell(v);
            machine_memory::forget(memory, cell);
        }
    }

    // The local l takes a word.
    #[tactic(auto, using(std::proofs::lemmas::Bool::Decides::nat_tests), unfolding(crate::specs::Frames::slot_place))]
    pub fn write_local(&self, memory: &mut [u8], l: LocalId, word: u64)
        requires fits { Fits (length memory.old) self.now }
        requires own { l.0 < length (frame_function self.now).locals }
        ensures { memory.new ≡ stored memory.old (local_cell self.now l.0) word }
    {
        let cell = self.local_place(l).unwrap();
        machine_memory::put(memory, cell, word);
    }
}
