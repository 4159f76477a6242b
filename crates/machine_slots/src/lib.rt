// Which cell of its function's frame a value has, by the cell's number there: its slot (no slot of the state). A function's ids are those of its
// parameters, then its result ids, in order.
#![tactic(auto)]

ghost use Rattle.std.specs.Prelude.{◌≡◌, ◌+◌, ◌^◌, ◌<◌, leb, length};
ghost use Rattle.ir.specs.Answers.{option_of};
ghost use Rattle.program_nodes.specs.Nodes.{ir_of, block_in};
ghost use Rattle.machine_slots.specs.Slots.{id_of, none_yet, passed, searched, block_results, value_ids, index_of, above_all, slot_in};

use ir::ValueId;
use program_nodes::{Block, Function, Record};

// How many ids a search has passed, and a number above all of them.
#[derive(Clone, Copy)]
struct Tally {
    count: usize,
    above: usize,
}

impl Tally {
    // One more id, or the position of v if it is that.
    fn pass(self, id: ValueId, v: Option<ValueId>) -> Result<Self, usize>
        requires { self.count + 1 < 2 ^ 64 }
        ensures { result ≡ passed self id.0 (id_of v) }
    {
        if v == Some(id) {
            return Err(self.count);
        }
        Ok(Tally {
            count: self.count + 1,
            above: self.above.max(id.0 as usize + 1),
        })
    }

    // The result ids of a block, up to v.
    fn pass_block(self, block: Block, v: Option<ValueId>) -> Result<Self, usize>
        requires { self.count + length (block_results (block_in block).instrs) < 2 ^ 64 }
        ensures { result ≡ searched self (block_results (block_in block.entry).instrs) (id_of v) }
    {
        let mut tally = self;
        for record in block.records() {
            let Record::Instr(instr) = record else {
                return Ok(tally);
            };
            if let Some(id) = instr.result() {
                tally = tally.pass(id, v)?;
            }
        }
        Ok(tally)
    }
}

// All ids of a function, or the position of v if it is one of them. One walk counts and seeks: an Err ends it early, as in `try_fold`.
fn search(f: Function, v: Option<ValueId>) -> Result<Tally, usize>
    ensures { result ≡ searched none_yet (value_ids (ir_of f.entry)) (id_of v) }
{
    let mut tally = Tally { count: 0, above: 0 };
    for param in f.params() {
        let id = param.value();
        tally = tally.pass(id, v)?;
    }
    for block in f.blocks() {
        tally = tally.pass_block(block, v)?;
    }
    Ok(tally)
}

// The ids of a function: how many there are, and a number above all of them.
#[derive(Clone, Copy)]
pub struct ValueIds<'a> {
    pub function: Function<'a>,
    pub count: usize,
    pub above: usize,
    pub ghost count_is: { count ≡ length (value_ids (ir_of function)) },
    pub ghost above_is: { above ≡ above_all (value_ids (ir_of function)) },
}

impl<'a> ValueIds<'a> {
    pub fn of(f: Function<'a>) -> Self
        ensures of_function { result.function ≡ f.entry }
        ensures count_value { result.count ≡ length (value_ids (ir_of f.entry)) }
        ensures above_value { result.above ≡ above_all (value_ids (ir_of f.entry)) }
    {
        let tally = search(f, None).unwrap();
        ValueIds {
            function: f,
            count: tally.count,
            above: tally.above,
        }
    }

    // Whether they are dense, all of them below their count.
    pub fn dense(self) -> bool
        ensures { result ≡ leb self.entry.above self.entry.count }
    {
        self.above <= self.count
    }

    // The position of v among them; their count if it is none of them.
    pub fn index_of(self, v: ValueId) -> usize
        ensures { result ≡ index_of v.0 (value_ids (ir_of self.entry.function)) }
    {
        match search(self.function, Some(v)) {
            Err(position) => position,
            Ok(tally) => tally.count,
        }
    }

    // The slot of v in the frame of their function, if it has one.
    pub fn slot_of(self, v: ValueId) -> Option<usize>
        ensures { option_of (λ i. i) result ≡ slot_in (value_ids (ir_of self.entry.function)) v.0 }
    {
        if !self.dense() {
            return search(self.function, Some(v)).err();
        }
        let slot = v.0 as usize;
        (slot < self.count).then_some(slot)
    }
}
