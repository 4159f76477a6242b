// A function under way.
ghost use Rattle.std.specs.Prelude.{◌≡◌, ◌≤◌, IfSome};
ghost use Rattle.lower_walk.specs.Log.{capped};
ghost use Rattle.lower_state.specs.Bytes.{log_end};

use crate::records::put_record;
use crate::{LOST, Log, LoweringError, MOST_BLOCKS, MOST_LOCALS, Part, id_or_absent};
use format::{MOST_BYTES, kinds};
use ir::{BlockId, FunctionId, IrType, LocalId, ValueId};
use lower_counters::Counters;
use std::marker::Model;

// Where the records of a block start and stop in the log.
#[derive(Clone, Copy)]
struct Span {
    start: u32,
    stop: u32,
}

// The three blocks of an If (then, else, merge), a While or a For (header, body, exit).
#[derive(Clone, Copy)]
pub struct ThreeBlocks {
    pub first: BlockId,
    pub second: BlockId,
    pub third: BlockId,
}

// A function under way (`FnCtx`): its id, the next value, block and local, the current block and whether that has its terminator, the
// place behind the log's last record, which is None once a record did not fit, the log, the types of the locals, and where each
// block's records stand. The current block and `ended` are no Option of an open block: the state of the walk, which a clause sees, has the
// current block behind its terminator too. The two lists are arrays: the counters have their lengths, which an ArrayVec would count again
// (tried for the locals: as fast).
#[derive(Clone, Copy)]
pub struct FnCtx {
    function: FunctionId,
    counters: Counters,
    current: BlockId,
    ended: bool,
    to: Option<usize>,
    log: Log,
    locals: [IrType; MOST_LOCALS],
    spans: [Span; MOST_BLOCKS],
}

// A clause sees the state of the walk. What that does not show is blank (zeros behind the log's records, U64 behind the locals' types), so that
// it gives the fields back, which Copy asks.
impl Model for FnCtx {
    ghost use Rattle.lower_walk.specs.Stmts.{LogCtx};

    ghost Value = { LogCtx };

    ghost use Rattle.lower_state.specs.State.{ctx_in};
    ghost use Rattle.lower_state.specs.Restored.{Restorable, ctx_back, ctx_restored};

    ghost view = { ctx_in };

    ghost invariant = { Restorable };

    ghost inverse = { ctx_back };

    ghost inverse_ok = { ctx_restored };
}

// A place of the log as a number of a span: one stands for all that are over the room.
fn place_of(to: Option<usize>) -> u32
    requires { IfSome to (λ n. n ≤ 32768) }
    ensures { result ≡ capped (log_end to) }
{
    to.unwrap_or(LOST) as u32
}

impl FnCtx {
    ghost use Rattle.std.specs.Prelude.{◌≤◌, ◌<◌, [], map, length, leb, get_or, replicate, IfOk};
    ghost use Rattle.format.specs.Kinds.{instr_number, term_number};
    ghost use Rattle.ir.specs.Types.{as_type};
    ghost use Rattle.lower_walk.specs.Stmts.{taken, closed, switch_to, three_blocks, new_local};
    ghost use Rattle.lower_walk.specs.Grown.{Grown};
    ghost use Rattle.lower_walk.specs.Layout.{new_ctx, slice};
    ghost use Rattle.lower_state.specs.Answers.{with_state, KeptIfErr};
    ghost use Rattle.lower_state.specs.Bytes.{part_in, no_part, first_number, record_bytes, ids_of};
    ghost use Rattle.lower_state.specs.State.{appended, blocks_of, BlocksMade, BlockWithin};

    #[tactic(auto, unfolding(lower_walk::specs::Layout::new_ctx))]
    pub fn new(function: FunctionId) -> FnCtx
        ensures { result ≡ new_ctx function.0 (replicate 256 0) (replicate 256 0) }
    {
        let mut counters = Counters::START;
        let current = counters.next_block();
        FnCtx {
            function,
            counters,
            current,
            ended: false,
            to: Some(0),
            log: [0; MOST_BYTES],
            locals: [IrType::U64; MOST_LOCALS],
            spans: [Span { start: 0, stop: 0 }; MOST_BLOCKS],
        }
    }

    // The same for another function, in the same memory: the first block is the current one, and nothing is in the log. Only what the function
    // before wrote is cleared. `new` makes the arrays, once for a contract, so it does not end in a call of this.
    pub fn begin(&mut self, function: FunctionId)
        ensures is { self.new ≡ new_ctx function.0 self.old.starts self.old.stops }
        ensures sizes { (length self.old.starts ≡ 256) × (length self.old.stops ≡ 256) }
    {
        self.log[..self.to.unwrap_or(0)].fill(0);
        self.locals[..self.counters.local as usize].fill(IrType::U64);
        self.function = function;
        self.counters = Counters::START;
        self.current = self.counters.next_block();
        self.ended = false;
        self.to = Some(0);
        self.spans[0].start = 0;
    }

    pub fn next_value(&mut self) -> ValueId
        ensures number { result.0 ≡ self.old.log.value }
        ensures counted { self.new ≡ taken self.old }
    {
        self.counters.next_value()
    }

    // Three blocks, or none if one of them would be the 257th.
    #[tactic(auto, using(std::proofs::lemmas::Bool::Decides::nat_tests), unfolding(lower_walk::specs::Stmts::three_blocks))]
    pub fn three_blocks(&mut self) -> Result<ThreeBlocks, LoweringError>
        ensures is { with_state blocks_of self.new result ≡ three_blocks self.old }
        ensures among { IfOk result (λ blocks. BlocksMade self.new blocks) }
        ensures grown { Grown self.old self.new }
        ensures refused { KeptIfErr result self.old self.new }
    {
        if MOST_BLOCKS - 3 < self.counters.block as usize {
            return Err(LoweringError::TooManyBlocksOrLocals(self.function));
        }
        let first = self.counters.next_block();
        let second = self.counters.next_block();
        let third = self.counters.next_block();
        Ok(ThreeBlocks {
            first,
            second,
            third,
        })
    }

    // A local, unless it would be the 257th.
    pub fn new_local(&mut self, ty: IrType) -> Result<LocalId, LoweringError>
        ensures is { with_state (λ l. l.0) self.new result ≡ new_local (as_type ty) self.old }
        ensures refused { KeptIfErr result self.old self.new }
    {
        if MOST_LOCALS <= self.counters.local as usize {
            return Err(LoweringError::TooManyBlocksOrLocals(self.function));
        }
        let local = self.counters.next_local();
        self.locals[local.0 as usize] = ty;
        Ok(local)
    }

    // An instruction's record behind the last one, with the value that it gives.
    pub fn append(
        &mut self,
        kind: kinds::Instruction,
        value: Option<ValueId>,
        a: Part,
        b: Part,
        c: Part,
    )
        ensures { self.new ≡ appended (record_bytes (instr_number kind) (first_number value) (part_in a) (part_in b) (part_in c) []) self.old }
    {
        self.append_record(kind as u16, id_or_absent(value), a, b, c, &[]);
    }

    // One that ends in ids.
    pub fn append_list(
        &mut self,
        kind: kinds::Instruction,
        value: Option<ValueId>,
        a: Part,
        b: Part,
        ids: &[ValueId],
    )
        requires { length ids.now ≤ 16 }
        ensures { self.new ≡ appended (record_bytes (instr_number kind) (first_number value) (part_in a) (part_in b) no_part (ids_of ids.now)) self.old }
    {
        self.append_record(kind as u16, id_or_absent(value), a, b, Part::NOTHING, ids);
    }

    // A terminator's record, with the id that it starts with.
    pub fn append_terminator(&mut self, kind: kinds::Terminator, first: u16, a: Part, b: Part)
        ensures { self.new ≡ appended (record_bytes (term_number kind) first (part_in a) (part_in b) no_part []) self.old }
    {
        self.append_record(kind as u16, first, a, b, Part::NOTHING, &[]);
    }

    fn append_record(&mut self, kind: u16, first: u16, a: Part, b: Part, c: Part, ids: &[ValueId])
        requires { length ids.now ≤ 16 }
        ensures { self.new ≡ appended (record_bytes kind first (part_in a) (part_in b) (part_in c) (ids_of ids.now)) self.old }
    {
        if let Some(at) = self.to {
            self.to = put_record(&mut self.log, at, kind, first, a, b, c, ids);
        }
    }

    // Whether the current block has its terminator.
    pub fn is_ended(&self) -> bool
        ensures { result ≡ self.now.ended }
    {
        self.ended
    }

    // The current block's records, its terminator the last of them, stop at the log's place.
    pub fn close(&mut self)
        ensures { self.new ≡ closed self.old }
    {
        let block = self.current.0 as usize;
        self.spans[block].stop = place_of(self.to);
        self.ended = true;
    }

    pub fn switch_to(&mut self, block: BlockId)
        requires { block.0 < self.old.next_block }
        ensures { self.new ≡ switch_to block.0 self.old }
    {
        self.spans[block.0 as usize].start = place_of(self.to);
        self.current = block;
        self.ended = false;
    }

    // Whether the log holds all records.
    pub fn is_whole(&self) -> bool
        ensures { result ≡ leb self.now.log.at 32768 }
    {
        self.to.is_some()
    }

    // How many blocks there are.
    pub fn blocks(&self) -> u16
        ensures count { result ≡ self.now.next_block }
        ensures most { result ≤ 256 }
    {
        self.counters.block
    }

    // The types of the locals.
    pub fn locals(&self) -> &[IrType]
        ensures is { map as_type result.now ≡ self.now.locals }
        ensures most { length result.now ≤ 256 }
    {
        &self.locals[..self.counters.local as usize]
    }

    // The records of a block.
    pub fn records(&self, block: BlockId) -> &[u8]
        requires among { block.0 < self.now.next_block }
        requires within { BlockWithin self.now block.0 }
        ensures { result.now ≡ slice self.now.log.bytes (get_or self.now.starts block.0 0) (get_or self.now.stops block.0 0) }
    {
        let span = self.spans[block.0 as usize];
        &self.log[span.start as usize..span.stop as usize]
    }
}
