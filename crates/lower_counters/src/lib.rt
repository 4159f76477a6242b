// The counters of a function under way, which are lent and changed as numbers are taken.
#![tactic(auto)]

ghost use Rattle.std.specs.Prelude.{◌≡◌, ◌<◌};
ghost use Rattle.lower_counters.specs.Count.{value_taken, block_taken, local_taken};

use ir::{BlockId, LocalId, ValueId};

// The numbers of the next value, block and local.
#[derive(Clone, Copy)]
pub struct Counters {
    pub value: u16,
    pub block: u16,
    pub local: u16,
}

impl Counters {
    pub const START: Counters = Counters {
        value: 0,
        block: 0,
        local: 0,
    };

    // A function for each of three id types, which never pass for one another.
    pub fn next_value(&mut self) -> ValueId
        ensures number { result.0 ≡ self.old.value }
        ensures counted { self.new ≡ value_taken self.old }
    {
        let value = self.value;
        self.value = value.wrapping_add(1);
        ValueId(value)
    }

    pub fn next_block(&mut self) -> BlockId
        requires { self.old.block < 65535 }
        ensures number { result.0 ≡ self.old.block }
        ensures counted { self.new ≡ block_taken self.old }
    {
        let block = self.block;
        self.block = block + 1;
        BlockId(block)
    }

    pub fn next_local(&mut self) -> LocalId
        requires { self.old.local < 65535 }
        ensures number { result.0 ≡ self.old.local }
        ensures counted { self.new ≡ local_taken self.old }
    {
        let local = self.local;
        self.local = local + 1;
        LocalId(local)
    }
}
