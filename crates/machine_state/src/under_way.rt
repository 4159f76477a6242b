// The function under way.
use crate::frame::Frame;
use crate::halt::Halt;
use ir::BlockId;
use program_nodes::Records;

// Its frame, what is left of its block, if it has one to start in, and how many functions wait.
#[derive(Clone, Copy)]
pub struct UnderWay<'a> {
    pub frame: Frame<'a>,
    pub block: Option<Records<'a>>,
    pub depth: usize,
}

impl UnderWay<'_> {
    ghost use Rattle.definitions.specs.Bench.{Machine, go_to};
    ghost use Rattle.std.specs.Prelude.{ℕ};
    ghost use Rattle.machine_state.specs.Running.{Goes};

    // To the first block with an id.
    pub fn go_to(&mut self, b: BlockId) -> Result<(), Halt>
        ensures { Goes self.old self.new result (λ (m : Machine ℕ). go_to m b.0) }
    {
        let block = program_lookup::find_block(self.frame.ids.function, b).ok_or(Halt::Unset)?;
        self.block = Some(block.records());
        Ok(())
    }
}
