// The values of a call's or an event's arguments.
use arrayvec::ArrayVec;
use format::contract::MOST_ARGUMENTS;
use ir::ValueId;
use std::marker::Model;

// A list of its own, so that a clause sees the values' numbers.
#[derive(Drop)]
pub struct Args {
    ids: ArrayVec<ValueId, MOST_ARGUMENTS>,
}

impl Model for Args {
    ghost use Rattle.std.specs.Prelude.{List, ℕ};

    ghost Value = { List ℕ };

    ghost use Rattle.lower_emit.specs.Args.{args_in};

    ghost view = { args_in };
}

impl Args {
    ghost use Rattle.std.specs.Prelude.{◌≡◌, ◌<◌, ◌≤◌, ◌++◌, [], ◌∷◌, length};
    ghost use Rattle.definitions.specs.Lower.{two_of};
    ghost use Rattle.ir.specs.Answers.{option_of};
    ghost use Rattle.lower_state.specs.Bytes.{ids_of};

    pub fn new() -> Args
        ensures { result ≡ [] }
    {
        Args {
            ids: ArrayVec::new(),
        }
    }

    pub fn push(&mut self, id: ValueId)
        requires { length self.old < 16 }
        ensures { self.new ≡ self.old ++ (id.0 ∷ []) }
    {
        self.ids.push(id);
    }

    pub fn as_slice(&self) -> &[ValueId]
        ensures is { ids_of result.now ≡ self.now }
        ensures most { length result.now ≤ 16 }
    {
        self.ids.as_slice()
    }

    // Both, if there are two.
    pub fn two(&self) -> Option<(ValueId, ValueId)>
        ensures { option_of (λ p. (p.0.0, p.1.0)) result ≡ two_of self.now }
    {
        match self.as_slice() {
            [first, second] => Some((*first, *second)),
            _ => None,
        }
    }
}
