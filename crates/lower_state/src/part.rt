// A part of a record.
ghost use Rattle.std.specs.Prelude.{◌≤◌};

use format::{ID, TYPE, WORD};

// A number in so many bytes. A record has three, and no array of them: with what fills it up at each call, the calls read no plainer.
#[derive(Clone, Copy)]
pub struct Part {
    pub width: usize,
    pub number: usize,
    pub ghost fits: { width ≤ 8 },
}

impl Part {
    ghost use Rattle.std.specs.Prelude.{◌≡◌};
    ghost use Rattle.lower_state.specs.Bytes.{part_in};

    pub const NOTHING: Part = Part {
        width: 0,
        number: 0,
    };

    // An id or a name, or what a ContextRead reads.
    pub fn id(number: u16) -> Part
        ensures { part_in result ≡ (2, number) }
    {
        Part {
            width: ID,
            number: number as usize,
        }
    }

    // A type or a slot.
    pub fn four(number: usize) -> Part
        ensures { part_in result ≡ (4, number) }
    {
        Part {
            width: TYPE,
            number,
        }
    }

    // A number of a contract, or an offset.
    pub fn eight(number: usize) -> Part
        ensures { part_in result ≡ (8, number) }
    {
        Part {
            width: WORD,
            number,
        }
    }
}
