// What an answer says, as numbers: for C and Rust to read, and for the line that is printed. Each operation has the numbers of its own cases.
#![tactic(auto)]

ghost use Rattle.std.specs.Prelude.{◌≡◌, ◌≤◌, length, take};
ghost use Rattle.definitions.specs.Answers.{numbers_of, padded};
ghost use Rattle.definitions.specs.Result.{err, Done};
ghost use Rattle.sheet.specs.Forms.{refusal_of};

use sheet::{ContractError, Malformed, OverLimit};
use std::marker::Model;

// The most numbers that an answer has: a refusal's own, and five details.
pub const MOST_NUMBERS: usize = 6;

// An answer's numbers: a refusal's own and its details, in order. Acceptance has none, or 0 and a length. A count and an array, and no `ArrayVec`:
// C reads the zeros behind the numbers too, and behind an `ArrayVec` nothing is known to stand.
#[derive(Clone, Copy)]
pub struct Numbers {
    count: usize,
    list: [usize; MOST_NUMBERS],
}

// A clause sees the numbers themselves. Zeros stand behind them in the array.
impl Model for Numbers {
    ghost use Rattle.std.specs.Prelude.{List, ℕ, ◌≡◌, ◌≤◌, length, take};
    ghost use Rattle.definitions.specs.Answers.{padded};

    ghost Value = { List ℕ };

    ghost view = { λ n. take n.count n.list };

    ghost invariant = { λ n. (n.count ≤ 6) × (n.list ≡ padded 6 (take n.count n.list)) };

    ghost inverse = { λ l. record { count = length l; list = padded 6 l } };

    ghost use Rattle.std.proofs.Common.{sym};
    ghost use Rattle.numbers.specs.Restored.{restored_length};

    ghost inverse_ok = { λ a h i. record { count = restored_length a.count a.list h i; list = sym h.1 i } };
}

impl Numbers {
    // The numbers of a list.
    pub fn new<const N: usize>(list: [usize; N]) -> Numbers
        requires { N ≤ 6 }
        ensures { result ≡ list.entry }
    {
        let mut all = [0; MOST_NUMBERS];
        all[..N].copy_from_slice(&list);
        Numbers {
            count: N,
            list: all,
        }
    }

    // The first `count` numbers of a list: all six where it says more.
    pub fn first(count: usize, list: [usize; MOST_NUMBERS]) -> Numbers
        ensures { result ≡ take count list }
    {
        let count = count.min(MOST_NUMBERS);
        let mut all = [0; MOST_NUMBERS];
        all[..count].copy_from_slice(&list[..count]);
        Numbers { count, list: all }
    }

    // The numbers, six at most.
    pub fn as_slice(&self) -> &[usize]
        ensures is { result.now ≡ self.now }
        ensures most { length result.now ≤ 6 }
    {
        &self.list[..self.count]
    }

    // The numbers with zeros behind them, as C reads them.
    pub fn padded(&self) -> [usize; MOST_NUMBERS]
        ensures { result ≡ padded 6 self.now }
    {
        self.list
    }
}

// The numbers of a contract sheet that is refused before the walk.
impl From<ContractError> for Numbers {
    ghost from_gives = { λ e n. n ≡ numbers_of {A = Done} (err (refusal_of e)) };

    fn from(e: ContractError) -> Numbers {
        match e {
            ContractError::TooLong => Numbers::new([1]),
            ContractError::Malformed(Malformed(place)) => Numbers::new([3, place]),
            ContractError::OverLimit(OverLimit(place)) => Numbers::new([4, place]),
        }
    }
}
