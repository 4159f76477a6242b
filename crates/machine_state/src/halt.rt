// Why a run stops.
ghost use Rattle.std.specs.Prelude.{◌≡◌};
ghost use Rattle.machine_state.specs.declared.halt.Halt.TheVariants as halts;

use machine_arithmetic::ZeroDivisor;
use std::fmt;
use thiserror::Error;

// An outcome's cause, or too little memory.
#[derive(Clone, Copy, Debug, Error)]
pub enum Halt {
    #[error(fmt = returned)]
    Returned(Option<u64>),
    #[error("zero divisor")]
    ZeroDivisor,
    #[error("list used up")]
    ListUsedUp,
    #[error("slot absent")]
    SlotAbsent,
    #[error("a seventeenth open function")]
    Seventeenth,
    #[error("a Store")]
    Store,
    #[error("an Unreachable")]
    Unreachable,
    #[error("no block to start in")]
    NoStartBlock,
    #[error("something unset")]
    Unset,
    #[error("too little memory")]
    TooLittleMemory,
}

fn returned<W: fmt::Write>(word: &Option<u64>, f: &mut fmt::Formatter<W>) -> fmt::Result {
    match word {
        Some(word) => write!(f, "returned {word}"),
        None => write!(f, "returned"),
    }
}

// `From` by hand: the derive's has no `from_gives`, so that nothing were known of what `?` passes on.
impl From<ZeroDivisor> for Halt {
    ghost from_gives = { λ _ halt. halt ≡ halts.ZeroDivisor };

    fn from(_error: ZeroDivisor) -> Halt {
        Halt::ZeroDivisor
    }
}
