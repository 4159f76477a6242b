// Why a sheet is refused.
ghost use Rattle.std.specs.Prelude.{◌≡◌};
ghost use Rattle.sheet.specs.declared.errors.ContractError.TheVariants as error;

use thiserror::Error;

// No record that fits starts at this place, or surplus begins there.
#[derive(Clone, Copy, Debug, Error)]
#[error("no record of this form at byte {0}")]
pub struct Malformed(pub usize);

// The record at this place is the first that is over a limit.
#[derive(Clone, Copy, Debug, Error)]
#[error("the record at byte {0} is over a limit")]
pub struct OverLimit(pub usize);

// Why a contract sheet is refused before it is walked.
#[derive(Clone, Copy, Debug, Error)]
pub enum ContractError {
    #[error("the sheet is too long")]
    TooLong,
    #[error(transparent)]
    Malformed(Malformed),
    #[error(transparent)]
    OverLimit(OverLimit),
}

// By hand: the derive's `From` has no `from_gives`, so nothing would be known of the error that `?` hands on.
impl From<Malformed> for ContractError {
    ghost from_gives = { λ fault e. e ≡ error.Malformed fault };

    fn from(fault: Malformed) -> ContractError {
        ContractError::Malformed(fault)
    }
}

impl From<OverLimit> for ContractError {
    ghost from_gives = { λ fault e. e ≡ error.OverLimit fault };

    fn from(fault: OverLimit) -> ContractError {
        ContractError::OverLimit(fault)
    }
}
