// Why a contract sheet has no program sheet.
ghost use Rattle.std.specs.Prelude.{◌≡◌};
ghost use Rattle.lower.specs.declared.refusal.Refusal.TheVariants as refusal;

use lower_state::LoweringError;
use sheet::ContractError;
use thiserror::Error;

#[derive(Clone, Copy, Debug, Error)]
pub enum Refusal {
    #[error(transparent)]
    Contract(ContractError),
    #[error(transparent)]
    Lowering(LoweringError),
    #[error("the program sheet does not fit the output")]
    NoRoom,
}

// By hand: the derive's `From` has no `from_gives`, so nothing would be known of the error that `?` hands on.
impl From<ContractError> for Refusal {
    ghost from_gives = { λ e r. r ≡ refusal.Contract e };

    fn from(e: ContractError) -> Refusal {
        Refusal::Contract(e)
    }
}

impl From<LoweringError> for Refusal {
    ghost from_gives = { λ e r. r ≡ refusal.Lowering e };

    fn from(e: LoweringError) -> Refusal {
        Refusal::Lowering(e)
    }
}
