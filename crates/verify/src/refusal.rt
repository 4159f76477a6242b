// Why a program sheet is refused.
ghost use Rattle.std.specs.Prelude.{◌≡◌};
ghost use Rattle.verify.specs.declared.refusal.Refusal.TheVariants as refusal;

use sheet::Malformed;
use thiserror::Error;
use verify_state::VerifyError;

#[derive(Clone, Copy, Debug, Error)]
pub enum Refusal {
    #[error("the sheet is too long")]
    TooLong,
    #[error(transparent)]
    Malformed(Malformed),
    #[error(transparent)]
    Verify(VerifyError),
}

// By hand: the derive's `From` has no `from_gives`, so nothing would be known of the error that `?` hands on.
impl From<Malformed> for Refusal {
    ghost from_gives = { λ fault r. r ≡ refusal.Malformed fault };

    fn from(fault: Malformed) -> Refusal {
        Refusal::Malformed(fault)
    }
}

impl From<VerifyError> for Refusal {
    ghost from_gives = { λ e r. r ≡ refusal.Verify e };

    fn from(e: VerifyError) -> Refusal {
        Refusal::Verify(e)
    }
}
