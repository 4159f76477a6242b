// What is asked of a sheet before anything is done with it: the form of both sheets (refusals 3 and 40), and the length (1) and the
// limits (4) of a contract sheet. 3, 4 and 40 have a place.
#![tactic(auto)]

pub mod errors; // why a sheet is refused
mod limits; // refusal 4
pub mod places; // where things stand in a record that passed
mod records; // refusals 3 and 40

ghost use Rattle.std.specs.Prelude.{◌≡◌};
ghost use Rattle.definitions.specs.Answers.{check_contract};
ghost use Rattle.definitions.specs.ContractSheet.{refusal3, refusal4};
ghost use Rattle.definitions.specs.Records.{Good};
ghost use Rattle.definitions.specs.ProgramSheet.{refusal40};
ghost use Rattle.ir.specs.Answers.{done_of};
ghost use Rattle.sheet.specs.Forms.{form_of, limits_of, refusal_of};

pub use errors::{ContractError, Malformed, OverLimit};
use limits::limits;
use records::records;
use sheet_rows::tables::{Child, Class, Often};

// The patterns of the sheets: one contract, one program.
const ONE_CONTRACT: &[Child] = &[Child {
    class: Class::Contract,
    often: Often::Once,
}];

const ONE_PROGRAM: &[Child] = &[Child {
    class: Class::Program,
    often: Often::Once,
}];

// Refusal 3: one contract and nothing after it.
#[tactic(auto, unfolding(definitions::specs::ContractSheet::refusal3))]
pub fn contract_form(s: &[u8]) -> Result<(), Malformed>
    ensures { form_of result ≡ refusal3 s.now }
{
    records(s, 0, s.len(), ONE_CONTRACT)
}

// Refusal 40: one program and nothing after it.
#[tactic(auto, unfolding(definitions::specs::ProgramSheet::refusal40))]
pub fn program_form(s: &[u8]) -> Result<(), Malformed>
    ensures { form_of result ≡ refusal40 s.now }
{
    records(s, 0, s.len(), ONE_PROGRAM)
}

// Refusal 4, of a contract sheet whose form is good.
fn contract_limits(s: &[u8]) -> Result<(), OverLimit>
    requires { refusal3 s.now ≡ Good }
    ensures { limits_of result ≡ refusal4 s.now }
{
    limits(s, 0, s.len(), 1)
}

// Refusals 1, 3 and 4 of a contract sheet, in this order.
pub fn check_contract(s: &[u8]) -> Result<(), ContractError>
    ensures { done_of refusal_of result ≡ check_contract s.now }
{
    if format::MOST_BYTES < s.len() {
        return Err(ContractError::TooLong);
    }
    contract_form(s)?;
    contract_limits(s)?;
    Ok(())
}
