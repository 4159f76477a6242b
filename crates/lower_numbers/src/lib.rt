// Lowering's answer, and that of its check of a contract sheet, as the numbers of document 01, for C to read: one place has the number of each case.
#![tactic(auto)]

ghost use Rattle.std.specs.Prelude.{◌≡◌};
ghost use Rattle.definitions.specs.Answers.{length_numbers, lower_refusal, numbers_of};
ghost use Rattle.definitions.specs.Result.{err, Done};
ghost use Rattle.ir.specs.Answers.{done_of};
ghost use Rattle.lower.specs.Whole.{answer_of};
ghost use Rattle.lower_state.specs.Errors.{error_of};
ghost use Rattle.sheet.specs.Forms.{refusal_of};

use lower::Refusal;
use lower_state::LoweringError;
use numbers::Numbers;
use sheet::ContractError;

// The numbers of what the check of a contract sheet found.
pub fn check_numbers(check: Result<(), ContractError>) -> Numbers
    ensures { result ≡ numbers_of (done_of refusal_of check) }
{
    match check {
        Ok(()) => Numbers::new([]),
        Err(e) => Numbers::from(e),
    }
}

// The numbers of a refusal by the walk of lowering.
fn lowering_numbers(e: LoweringError) -> Numbers
    ensures { result ≡ numbers_of {A = Done} (err (lower_refusal (error_of e))) }
{
    match e {
        LoweringError::UndefinedVariable(n) => Numbers::new([10, n.0 as usize]),
        LoweringError::UndefinedFunction(n) => Numbers::new([11, n.0 as usize]),
        LoweringError::UnresolvedType(s) => Numbers::new([12, s.0 as usize]),
        LoweringError::FieldOfNonStruct => Numbers::new([13]),
        LoweringError::NoSuchField(s, f) => Numbers::new([14, s.0 as usize, f.0 as usize]),
        LoweringError::StructLiteral => Numbers::new([15]),
        LoweringError::MappingRead => Numbers::new([16]),
        LoweringError::MappingWrite => Numbers::new([17]),
        LoweringError::VoidAsValue => Numbers::new([18]),
        LoweringError::PoseidonArguments => Numbers::new([19]),
        LoweringError::MerkleProof => Numbers::new([20]),
        LoweringError::TooManyBlocksOrLocals(i) => Numbers::new([30, i.0 as usize]),
    }
}

// The numbers of lowering's answer. Acceptance has two, 0 and the sheet's length.
pub fn lower_numbers(answer: Result<usize, Refusal>) -> Numbers
    ensures { result ≡ length_numbers (answer_of answer) }
{
    match answer {
        Ok(length) => Numbers::new([0, length]),
        Err(Refusal::Contract(e)) => Numbers::from(e),
        Err(Refusal::Lowering(e)) => lowering_numbers(e),
        Err(Refusal::NoRoom) => Numbers::new([31]),
    }
}
