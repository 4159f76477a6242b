// The body check's answer as the numbers of document 01, for C to read: one place has the number of each case.
#![tactic(auto)]

ghost use Rattle.std.specs.Prelude.{◌≡◌, [], ◌∷◌};
ghost use Rattle.analyze.specs.Whole.{answer_of};
ghost use Rattle.analyze_state.specs.Errors.{error_of};
ghost use Rattle.definitions.specs.Answers.{numbers_of, refusal};

use analyze::Refusal;
use analyze_state::SemaError;
use numbers::Numbers;

// The number of every error; the number of its text is the second detail.
const SEMA: usize = 51;

// The place of an error, and the number of its text.
fn details(e: SemaError) -> (usize, usize)
    ensures { error_of e ≡ refusal 51 (result.0 ∷ result.1 ∷ []) }
{
    match e {
        SemaError::AssignMismatch(p) => (p, 1),
        SemaError::UndefinedVariable(p) => (p, 2),
        SemaError::ReturnMismatch(p) => (p, 3),
        SemaError::UndefinedIdentifier(p) => (p, 4),
        SemaError::NoSuchField(p) => (p, 5),
        SemaError::FieldOfNonStruct(p) => (p, 6),
        SemaError::FieldMismatch(p) => (p, 7),
        SemaError::UnknownField(p) => (p, 8),
        SemaError::UndefinedStruct(p) => (p, 9),
        SemaError::ArgumentCount(p) => (p, 10),
        SemaError::ArgumentMismatch(p) => (p, 11),
        SemaError::UndefinedFunction(p) => (p, 12),
        SemaError::BinaryMismatch(p) => (p, 13),
    }
}

// The numbers of the body check's answer.
pub fn analyze_numbers(answer: Result<(), Refusal>) -> Numbers
    ensures { result ≡ numbers_of (answer_of answer) }
{
    match answer {
        Ok(()) => Numbers::new([]),
        Err(Refusal::Contract(e)) => Numbers::from(e),
        Err(Refusal::Sema(e)) => {
            let (place, text) = details(e);
            Numbers::new([SEMA, place, text])
        }
    }
}
