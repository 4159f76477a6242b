// The verifier's answer as the numbers of document 01, for C to read: one place has the number of each case.
#![tactic(auto)]

ghost use Rattle.std.specs.Prelude.{◌≡◌};
ghost use Rattle.definitions.specs.Answers.{numbers_of, verify_refusal, got_tag, got_name};
ghost use Rattle.definitions.specs.Ir.{tag_of, name_of};
ghost use Rattle.definitions.specs.Result.{err, Done};
ghost use Rattle.ir.specs.Answers.{option_of};
ghost use Rattle.ir.specs.Types.{as_type};
ghost use Rattle.verify_state.specs.Errors.{error_of};
ghost use Rattle.verify.specs.Answers.{answer_of};

use ir::{IrType, NO_TYPE};
use numbers::Numbers;
use sheet::Malformed;
use verify::Refusal;
use verify_state::VerifyError;

// The tag and the name of a type.
fn type_numbers(t: IrType) -> (usize, usize)
    ensures { (result.0 ≡ tag_of (as_type t)) × (result.1 ≡ name_of (as_type t)) }
{
    let (tag, name) = t.parts();
    (tag as usize, name as usize)
}

// Those of the type that was got, if there is one.
fn got_numbers(got: Option<IrType>) -> (usize, usize)
    ensures { (result.0 ≡ got_tag (option_of as_type got)) × (result.1 ≡ got_name (option_of as_type got)) }
{
    match got {
        Some(t) => type_numbers(t),
        None => (NO_TYPE, 0),
    }
}

// The numbers of a refusal by the verifier's walk.
fn error_numbers(e: VerifyError) -> Numbers
    ensures { result ≡ numbers_of {A = Done} (err (verify_refusal (error_of e))) }
{
    match e {
        VerifyError::UndefinedValue(f, v) => Numbers::new([41, f.0 as usize, v.0 as usize]),
        VerifyError::DuplicateValueDef(f, v) => Numbers::new([42, f.0 as usize, v.0 as usize]),
        VerifyError::UndefinedBlock(f, b) => Numbers::new([43, f.0 as usize, b.0 as usize]),
        VerifyError::MissingTerminator(f, b) => Numbers::new([44, f.0 as usize, b.0 as usize]),
        VerifyError::ReturnTypeMismatch(f, expected, got) => {
            let (tag, name) = type_numbers(expected);
            let (got_tag, got_name) = got_numbers(got);
            Numbers::new([45, f.0 as usize, tag, name, got_tag, got_name])
        }
        VerifyError::BranchConditionNotBool(f, v, t) => {
            let (tag, name) = type_numbers(t);
            Numbers::new([46, f.0 as usize, v.0 as usize, tag, name])
        }
        VerifyError::OperandTypeMismatch(f, l, r) => {
            let (left_tag, left_name) = type_numbers(l);
            let (right_tag, right_name) = type_numbers(r);
            Numbers::new([47, f.0 as usize, left_tag, left_name, right_tag, right_name])
        }
        VerifyError::UndefinedLocal(f, l) => Numbers::new([48, f.0 as usize, l.0 as usize]),
        VerifyError::UndefinedFunction(f, g) => Numbers::new([49, f.0 as usize, g.0 as usize]),
        VerifyError::ResultOnNone(f, kind) => Numbers::new([50, f.0 as usize, kind as usize]),
    }
}

// The numbers of the verifier's answer.
pub fn verify_numbers(answer: Result<(), Refusal>) -> Numbers
    ensures { result ≡ numbers_of (answer_of answer) }
{
    match answer {
        Ok(()) => Numbers::new([]),
        Err(Refusal::TooLong) => Numbers::new([1]),
        Err(Refusal::Malformed(Malformed(place))) => Numbers::new([40, place]),
        Err(Refusal::Verify(e)) => error_numbers(e),
    }
}
