// The operations for C and Rust to call, in a static library. Each writes its answer's six numbers: 0 or the refusal's number, its details
// in order, then zeros; and it gives the first of them. include/malovuneth.h declares `malovuneth_lower`, `malovuneth_verify` and
// `malovuneth_version`, a slice being a pointer and a length; the other two are for the differential test.
#![tactic(auto)]

ghost use Rattle.std.specs.Prelude.{◌≡◌, get_or, length, take};
ghost use Rattle.definitions.specs.Answers.{check_contract, lowered_numbers, lower_sheet, numbers_of, output_of, padded, refuse_at, verify_sheet};
ghost use Rattle.definitions.specs.ContractSheet.{refusal3};
ghost use Rattle.definitions.specs.Demand3.{Demand3Of};

use lower_numbers::{check_numbers, lower_numbers};
use numbers::Numbers;
use sheet::Malformed;
use verify_numbers::verify_numbers;

// Writes the numbers, with zeros behind them, and gives the first.
fn hand_out(numbers: Numbers, out: &mut [usize; 6]) -> usize
    ensures out_after { out.new ≡ padded 6 numbers }
    ensures number { result ≡ get_or out.new 0 0 }
{
    *out = numbers.padded();
    out[0]
}

// Lowers the bytes of a contract sheet. The output gets the program sheet and then zeros, or zeros; the numbers are 0 and the sheet's
// length, or the refusal's. Where the first number is 0, demand 3 holds of as many bytes of the output as the second says.
#[unsafe(no_mangle)]
pub extern "C" fn malovuneth_lower(sheet: &[u8], out: &mut [u8], numbers: &mut [usize; 6]) -> usize
    ensures numbers_after { numbers.new ≡ padded 6 (lowered_numbers (lower_sheet sheet.now (length out.old))) }
    ensures out_after { out.new ≡ output_of (lower_sheet sheet.now (length out.old)) (length out.old) }
    ensures demand3 { get_or numbers.new 0 0 ≡ 0 → Demand3Of sheet.now (take (get_or numbers.new 1 0) out.new) }
    ensures number { result ≡ get_or numbers.new 0 0 }
{
    let answer = lower::lower(sheet, out);
    hand_out(lower_numbers(answer), numbers)
}

// The version that was linked: major * 10,000 + minor * 100 + patch.
#[unsafe(no_mangle)]
pub extern "C" fn malovuneth_version() -> usize
    ensures { result ≡ 300 }
{
    300
}

// The verifier's answer to the bytes of a program sheet.
#[unsafe(no_mangle)]
pub extern "C" fn malovuneth_verify(sheet: &[u8], out: &mut [usize; 6]) -> usize
    ensures out_after { out.new ≡ padded 6 (numbers_of (verify_sheet sheet.now)) }
    ensures number { result ≡ get_or out.new 0 0 }
{
    hand_out(verify_numbers(verify::verify(sheet)), out)
}

// What lowering asks of a contract sheet before the walk: accepted, or refusal 1, 3 or 4.
#[unsafe(no_mangle)]
pub extern "C" fn malovuneth_contract_check(sheet: &[u8], out: &mut [usize; 6]) -> usize
    ensures out_after { out.new ≡ padded 6 (numbers_of (check_contract sheet.now)) }
    ensures number { result ≡ get_or out.new 0 0 }
{
    hand_out(check_numbers(sheet::check_contract(sheet)), out)
}

// The form of a contract sheet alone, of any length: accepted, or refusal 3.
#[unsafe(no_mangle)]
pub extern "C" fn malovuneth_contract_form(sheet: &[u8], out: &mut [usize; 6]) -> usize
    ensures out_after { out.new ≡ padded 6 (numbers_of (refuse_at 3 (refusal3 sheet.now))) }
    ensures number { result ≡ get_or out.new 0 0 }
{
    match sheet::contract_form(sheet) {
        Ok(()) => hand_out(Numbers::new([]), out),
        Err(Malformed(place)) => hand_out(Numbers::new([3, place]), out),
    }
}
