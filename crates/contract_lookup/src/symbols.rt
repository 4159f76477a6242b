// Storage fields, structs and functions by name: each of them the last of its name. The contract's record starts at 0, and its children at CHILDREN.
ghost use Rattle.std.specs.Prelude.{◌≡◌, ◌<◌, IfSome, eqb};
ghost use Rattle.definitions.specs.Lower.{struct_named, field_position};
ghost use Rattle.definitions.specs.Records.{pick};
ghost use Rattle.format.specs.Kinds.{declaration_number};
ghost use Rattle.ir.specs.Answers.{option_of};
ghost use Rattle.ir.specs.Types.{as_type};
ghost use Rattle.sheet.specs.Passed.{record_kind, stop_of};
ghost use Rattle.contract_nodes.specs.Ready.{Ready, top_class, top_depth};
ghost use Rattle.contract_nodes.specs.Nodes.{contract_in, struct_in};
ghost use Rattle.contract_lookup.specs.Answers.{second, found_in, StandsAt, BehindLast, last_of, slot_at, slot_named, field_type_named, id_and_type, id_named};

use crate::types::{from_str, return_type};
use contract_nodes::{Contract, Function, Struct};
use format::kinds::{Declaration, Kind};
use format::{HIGH_HALF, ID, KIND, KIND_BYTES, LENGTH_BYTES, contract};
use ir::{FunctionId, IrType, Name};
use reader::{read, read_u16};

// A record of the contract: its position among those of its kind, and its place.
#[derive(Clone, Copy)]
pub struct Found {
    pub position: usize,
    pub at: usize,
}

// A function's id and the type of a call of it.
#[derive(Clone, Copy)]
pub struct NamedFunction {
    pub function: FunctionId,
    pub ret: IrType,
}

// The place after a record. Storage fields all take the same bytes, so that a walk past one waits for no length that it reads.
pub(crate) fn past(s: &[u8], at: usize, kind: u16) -> usize
    requires { (kind ≡ record_kind s.now at) × Ready (top_class kind) s.now at top_depth }
    ensures { result ≡ stop_of s.now at }
{
    if kind == Declaration::Storage as u16 {
        return at + contract::STORAGE_BYTES;
    }
    at + read(s, at, LENGTH_BYTES)
}

// The last record of a kind that has a name. None comes after a record of a higher kind. A loop of its own, as `places_of` and for its reason.
// Kinds are compared by their numbers: decoded as a `Declaration`, 64 structs behind 256 storage fields take 3.6 percent more instructions.
pub fn last_named(contract: Contract, kind: Declaration, name: Name) -> Option<Found>
    ensures is { found_in contract.entry.sheet.now result ≡ last_of contract.entry.sheet.now (declaration_number kind) name.0 }
    ensures stands { StandsAt contract.entry.sheet.now (declaration_number kind) result }
{
    let s = contract.sheet;
    let wanted = u16::from(Kind::Declaration(kind));
    let mut found = None;
    let mut position = 0;
    let mut at = contract::CHILDREN;
    while at < s.len() {
        let here = read_u16(s, at + KIND);
        if wanted < here {
            return found;
        }
        if here == wanted {
            if Name::new(read_u16(s, at + contract::NAME)) == name {
                found = Some(Found { position, at });
            }
            position += 1;
        }
        at = past(s, at, here);
    }
    found
}

// The place behind a field whose kind and name are the ones that are wanted, or what was found before it.
fn this_or_earlier(here: usize, wanted: usize, next: usize, found: usize) -> usize
    ensures { result ≡ pick (eqb here wanted) next found }
{
    if here == wanted { next } else { found }
}

// A record's kind and name, read as one number: the kind, and HIGH_HALF times the name.
const KIND_AND_NAME: usize = KIND_BYTES + ID;

const STORAGE: usize = Declaration::Storage as usize;

// The place behind the last storage field that has a name; where the fields start if none has. Storage fields come first. Kind and name are
// read at once, and two fields a turn: a turn costs more than a comparison, and an Option in it costs three instructions a field.
fn last_storage(contract: Contract, name: Name) -> usize
    ensures { BehindLast contract.entry.sheet.now name.0 result }
{
    let s = contract.sheet;
    let wanted = STORAGE + HIGH_HALF * (name.0 as usize);
    let bytes = contract::STORAGE_BYTES;
    let mut found = contract::CHILDREN;
    if s.len() < contract::CHILDREN + bytes {
        return found;
    }
    let stop = s.len() - bytes;
    let mut at = contract::CHILDREN;
    while at < stop {
        let here = read(s, at + KIND, KIND_AND_NAME);
        if here % HIGH_HALF != STORAGE {
            return found;
        }
        let next = at + bytes;
        found = this_or_earlier(here, wanted, next, found);
        let here = read(s, next + KIND, KIND_AND_NAME);
        if here % HIGH_HALF != STORAGE {
            return found;
        }
        at = next + bytes;
        found = this_or_earlier(here, wanted, at, found);
    }
    if at < s.len() {
        let here = read(s, at + KIND, KIND_AND_NAME);
        found = this_or_earlier(here, wanted, at + bytes, found);
    }
    found
}

// The slot of the storage field at a place, which is its position: before the first stand CHILDREN bytes, fewer than a field's.
fn slot_at(at: usize) -> usize
    ensures { result ≡ slot_at at }
{
    at / contract::STORAGE_BYTES
}

// A storage field's slot.
pub fn storage_slot(contract: Contract, name: Name) -> Option<usize>
    ensures { option_of (λ i. i) result ≡ slot_named (contract_in contract.entry) name.0 }
{
    let behind = last_storage(contract, name);
    if behind == contract::CHILDREN {
        return None;
    }
    Some(slot_at(behind - contract::STORAGE_BYTES))
}

// The struct of a name.
pub fn struct_named<'a>(contract: Contract<'a>, name: Name) -> Option<Struct<'a>>
    ensures is { option_of struct_in result ≡ second (struct_named (contract_in contract.entry) name.0) }
    ensures same_sheet { IfSome result (λ x. x.contract.sheet.now ≡ contract.entry.sheet.now) }
{
    let found = last_named(contract, Declaration::Struct, name)?;
    Some(Struct {
        contract,
        at: found.at,
    })
}

// The position of the first field of a name, which is below the most fields that a struct may have.
pub fn field_position(of: Struct, name: Name) -> Option<usize>
    ensures is { option_of (λ i. i) result ≡ field_position (struct_in of.entry).fields name.0 }
    ensures most { IfSome result (λ i. i < 64) }
{
    of.fields().position(|f| f.name == name)
}

// The type of the last field of a name. From the last field on backwards, so that the first hit serves.
pub fn field_type(of: Struct, name: Name) -> Option<IrType>
    ensures { option_of as_type result ≡ field_type_named (struct_in of.entry).fields name.0 }
{
    of.fields()
        .rev()
        .find(|f| f.name == name)
        .map(|f| from_str(f.ty))
}

// A function's id, which is its position, and the type of a call of it.
pub fn function_named(contract: Contract, name: Name) -> Option<NamedFunction>
    ensures { option_of id_and_type result ≡ id_named (contract_in contract.entry) name.0 }
{
    let found = last_named(contract, Declaration::Function, name)?;
    let function = Function {
        contract,
        at: found.at,
    };
    Some(NamedFunction {
        function: FunctionId(found.position as u16),
        ret: return_type(function.return_type()),
    })
}
