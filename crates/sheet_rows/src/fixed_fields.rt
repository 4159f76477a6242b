// The fixed fields of a record, by its row (`tables`).
ghost use Rattle.std.specs.Prelude.{◌≡◌, ◌+◌, ◌-◌, ◌*◌, ◌≤◌, leb, length};
ghost use Rattle.std.proofs.Math.Option.{none, some};
ghost use Rattle.definitions.specs.Fields.{le};
ghost use Rattle.definitions.specs.Grammar.{up_to, ir_type, single, counted, listed};
ghost use Rattle.definitions.specs.Records.{pick, size_of, ok_type, ok_item, ok_items, past, past_all};
ghost use Rattle.ir.specs.Answers.{option_of};
ghost use Rattle.sheet_rows.specs.Tables.{Extent, entry_of, field_of, fields_of};

use crate::tables::{Entry, Field};
use format::operators::BinOp;
use format::program::ContextKind;
use format::{COUNT, HIGHEST_ID, ID, SLOT, TAG, TYPE, WORD, contract, program};
use ir::{STRUCT_TAG, VOID_TAG};
use reader::read;

// A name or an id: 65,535 is none.
fn id_valid(s: &[u8], at: usize) -> bool
    requires { at + 2 ≤ length s.now }
    ensures { result ≡ leb (le 2 s.now at) 65534 }
{
    read(s, at, ID) <= HIGHEST_ID
}

// A type: a tag, of which Void's is the last, and a name, which is 0 unless the tag is a struct's.
#[tactic(auto, unfolding(definitions::specs::Records::ok_type))]
fn type_valid(s: &[u8], at: usize) -> bool
    requires { at + 4 ≤ length s.now }
    ensures { result ≡ ok_type (le 2 s.now at) (le 2 s.now (at + 2)) }
{
    let tag = read(s, at, TAG);
    let name = read(s, at + TAG, ID);
    if tag == STRUCT_TAG {
        return name <= HIGHEST_ID;
    }
    tag <= VOID_TAG && name == 0
}

impl Entry {
    // How many bytes it takes.
    #[tactic(auto, unfolding(definitions::specs::Records::size_of))]
    pub fn size(self) -> usize
        ensures { (result ≡ size_of (entry_of self)) × ((2 ≤ result) × (result ≤ 6)) }
    {
        match self {
            Entry::Id => ID,
            Entry::Type => TYPE,
            Entry::ValueAndType => program::PARAM,
            Entry::NameAndType => contract::PARAM,
        }
    }

    // Whether the entry at a place is valid.
    #[tactic(auto, unfolding(definitions::specs::Records::size_of, definitions::specs::Records::ok_item))]
    fn valid(self, s: &[u8], at: usize) -> bool
        requires { at + size_of (entry_of self) ≤ length s.now }
        ensures { result ≡ ok_item (entry_of self) s.now at }
    {
        match self {
            Entry::Id => id_valid(s, at),
            Entry::Type => type_valid(s, at),
            Entry::ValueAndType => id_valid(s, at) && type_valid(s, at + ID),
            Entry::NameAndType => id_valid(s, at) && id_valid(s, at + ID),
        }
    }

    // Whether so many entries from a place on are valid: a loop for each kind of entry, which does not ask the kind in each turn. Inlined, it adds
    // half to the stack of each level of `records`.
    #[inline(never)]
    #[tactic(auto, unfolding(definitions::specs::Records::size_of, definitions::specs::Records::ok_item))]
    fn all_valid(self, s: &[u8], at: usize, count: usize) -> bool
        requires { at + size_of (entry_of self) * count ≤ length s.now }
        ensures { result ≡ ok_items (entry_of self) count s.now at }
    {
        match self {
            Entry::Id => (0..count).all(|i| id_valid(s, at + ID * i)),
            Entry::Type => (0..count).all(|i| type_valid(s, at + TYPE * i)),
            Entry::ValueAndType => (0..count).all(|i| Entry::ValueAndType.valid(
                s,
                at + program::PARAM * i,
            )),
            Entry::NameAndType => (0..count).all(|i| Entry::NameAndType.valid(
                s,
                at + contract::PARAM * i,
            )),
        }
    }
}

// The place after n bytes of any value, in a record that stops at `stop`, if they fit. A branch: `then_some` would add n where it does not fit.
// Sheet, place and stop are no struct, here and below: each function would have to promise besides that the sheet and the stop stay as they
// are, and the form takes 3.5 percent more instructions (tried).
fn past_bytes(at: usize, stop: usize, n: usize) -> Option<usize>
    requires { (at ≤ stop) }
    ensures { option_of (λ p. p) result ≡ pick (leb n (stop - at)) (some (at + n)) none }
{
    if stop - at < n { None } else { Some(at + n) }
}

// The same for a u16 of at most `most`, if it fits and is valid: an id, a name, a flag or a code.
#[tactic(auto, unfolding(definitions::specs::Records::past, definitions::specs::Records::ok_field, definitions::specs::Records::field_end, definitions::specs::Records::size_of, definitions::specs::Records::ok_item))]
fn past_u16(s: &[u8], at: usize, stop: usize, most: usize) -> Option<usize>
    requires { Extent s.now at stop }
    ensures { option_of (λ p. p) result ≡ past (single (up_to most)) s.now stop at }
{
    let next = past_bytes(at, stop, ID)?;
    (read(s, at, ID) <= most).then_some(next)
}

// The same for a type.
#[tactic(auto, unfolding(definitions::specs::Records::past, definitions::specs::Records::ok_field, definitions::specs::Records::field_end, definitions::specs::Records::size_of, definitions::specs::Records::ok_item))]
fn past_type(s: &[u8], at: usize, stop: usize) -> Option<usize>
    requires { Extent s.now at stop }
    ensures { option_of (λ p. p) result ≡ past (single ir_type) s.now stop at }
{
    let next = past_bytes(at, stop, TYPE)?;
    type_valid(s, at).then_some(next)
}

// The same for a count and so many entries. Not inlined, as `past_each`.
#[inline(never)]
#[tactic(auto, unfolding(definitions::specs::Records::past, definitions::specs::Records::ok_field, definitions::specs::Records::field_end))]
fn past_counted(s: &[u8], at: usize, stop: usize, entry: Entry) -> Option<usize>
    requires { Extent s.now at stop }
    ensures { option_of (λ p. p) result ≡ past (counted (entry_of entry)) s.now stop at }
{
    let first = past_bytes(at, stop, COUNT)?;
    let count = read(s, at, COUNT);
    let next = past_bytes(first, stop, entry.size() * count)?;
    entry.all_valid(s, first, count).then_some(next)
}

// The same for entries to the record's end. Not inlined, as `past_each`.
#[inline(never)]
#[tactic(auto, unfolding(definitions::specs::Records::past, definitions::specs::Records::ok_field, definitions::specs::Records::field_end))]
fn past_listed(s: &[u8], at: usize, stop: usize, entry: Entry) -> Option<usize>
    requires { Extent s.now at stop }
    ensures { option_of (λ p. p) result ≡ past (listed (entry_of entry)) s.now stop at }
{
    let room = stop - at;
    let size = entry.size();
    if room % size != 0 {
        return None;
    }
    entry.all_valid(s, at, room / size).then_some(stop)
}

// The same for any field.
#[tactic(auto, unfolding(definitions::specs::Records::past, definitions::specs::Records::ok_field, definitions::specs::Records::field_end, definitions::specs::Records::size_of, definitions::specs::Records::ok_item))]
fn past_field(s: &[u8], at: usize, stop: usize, field: Field) -> Option<usize>
    requires { Extent s.now at stop }
    ensures { option_of (λ p. p) result ≡ past (field_of field) s.now stop at }
{
    match field {
        Field::Origin => past_bytes(at, stop, program::ORIGIN),
        Field::Id => past_u16(s, at, stop, HIGHEST_ID),
        Field::OptId => past_bytes(at, stop, ID),
        Field::Type => past_type(s, at, stop),
        Field::U64 => past_bytes(at, stop, WORD),
        Field::U32 => past_bytes(at, stop, SLOT),
        Field::Flag => past_u16(s, at, stop, 1),
        Field::Operator => past_u16(s, at, stop, BinOp::Gte as usize),
        Field::Context => past_u16(s, at, stop, ContextKind::BlockNumber as usize),
        Field::Counted(entry) => past_counted(s, at, stop, entry),
        Field::Listed(entry) => past_listed(s, at, stop, entry),
    }
}

// The place after all of several fields. Not inlined: what a walk over them needs is in no level of `records` then, which takes a third less stack.
#[inline(never)]
fn past_each(s: &[u8], at: usize, stop: usize, fields: &[Field]) -> Option<usize>
    requires { Extent s.now at stop }
    ensures { option_of (λ p. p) result ≡ past_all (fields_of fields.now) s.now stop at }
{
    let mut place = at;
    for &field in fields {
        place = past_field(s, place, stop, field)?;
    }
    Some(place)
}

// The place after all fields. Most records have one.
#[tactic(auto, unfolding(definitions::specs::Records::past_all))]
pub fn past_fields(s: &[u8], at: usize, stop: usize, fields: &[Field]) -> Option<usize>
    requires { Extent s.now at stop }
    ensures { option_of (λ p. p) result ≡ past_all (fields_of fields.now) s.now stop at }
{
    match fields {
        [] => Some(at),
        &[field] => past_field(s, at, stop, field),
        _ => past_each(s, at, stop, fields),
    }
}
