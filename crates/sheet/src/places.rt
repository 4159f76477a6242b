// Where things stand in a record that passed the check of its form: no validity is tested again. Sheet, place and stop are no struct, as in
// `fixed_fields`.
ghost use Rattle.std.specs.Prelude.{◌≡◌, ◌+◌, ◌≤◌, length};
ghost use Rattle.definitions.specs.Fields.{le};
ghost use Rattle.definitions.specs.Records.{field_end, opt_from, read_records};
ghost use Rattle.definitions.specs.ContractSheet.{count_trees};
ghost use Rattle.format.specs.Kinds.{kind_number};
ghost use Rattle.ir.specs.Answers.{option_of};
ghost use Rattle.sheet.specs.Passed.{Passed, Standing, record_kind, body_of};
ghost use Rattle.sheet_rows.specs.Tables.{field_of};

use format::kinds::Kind;
use format::{ABSENT, COUNT, HEAD, ID, KIND, LENGTH_BYTES, SLOT, TYPE, WORD, program};
use reader::{read, read_u16};
use sheet_rows::tables::{Field, row_of};

// The place after a field.
#[tactic(auto, unfolding(definitions::specs::Records::field_end, definitions::specs::Records::size_of))]
fn field_end(s: &[u8], at: usize, stop: usize, field: Field) -> usize
    requires { (field_end (field_of field) s.now stop at ≤ stop) × (stop ≤ length s.now) }
    ensures { result ≡ field_end (field_of field) s.now stop at }
{
    match field {
        Field::Origin => at + program::ORIGIN,
        Field::Id | Field::OptId | Field::Flag | Field::Operator | Field::Context => at + ID,
        Field::Type => at + TYPE,
        Field::U64 => at + WORD,
        Field::U32 => at + SLOT,
        Field::Counted(entry) => at + COUNT + entry.size() * read(s, at, COUNT),
        Field::Listed(_) => stop,
    }
}

// The kind of a record.
pub(crate) fn record_kind(s: &[u8], at: usize, stop: usize) -> Kind
    requires { Standing s.now at stop (record_kind s.now at) }
    ensures { kind_number result ≡ record_kind s.now at }
{
    Kind::try_from(read_u16(s, at + KIND)).unwrap()
}

// Where the children of a record start.
pub fn body_of(s: &[u8], at: usize, stop: usize, kind: Kind) -> usize
    requires { Standing s.now at stop (kind_number kind) }
    ensures { result ≡ body_of s.now at }
{
    let mut place = at + HEAD;
    for &field in row_of(kind).fields {
        place = field_end(s, place, stop, field);
    }
    place
}

// The id or name at a place, unless it is absent.
#[tactic(auto, unfolding(definitions::specs::Records::opt_from))]
pub fn opt_id(s: &[u8], at: usize) -> Option<u16>
    requires { at + 2 ≤ length s.now }
    ensures { option_of (λ n. n) result ≡ opt_from (le 2 s.now at) }
{
    let id = read_u16(s, at);
    (id != ABSENT).then_some(id)
}

// How many records stand from `at` to `end`. An iterator over them would have to know that they passed, and that is a proof tree and no
// proposition: no ghost field holds it.
pub fn count(s: &[u8], at: usize, end: usize) -> usize
    requires { Passed s.now at end × (end ≤ length s.now) }
    ensures { result ≡ count_trees (read_records s.now at end) }
{
    let mut place = at;
    let mut n: usize = 0;
    while place < end {
        place += read(s, place, LENGTH_BYTES);
        n += 1;
    }
    n
}
