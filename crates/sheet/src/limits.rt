// Refusal 4: the first record that is too many, too wide or too deep. Sheet, place and stop are no struct, as in `fixed_fields`.
ghost use Rattle.std.specs.Prelude.{◌≡◌, ◌≤◌, ◌<◌, length};
ghost use Rattle.definitions.specs.Records.{read_records};
ghost use Rattle.definitions.specs.ContractSheet.{count_trees, none_before, limit_trees};
ghost use Rattle.format.specs.Kinds.{kind_number};
ghost use Rattle.sheet.specs.Forms.{limits_of};
ghost use Rattle.sheet.specs.Limits.{counts_of, total, and_kind, too_many, too_wide, HasArguments};
ghost use Rattle.sheet.specs.Passed.{Passed, Standing, values_at, children_of};

use crate::OverLimit;
use crate::places::{body_of, count, record_kind};
use format::contract::{
    AFTER_NAME, MOST_ARGUMENTS, MOST_DEPTH, MOST_FIELDS, MOST_FUNCTIONS, MOST_PARAMS, MOST_STORAGE,
    MOST_STRUCTS, PARAM, PARAM_COUNT,
};
use format::kinds::{Declaration, Expr, Kind, Stmt};
use format::{COUNT, LENGTH_BYTES};
use reader::read;

// How many storage fields, structs and functions stand before a record.
#[derive(Clone, Copy)]
struct Counts {
    storage: usize,
    structs: usize,
    functions: usize,
}

impl Counts {
    const NONE: Counts = Counts {
        storage: 0,
        structs: 0,
        functions: 0,
    };

    // Whether a record of this kind is one too many.
    #[tactic(auto, unfolding(crate::specs::Limits::too_many))]
    fn too_many(&self, kind: Kind) -> bool
        ensures { result ≡ too_many (kind_number kind) self.now.storage self.now.structs self.now.functions }
    {
        match kind {
            Kind::Declaration(Declaration::Storage) => MOST_STORAGE <= self.storage,
            Kind::Declaration(Declaration::Struct) => MOST_STRUCTS <= self.structs,
            Kind::Declaration(Declaration::Function) => MOST_FUNCTIONS <= self.functions,
            _ => false,
        }
    }

    // Counts a record of this kind.
    fn add(&mut self, kind: Kind)
        requires { total (counts_of self.old) < 18446744073709551615 }
        ensures { counts_of self.new ≡ and_kind (kind_number kind) (counts_of self.old) }
    {
        match kind {
            Kind::Declaration(Declaration::Storage) => self.storage += 1,
            Kind::Declaration(Declaration::Struct) => self.structs += 1,
            Kind::Declaration(Declaration::Function) => self.functions += 1,
            _ => {}
        }
    }
}

// Whether an Emit or a Call has over 16 arguments. Its promise speaks of the kind, so that both arms of `too_wide` have it.
fn too_many_arguments(s: &[u8], at: usize, stop: usize, kind: Kind) -> bool
    requires { Standing s.now at stop (kind_number kind) × HasArguments (kind_number kind) }
    ensures { result ≡ too_wide (kind_number kind) (values_at s.now at) (count_trees (children_of s.now at)) }
{
    MOST_ARGUMENTS < count(s, at + AFTER_NAME, stop)
}

// Whether a record has over 64 fields, over 16 parameters or over 16 arguments. Two arms for the arguments: with one, statements and expressions
// go on by one indirect jump, which is predicted worse, and lowering takes 2 to 11 percent longer.
#[tactic(auto, unfolding(crate::specs::Limits::too_wide))]
fn too_wide(s: &[u8], at: usize, stop: usize, kind: Kind) -> bool
    requires { Standing s.now at stop (kind_number kind) }
    ensures { result ≡ too_wide (kind_number kind) (values_at s.now at) (count_trees (children_of s.now at)) }
{
    match kind {
        Kind::Declaration(Declaration::Struct) => MOST_FIELDS < (stop - (at + AFTER_NAME)) / PARAM,
        Kind::Declaration(Declaration::Function) => MOST_PARAMS < read(s, at + PARAM_COUNT, COUNT),
        Kind::Stmt(Stmt::Emit) => too_many_arguments(s, at, stop, kind),
        Kind::Expr(Expr::Call) => too_many_arguments(s, at, stop, kind),
        _ => false,
    }
}

// The records from `at` to `end`, at a depth. The loop counts no index: it steps by the length that a record has.
pub(crate) fn limits(s: &[u8], at: usize, end: usize, depth: usize) -> Result<(), OverLimit>
    requires { Passed s.now at end × ((end ≤ length s.now) × (depth ≤ 41)) }
    ensures { limits_of result ≡ limit_trees (read_records s.now at end) depth none_before }
{
    let mut place = at;
    let mut before = Counts::NONE;
    while place < end {
        let stop = place + read(s, place, LENGTH_BYTES);
        let kind = record_kind(s, place, stop);
        if MOST_DEPTH < depth || before.too_many(kind) || too_wide(s, place, stop, kind) {
            return Err(OverLimit(place));
        }
        before.add(kind);
        let body = body_of(s, place, stop, kind);
        if body < stop {
            limits(s, body, stop, depth + 1)?;
        }
        place = stop;
    }
    Ok(())
}
