// Refusals 3 and 40: the lowest place at which a record should start, or surplus begins, and none starts. Sheet, place and stop are no struct, as in
// `fixed_fields`.
ghost use Rattle.std.specs.Prelude.{◌≡◌, ◌≤◌, ◌<◌, length, IfErr};
ghost use Rattle.definitions.specs.Records.{may_end, after, check_records};
ghost use Rattle.definitions.specs.Records as records;
ghost use Rattle.sheet.specs.Forms.{form_of};
ghost use Rattle.sheet_rows.specs.Tables.{Extent, class_of, pattern_of};
ghost use Rattle.sheet.specs.Starts.{next_of, row_found, row_at, start_of};

use crate::Malformed;
use format::kinds::Kind;
use format::{HEAD, KIND, LENGTH_BYTES};
use reader::{read, read_u16};
use sheet_rows::fixed_fields::past_fields;
use sheet_rows::tables::{Child, Class, Often, Row, row_of};

// A record that may stand where it starts: where its children start and it stops, what children it has, and what may come after it.
#[derive(Clone, Copy)]
pub(crate) struct Start<'a> {
    body: usize,
    stop: usize,
    children: &'static [Child],
    rest: &'a [Child],
}

// What a pattern leaves after a record of a class, if it allows one.
fn after<'a>(pattern: &'a [Child], class: Class) -> Option<&'a [Child]>
    ensures { next_of result ≡ after (pattern_of pattern.now) (class_of class) }
{
    let mut left = pattern;
    while let [child, rest @ ..] = left {
        if child.class == class {
            return Some(if child.often == Often::Any {
                left
            } else {
                rest
            });
        }
        if child.often == Often::Once {
            return None;
        }
        left = rest;
    }
    None
}

// Whether a pattern allows the end.
fn may_end(pattern: &[Child]) -> bool
    ensures { result ≡ may_end (pattern_of pattern.now) }
{
    pattern.iter().all(|child| child.often != Often::Once)
}

// The row of the record at a place, if its length fits what is left of its parent.
#[tactic(auto, unfolding(crate::specs::Starts::row_at))]
fn row_at(s: &[u8], at: usize, end: usize) -> Option<&'static Row>
    requires { Extent s.now at end }
    ensures { row_found result ≡ row_at s.now at end }
{
    let room = end - at;
    if room < HEAD {
        return None;
    }
    let length = read(s, at, LENGTH_BYTES);
    if length < HEAD {
        return None;
    }
    if room < length {
        return None;
    }
    let kind = Kind::try_from(read_u16(s, at + KIND)).ok()?;
    Some(row_of(kind))
}

// The record that starts at a place where such a pattern is left.
fn start_at<'a>(
    s: &[u8],
    at: usize,
    end: usize,
    pattern: &'a [Child],
) -> Result<Start<'a>, Malformed>
    requires { (at < end) × (end ≤ length s.now) }
    ensures is { start_of result ≡ records.start_at s.now at end (pattern_of pattern.now) }
    ensures place { IfErr result (λ fault. fault.0 ≡ at) }
{
    let row = row_at(s, at, end).ok_or(Malformed(at))?;
    let rest = after(pattern, row.class).ok_or(Malformed(at))?; // no record that may stand here
    let stop = at + read(s, at, LENGTH_BYTES);
    let body = past_fields(s, at + HEAD, stop, row.fields).ok_or(Malformed(at))?; // a fault in its own fields
    Ok(Start {
        body,
        stop,
        children: row.children,
        rest,
    })
}

// The records from `at` to `end` follow a pattern, each with its children: first those, then what stands after it. So the first
// fault is the lowest. A record takes 6 bytes or more, so the bytes left fall with each call, to any depth. The loop counts no index: it
// steps by the length that a record has.
pub(crate) fn records(s: &[u8], at: usize, end: usize, pattern: &[Child]) -> Result<(), Malformed>
    requires { Extent s.now at end }
    ensures { form_of result ≡ check_records s.now at end (pattern_of pattern.now) }
{
    let mut place = at;
    let mut left = pattern;
    while place < end {
        let next = start_at(s, place, end, left)?;
        if next.body < next.stop {
            records(s, next.body, next.stop, next.children)?;
        } else if !may_end(next.children) {
            return Err(Malformed(next.body)); // a child is missing
        }
        place = next.stop;
        left = next.rest;
    }
    if may_end(left) {
        Ok(())
    } else {
        Err(Malformed(place))
    }
}
