// The records of the program sheet: a function's is sized and written right after its walk, from the log, with its blocks in the order of their ids.
#![tactic(auto)]

// `out` and `to` stay two parameters: a struct of both would have a `&mut` in it, and each promise would have to say that it is the same memory still.

ghost use Rattle.std.specs.Prelude.{◌≡◌, map, ◌++◌, ◌+◌, ◌*◌, ◌≤◌, length};
ghost use Rattle.std.proofs.lemmas.List.Edits.{sets};
ghost use Rattle.definitions.specs.Fields.{bytes};
ghost use Rattle.definitions.specs.Records.{ty, group, write_record, write_value};
ghost use Rattle.definitions.specs.ProgramSheet.{param_item};
ghost use Rattle.format.specs.Kinds.{kind_number};
ghost use Rattle.ir.specs.Types.{as_type};
ghost use Rattle.contract_nodes.specs.Nodes.{function_in};
ghost use Rattle.lower_walk.specs.Layout.{param_values};
ghost use Rattle.lower_state.specs.Bytes.{Put};
ghost use Rattle.lower_layout.specs.Laid.{behind};
ghost use Rattle.lower_layout.specs.Parts.{BlocksWithin, blocks_part, head_of, head_size, LaidOrLost};

use contract_lookup::types::{own_return_type, parse_ir_type};
use contract_nodes::Function;
use format::kinds::Kind;
use format::{COUNT, ID, KIND, KIND_BYTES, LENGTH_BYTES, MOST_BYTES, TYPE, program};
use ir::{BlockId, FunctionId, IrType};
use lower_state::FnCtx;
use writer::{copy, write};

// The place behind so many bytes from `to` on, if they may be written.
pub fn place_behind(out: &[u8], to: usize, size: usize) -> Option<usize>
    ensures { result ≡ behind (length out.now) to size }
{
    let room = out.len().min(MOST_BYTES);
    to.checked_add(size).filter(|end| *end <= room)
}

// A record's head: its length and its kind.
pub fn write_head(out: &mut [u8], to: usize, size: usize, kind: Kind)
    requires { to + 6 ≤ length out.old }
    ensures { out.new ≡ sets out.old to (bytes 4 size ++ bytes 2 (kind_number kind)) }
{
    write(out, to, LENGTH_BYTES, size);
    write(out, to + KIND, KIND_BYTES, u16::from(kind) as usize);
}

// The bytes of all blocks.
fn blocks_size(ctx: &FnCtx) -> usize
    requires { BlocksWithin ctx.now }
    ensures is { result ≡ length (blocks_part ctx.now) }
    ensures most { result ≤ 32776 * 256 }
{
    let mut size = 0;
    for k in 0..ctx.blocks() {
        size += program::RECORDS + ctx.records(BlockId(k)).len();
    }
    size
}

// A block's record with the records in it.
fn lay_block(block: BlockId, records: &[u8], out: &mut [u8], to: usize) -> usize
    requires { to + (8 + length records.now) ≤ length out.old }
    ensures { Put (write_record 53 (bytes 2 block.0 ++ records.now)) out.old to out.new result }
{
    let n = records.len();
    write_head(out, to, program::RECORDS + n, Kind::BasicBlock);
    write(out, to + program::BLOCK_ID, ID, block.0 as usize);
    copy(records, 0, n, out, to + program::RECORDS);
    to + program::RECORDS + n
}

// All blocks.
fn lay_blocks(ctx: &FnCtx, out: &mut [u8], to: usize)
    requires within { BlocksWithin ctx.now }
    requires room { to + length (blocks_part ctx.now) ≤ length out.old }
    ensures { out.new ≡ sets out.old to (blocks_part ctx.now) }
{
    let mut at = to;
    for k in 0..ctx.blocks() {
        let block = BlockId(k);
        at = lay_block(block, ctx.records(block), out, at);
    }
}

// The parameters of a function: values 0, 1, 2, .. with their types, behind their count.
fn lay_params(f: Function, out: &mut [u8], to: usize) -> usize
    requires { to + (2 + 6 * length (function_in f).params) ≤ length out.old }
    ensures { Put (write_value (group (map param_item (param_values 0 (function_in f.entry).params)))) out.old to out.new result }
{
    let n = f.param_count();
    write(out, to, COUNT, n);
    let first = to + COUNT;
    for (i, param) in f.params().enumerate() {
        let place = first + program::PARAM * i;
        let ty = parse_ir_type(param.ty);
        write(out, place, ID, i);
        write(out, place + ID, TYPE, u32::from(ty) as usize);
    }
    first + program::PARAM * n
}

// The types of the locals, behind their count.
fn lay_locals(locals: &[IrType], out: &mut [u8], to: usize) -> usize
    requires { to + (2 + 4 * length locals.now) ≤ length out.old }
    ensures { Put (write_value (group (map ty (map as_type locals.now)))) out.old to out.new result }
{
    let n = locals.len();
    write(out, to, COUNT, n);
    let first = to + COUNT;
    for (i, ty) in locals.iter().enumerate() {
        write(out, first + TYPE * i, TYPE, u32::from(*ty) as usize);
    }
    first + TYPE * n
}

// The start of a function's record: its length and kind, its id, name and return type, its parameters and locals.
fn lay_head(
    f: Function,
    id: FunctionId,
    size: usize,
    locals: &[IrType],
    out: &mut [u8],
    to: usize,
) -> usize
    requires { to + head_size (function_in f) (length locals.now) ≤ length out.old }
    ensures { Put (head_of size id.0 (function_in f.entry) (map as_type locals.now)) out.old to out.new result }
{
    write_head(out, to, size, Kind::IrFunction);
    write(out, to + program::FUNCTION_ID, ID, id.0 as usize);
    write(out, to + program::FUNCTION_NAME, ID, f.name().0 as usize);
    let ret = own_return_type(f.return_type());
    write(
        out,
        to + program::RETURN_TYPE,
        TYPE,
        u32::from(ret) as usize,
    );
    let place = lay_params(f, out, to + program::PARAM_COUNT);
    lay_locals(locals, out, place)
}

// How long a function's record is.
fn function_size(f: Function, ctx: &FnCtx) -> usize
    requires { BlocksWithin ctx.now }
    ensures { result ≡ head_size (function_in f.entry) (length ctx.now.locals) + length (blocks_part ctx.now) }
{
    let params = program::PARAM * f.param_count();
    let locals = TYPE * ctx.locals().len();
    program::PARAMS + params + COUNT + locals + blocks_size(ctx)
}

// A function's record, from what its walk left; the place behind it, if it fits.
pub fn lay_function(
    f: Function,
    id: FunctionId,
    ctx: &FnCtx,
    out: &mut [u8],
    to: usize,
) -> Option<usize>
    requires { ctx.now.log.at ≤ 32768 → BlocksWithin ctx.now }
    ensures { LaidOrLost id.0 (function_in f.entry) ctx.now out.old to out.new result }
{
    if !ctx.is_whole() {
        return None;
    }
    let size = function_size(f, ctx);
    let end = place_behind(out, to, size)?;
    let blocks = lay_head(f, id, size, ctx.locals(), out, to);
    lay_blocks(ctx, out, blocks);
    Some(end)
}
