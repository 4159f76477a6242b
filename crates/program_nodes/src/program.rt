// The program, its functions and their parameters.
ghost use Rattle.std.specs.Prelude.{◌≡◌, ◌+◌, ◌-◌, ◌*◌, ◌≤◌, ◌<◌, length};
ghost use Rattle.sheet.specs.Passed.{record_kind};
ghost use Rattle.program_nodes.specs.Offsets.{head_width};
ghost use Rattle.program_nodes.specs.Positions.{locals_at};
ghost use Rattle.program_nodes.specs.Standing.{FunctionsStand, FunctionStands};

use crate::block::Blocks;
use format::kinds::Kind;
use format::{COUNT, KIND, LENGTH_BYTES, TYPE, program};
use ir::{FunctionId, IrType, Name, ValueId};
use reader::{read, read_u16};
use sheet::Malformed;

// A program sheet: its functions and names stand behind the head, as they do in one that passed 40.
#[derive(Clone, Copy)]
pub struct Program<'a> {
    pub sheet: &'a [u8],
    pub ghost passed: { FunctionsStand sheet.now head_width },
}

// The functions of a program from a place on.
#[derive(Clone, Copy)]
pub struct Functions<'a> {
    pub program: Program<'a>,
    pub at: usize,
    pub ghost here: { FunctionsStand program.sheet.now at },
}

// A function of it: its place, where its first block starts, where it stops, and its name. `room` follows from `here`: it is what reading the
// count of its locals asks, so that no reader has to show it again.
#[derive(Clone, Copy)]
pub struct Function<'a> {
    pub program: Program<'a>,
    pub at: usize,
    pub first: usize,
    pub stop: usize,
    pub name: Name,
    pub ghost here: { FunctionStands program.sheet.now at first stop name.0 },
    pub ghost room: { locals_at program.sheet.now at + 2 ≤ length program.sheet.now },
}

// So many parameters of a function from a place on.
#[derive(Clone, Copy)]
pub struct Params<'a> {
    pub sheet: &'a [u8],
    pub at: usize,
    pub left: usize,
    pub ghost inside: { at + 6 * left ≤ length sheet.now },
}

// A parameter by its place: a value and its type.
#[derive(Clone, Copy)]
pub struct Param<'a> {
    pub sheet: &'a [u8],
    pub at: usize,
    pub ghost inside: { at + 6 ≤ length sheet.now },
}

impl<'a> Program<'a> {
    ghost use Rattle.std.specs.Prelude.{IfOk};
    ghost use Rattle.definitions.specs.ProgramSheet.{refusal40};
    ghost use Rattle.sheet.specs.Forms.{form_of};
    ghost use Rattle.program_nodes.specs.Nodes.{functions_in, functions_of};

    // The program of a sheet: refusal 40.
    pub fn new(sheet: &'a [u8]) -> Result<Self, Malformed>
        ensures is { form_of result ≡ refusal40 sheet.now }
        ensures same_sheet { IfOk result (λ p. p.sheet.now ≡ sheet.now) }
    {
        sheet::program_form(sheet)?;
        Ok(Program { sheet })
    }

    // The bytes of its sheet.
    fn len(self) -> usize
        ensures { result ≡ length self.entry.sheet.now }
    {
        self.sheet.len()
    }

    // Its functions.
    pub fn functions(self) -> Functions<'a>
        ensures is { functions_in result ≡ functions_of self.entry }
        ensures same_sheet { result.program.sheet.now ≡ self.entry.sheet.now }
    {
        Functions {
            program: self,
            at: program::FUNCTIONS,
        }
    }
}

impl<'a> Iterator for Functions<'a> {
    type Item = Function<'a>;

    ghost use Rattle.std.specs.Iterator.{at_most};
    ghost use Rattle.program_nodes.specs.Nodes.{TakesFunction};

    ghost next_gives = { λ old function new. TakesFunction old new function };

    ghost remaining = { λ left. at_most (length left.program.sheet.now - left.at) };

    fn next(&mut self) -> Option<Function<'a>> {
        let program = self.program;
        let at = self.at;
        if program.len() <= at {
            return None;
        }
        if read_u16(program.sheet, at + KIND) != u16::from(Kind::IrFunction) {
            return None;
        }
        let function = function_at(program, at);
        self.at = function.stop;
        Some(function)
    }
}

// The function that stands at a place.
pub fn function_at(program: Program<'_>, at: usize) -> Function<'_>
    requires { FunctionsStand program.sheet.now at × ((at < length program.sheet.now) × (record_kind program.sheet.now at ≡ 51)) }
    ensures { (result.program.sheet.now ≡ program.entry.sheet.now) × (result.at ≡ at) }
{
    let s = program.sheet;
    let locals = locals_at(s, at);
    Function {
        program,
        at,
        first: locals + COUNT + TYPE * read(s, locals, COUNT),
        stop: at + read(s, at, LENGTH_BYTES),
        name: Name::new(read_u16(s, at + program::FUNCTION_NAME)),
    }
}

// The place of the count of locals of the function at a place.
fn locals_at(s: &[u8], at: usize) -> usize
    requires { locals_at s.now at ≤ length s.now }
    ensures { result ≡ locals_at s.now at }
{
    at + program::PARAMS + program::PARAM * read(s, at + program::PARAM_COUNT, COUNT)
}

impl<'a> Function<'a> {
    ghost use Rattle.ir.specs.Types.{as_type};
    ghost use Rattle.program_nodes.specs.Nodes.{ir_of, ParamsOf, BlocksOf};

    pub fn id(self) -> FunctionId
        ensures { result.0 ≡ (ir_of self.entry).id }
    {
        FunctionId(read_u16(self.program.sheet, self.at + program::FUNCTION_ID))
    }

    // Its parameters.
    #[tactic(auto, unfolding(crate::specs::Positions::params_here))]
    pub fn params(self) -> Params<'a>
        ensures { ParamsOf self.entry result }
    {
        let s = self.program.sheet;
        Params {
            sheet: s,
            at: self.at + program::PARAMS,
            left: read(s, self.at + program::PARAM_COUNT, COUNT),
        }
    }

    pub fn return_type(self) -> IrType
        ensures { as_type result ≡ (ir_of self.entry).ret_ty }
    {
        crate::instr::type_at(self.program.sheet, self.at + program::RETURN_TYPE)
    }

    // How many locals it has.
    pub fn local_count(self) -> usize
        ensures { result ≡ length (ir_of self.entry).locals }
    {
        let s = self.program.sheet;
        read(s, locals_at(s, self.at), COUNT)
    }

    // Its blocks.
    #[tactic(auto, unfolding(crate::specs::Nodes::definitions_of))]
    pub fn blocks(self) -> Blocks<'a>
        ensures { BlocksOf self.entry result }
    {
        Blocks {
            sheet: self.program.sheet,
            at: self.first,
            end: self.stop,
        }
    }
}

impl<'a> Iterator for Params<'a> {
    type Item = Param<'a>;

    ghost use Rattle.std.specs.Iterator.{at_most};
    ghost use Rattle.program_nodes.specs.Nodes.{TakesParam};

    ghost next_gives = { λ old param new. TakesParam old new param };

    ghost remaining = { λ left. at_most left.left };

    fn next(&mut self) -> Option<Param<'a>> {
        if self.left == 0 {
            return None;
        }
        let param = Param {
            sheet: self.sheet,
            at: self.at,
        };
        self.at += program::PARAM;
        self.left -= 1;
        Some(param)
    }
}

impl Param<'_> {
    ghost use Rattle.ir.specs.Types.{as_type};
    ghost use Rattle.program_nodes.specs.Nodes.{param_in};

    pub fn value(self) -> ValueId
        ensures { result.0 ≡ (param_in self.entry).0 }
    {
        ValueId(read_u16(self.sheet, self.at))
    }

    pub fn ty(self) -> IrType
        ensures { as_type result ≡ (param_in self.entry).1 }
    {
        crate::instr::type_at(self.sheet, self.at + program::PARAM_TYPE)
    }
}
