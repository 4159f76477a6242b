// The definition of a value, and whether a block or a function has an id: the searches that references stand on.
#![tactic(auto)]

ghost use Rattle.std.specs.Prelude.{ℕ, ◌≡◌, IfSome};
ghost use Rattle.definitions.specs.Ir.{contains, find};
ghost use Rattle.definitions.specs.Bench.{function_with};
ghost use Rattle.definitions.specs.Verify.{block_ids};
ghost use Rattle.ir.specs.Types.{as_type};
ghost use Rattle.ir.specs.Answers.{option_of};
ghost use Rattle.program_nodes.specs.Definitions.{first_definition, first_type, is_at};
ghost use Rattle.program_nodes.specs.Nodes.{ir_of, functions_of, ids_of_all, block_in, param_definition_in, block_definitions_of, params_of, definitions_of};
ghost use Rattle.program_lookup.specs.Found.{instr_definition_in, definition_in};

use ir::{BlockId, FunctionId, IrType, ValueId};
use program_nodes::{Block, Function, Instr, Param, Program, Record};

// Where a value is defined.
#[derive(Clone, Copy)]
pub enum Definition<'a> {
    Param(Param<'a>),
    Instr(Instr<'a>),
}

impl Definition<'_> {
    // Its place, which no other definition has.
    pub fn place(self) -> usize
        ensures { (v : ℕ) → result ≡ (definition_in v self.entry).place }
    {
        match self {
            Definition::Param(param) => param.at,
            Definition::Instr(instr) => instr.at,
        }
    }

    // The type of the value.
    pub fn ty(self) -> Option<IrType>
        ensures { (v : ℕ) → option_of as_type result ≡ (definition_in v self.entry).type }
    {
        match self {
            Definition::Param(param) => Some(param.ty()),
            Definition::Instr(instr) => instr.result_type(),
        }
    }
}

// The first parameter that is the value v.
fn find_param<'a>(f: Function<'a>, v: ValueId) -> Option<Param<'a>>
    ensures { option_of param_definition_in result ≡ first_definition v.0 (params_of f.entry) }
{
    for param in f.params() {
        if param.value() == v {
            return Some(param);
        }
    }
    None
}

// The first instruction of a block whose result is v.
fn find_in_block<'a>(block: Block<'a>, v: ValueId) -> Option<Instr<'a>>
    ensures { option_of (instr_definition_in v.0) result ≡ first_definition v.0 (block_definitions_of block.entry) }
{
    for record in block.records() {
        match record {
            Record::Instr(instr) => {
                if instr.gives(v) {
                    return Some(instr);
                }
            }
            Record::Term(_) => return None,
        }
    }
    None
}

// The first definition of v, a parameter or an instruction. Inlined: as a call it hands the function and the definition over in memory.
#[inline(always)]
fn first_definition<'a>(f: Function<'a>, v: ValueId) -> Option<Definition<'a>>
    ensures { option_of (definition_in v.0) result ≡ first_definition v.0 (definitions_of f.entry) }
{
    if let Some(param) = find_param(f, v) {
        return Some(Definition::Param(param));
    }
    for block in f.blocks() {
        if let Some(instr) = find_in_block(block, v) {
            return Some(Definition::Instr(instr));
        }
    }
    None
}

// The type of the value v, if it is defined.
pub fn defined_type(f: Function<'_>, v: ValueId) -> Option<IrType>
    ensures { option_of as_type result ≡ first_type v.0 (definitions_of f.entry) }
{
    first_definition(f, v)?.ty()
}

// Whether the first definition of v stands at `place`; a value that isn't defined stands at 0.
pub fn is_first_definition(f: Function<'_>, v: ValueId, place: usize) -> bool
    ensures { result ≡ is_at (first_definition v.0 (definitions_of f.entry)) place }
{
    first_definition(f, v).map_or(0, |definition| definition.place()) == place
}

// The first block of the function with the id.
pub fn find_block<'a>(f: Function<'a>, b: BlockId) -> Option<Block<'a>>
    ensures is { option_of block_in result ≡ find b.0 (ir_of f.entry).blocks }
    ensures same_sheet { IfSome result (λ block. block.sheet.now ≡ f.entry.program.sheet.now) }
{
    for block in f.blocks() {
        if block.id() == b {
            return Some(block);
        }
    }
    None
}

// Whether a block of the function has the id.
pub fn has_block(f: Function<'_>, b: BlockId) -> bool
    ensures { result ≡ contains b.0 (block_ids (ir_of f.entry).blocks) }
{
    find_block(f, b).is_some()
}

// The first function of the program with the id.
pub fn find_function<'a>(program: Program<'a>, g: FunctionId) -> Option<Function<'a>>
    ensures is { option_of ir_of result ≡ function_with g.0 (functions_of program.entry) }
    ensures same_sheet { IfSome result (λ f. f.program.sheet.now ≡ program.entry.sheet.now) }
{
    for function in program.functions() {
        if function.id() == g {
            return Some(function);
        }
    }
    None
}

// Whether a function of the program has the id.
pub fn has_function(program: Program<'_>, g: FunctionId) -> bool
    ensures { result ≡ contains g.0 (ids_of_all program.entry) }
{
    find_function(program, g).is_some()
}
