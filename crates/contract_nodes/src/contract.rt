// The contract, its structs and its functions.
ghost use Rattle.std.specs.Prelude.{◌+◌, ◌*◌, ◌≤◌, length};
ghost use Rattle.definitions.specs.Grammar.{Class};
ghost use Rattle.sheet.specs.Passed.{ContractPassed};
ghost use Rattle.contract_nodes.specs.Ready.{RecordStands, top_depth};

use crate::stmt::Stmts;
use format::{COUNT, LENGTH_BYTES, contract};
use ir::Name;
use reader::{read, read_u16};
use sheet::ContractError;
use sheet::places::opt_id;

// A contract sheet that passed its check.
#[derive(Clone, Copy)]
pub struct Contract<'a> {
    pub sheet: &'a [u8],
    pub ghost passed: { ContractPassed sheet.now },
}

// A struct of it, by the place of its record.
#[derive(Clone, Copy)]
pub struct Struct<'a> {
    pub contract: Contract<'a>,
    pub at: usize,
    pub ghost ready: { RecordStands Class.struct contract.sheet.now at top_depth },
}

// A function of it.
#[derive(Clone, Copy)]
pub struct Function<'a> {
    pub contract: Contract<'a>,
    pub at: usize,
    pub ghost ready: { RecordStands Class.function contract.sheet.now at top_depth },
}

// A field of a struct, or a parameter of a function: its name, and its type's.
#[derive(Clone, Copy)]
pub struct Param {
    pub name: Name,
    pub ty: Name,
}

// The fields of a struct or the parameters of a function, from a place on.
#[derive(Clone, Copy)]
pub struct ParamIter<'a> {
    pub contract: Contract<'a>,
    pub at: usize,
    pub left: usize,
    pub ghost inside: { at + 4 * left ≤ length contract.sheet.now },
}

impl<'a> Contract<'a> {
    ghost use Rattle.std.specs.Prelude.{◌≡◌, IfOk};
    ghost use Rattle.definitions.specs.Answers.{check_contract};
    ghost use Rattle.ir.specs.Answers.{result_of};
    ghost use Rattle.sheet.specs.Forms.{refusal_of};
    ghost use Rattle.contract_nodes.specs.Nodes.{checked};

    // The contract of a sheet: refusals 1, 3 and 4, in this order.
    pub fn new(sheet: &'a [u8]) -> Result<Self, ContractError>
        ensures is { result_of refusal_of checked result ≡ check_contract sheet.now }
        ensures same_sheet { IfOk result (λ c. c.sheet.now ≡ sheet.now) }
    {
        sheet::check_contract(sheet)?;
        Ok(Contract { sheet })
    }
}

impl<'a> Struct<'a> {
    ghost use Rattle.std.specs.Prelude.{◌≡◌};
    ghost use Rattle.contract_nodes.specs.Nodes.{struct_in, params_left};

    pub fn name(self) -> Name
        ensures { result.0 ≡ (struct_in self.entry).name }
    {
        let at = self.at + contract::NAME;
        Name::new(read_u16(self.contract.sheet, at))
    }

    // Its fields.
    pub fn fields(self) -> ParamIter<'a>
        ensures is { params_left result ≡ (struct_in self.entry).fields }
        ensures most { result.left ≤ 64 }
    {
        let size = read(self.contract.sheet, self.at, LENGTH_BYTES);
        ParamIter {
            contract: self.contract,
            at: self.at + contract::AFTER_NAME,
            left: (size - contract::AFTER_NAME) / contract::PARAM,
        }
    }
}

impl<'a> Function<'a> {
    ghost use Rattle.std.specs.Prelude.{◌≡◌, ◌<◌};
    ghost use Rattle.contract_nodes.specs.Nodes.{function_in, stmts_in, params_left, param_is, opt_name};

    pub fn name(self) -> Name
        ensures { result.0 ≡ (function_in self.entry).name }
    {
        Name::new(read_u16(self.contract.sheet, self.at + contract::NAME))
    }

    // Its return type's name, if it has one.
    pub fn return_type(self) -> Option<Name>
        ensures { opt_name result ≡ (function_in self.entry).return_type }
    {
        opt_id(self.contract.sheet, self.at + contract::RETURN_TYPE).map(Name::new)
    }

    // How many parameters it has.
    pub fn param_count(self) -> usize
        ensures count { result ≡ length (function_in self.entry).params }
        ensures most { result ≤ 16 }
    {
        read(self.contract.sheet, self.at + contract::PARAM_COUNT, COUNT)
    }

    // The i-th parameter.
    pub fn param(self, i: usize) -> Param
        requires { i < length (function_in self).params }
        ensures { param_is result (function_in self.entry).params i }
    {
        Param::new(
            self.contract.sheet,
            self.at + contract::PARAMS + contract::PARAM * i,
        )
    }

    // Its parameters.
    pub fn params(self) -> ParamIter<'a>
        ensures is { params_left result ≡ (function_in self.entry).params }
        ensures most { result.left ≤ 16 }
    {
        ParamIter {
            contract: self.contract,
            at: self.at + contract::PARAMS,
            left: self.param_count(),
        }
    }

    // Its statements.
    pub fn body(self) -> Stmts<'a>
        ensures is { stmts_in result ≡ (function_in self.entry).body }
        ensures same_sheet { result.contract.sheet.now ≡ self.entry.contract.sheet.now }
        ensures depth { result.depth ≡ 38 }
        ensures place { (self.entry.at + 14 ≤ result.at) × (result.end ≤ 32768) }
    {
        let s = self.contract.sheet;
        Stmts {
            contract: self.contract,
            at: self.at + contract::PARAMS + contract::PARAM * self.param_count(),
            end: self.at + read(s, self.at, LENGTH_BYTES),
            depth: contract::FUNCTION_DEPTH - 1,
        }
    }
}

impl Param {
    ghost use Rattle.std.specs.Prelude.{◌≡◌};
    ghost use Rattle.definitions.specs.Fields.{le};

    // The pair at a place.
    fn new(s: &[u8], at: usize) -> Self
        requires { at + 4 ≤ length s.now }
        ensures { (result.name.0 ≡ le 2 s.now at) × (result.ty.0 ≡ le 2 s.now (at + 2)) }
    {
        Param {
            name: Name::new(read_u16(s, at)),
            ty: Name::new(read_u16(s, at + contract::PARAM_TYPE)),
        }
    }
}

impl Iterator for ParamIter<'_> {
    ghost use Rattle.std.specs.Iterator.{at_most};
    ghost use Rattle.contract_nodes.specs.Nodes.{TakesNextParam};

    type Item = Param;

    ghost next_gives = { TakesNextParam };

    ghost remaining = { λ w. at_most w.left };

    fn next(&mut self) -> Option<Param> {
        self.left = self.left.checked_sub(1)?;
        let param = Param::new(self.contract.sheet, self.at);
        self.at += contract::PARAM;
        Some(param)
    }
}

impl DoubleEndedIterator for ParamIter<'_> {
    ghost use Rattle.contract_nodes.specs.Nodes.{TakesLastParam};

    ghost next_back_gives = { TakesLastParam };

    fn next_back(&mut self) -> Option<Param> {
        self.left = self.left.checked_sub(1)?;
        let last = self.at + contract::PARAM * self.left;
        Some(Param::new(self.contract.sheet, last))
    }
}
