// The contract's structs, or its functions, by their places: kept, they are searched by name without a walk over the records between them.
// `Structs` and `Functions` are no generic list: each reads as another list of the definitions, so a trait would have more lines than the two
// constructors and searches, which share `places_of` and `last_place`.
ghost use Rattle.std.specs.Prelude.{◌≡◌, ◌≤◌, ◌<◌, [], ℕ, IfSome, length};
ghost use Rattle.definitions.specs.Lower.{struct_named};
ghost use Rattle.definitions.specs.Sema.{function_named};
ghost use Rattle.format.specs.Kinds.{declaration_number};
ghost use Rattle.ir.specs.Answers.{option_of};
ghost use Rattle.contract_nodes.specs.Nodes.{contract_in, struct_in, function_in};
ghost use Rattle.contract_lookup.specs.Answers.{second, nth};
ghost use Rattle.contract_lookup.specs.Listed.{Listed, LastAt};

use crate::symbols::past;
use arrayvec::ArrayVec;
use contract_nodes::{Contract, Function, Struct};
use format::KIND;
use format::contract::{self, MOST_FUNCTIONS, MOST_STRUCTS};
use format::kinds::{Declaration, Kind};
use ir::{FunctionId, Name};
use reader::read_u16;

// The structs, in order.
#[derive(Drop)]
pub struct Structs<'a> {
    pub contract: Contract<'a>,
    places: ArrayVec<u32, MOST_STRUCTS>,
    ghost listed: { Listed contract.sheet.now 3 places.items },
}

// The functions, in order.
#[derive(Drop)]
pub struct Functions<'a> {
    pub contract: Contract<'a>,
    places: ArrayVec<u32, MOST_FUNCTIONS>,
    ghost listed: { Listed contract.sheet.now 4 places.items },
}

// The functions from the `next`-th on, each with its id, which is its position. No wrapped `slice::Iter`: of the places that are left it were not
// known that functions stand there.
#[derive(Clone, Copy)]
pub struct FunctionIter<'a> {
    pub functions: &'a Functions<'a>,
    pub next: usize,
}

// Stores the places of the structs or functions in their order. None comes after a record of a higher kind.
// A loop of its own: over an iterator of the places of a kind's records, shared with `last_named`, it takes five percent longer.
// Kinds are compared by their numbers, as in `last_named`.
fn places_of<const N: usize>(contract: Contract, kind: Declaration, places: &mut ArrayVec<u32, N>)
    requires not_storage { 3 ≤ declaration_number kind }
    requires room { 64 ≤ N }
    requires empty { places.old.items ≡ [] }
    ensures { Listed contract.entry.sheet.now (declaration_number kind) places.new.items }
{
    let s = contract.sheet;
    let wanted = u16::from(Kind::Declaration(kind));
    let mut at = contract::CHILDREN;
    while at < s.len() {
        let here = read_u16(s, at + KIND);
        if wanted < here {
            return;
        }
        if here == wanted {
            places.push(at as u32);
        }
        at = past(s, at, here);
    }
}

// The place of the last that has a name.
fn last_place(contract: Contract, places: &[u32], name: Name) -> Option<usize>
    requires { (kind : ℕ) × Listed contract.sheet.now kind places.now }
    ensures { (kind : ℕ) → Listed contract.entry.sheet.now kind places.now → LastAt contract.entry.sheet.now kind name.0 result }
{
    for &place in places.iter().rev() {
        let at = place as usize;
        if Name::new(read_u16(contract.sheet, at + contract::NAME)) == name {
            return Some(at);
        }
    }
    None
}

impl<'a> Structs<'a> {
    pub fn new(contract: Contract<'a>) -> Self
        ensures { result.contract.sheet.now ≡ contract.entry.sheet.now }
    {
        let mut places = ArrayVec::new();
        places_of(contract, Declaration::Struct, &mut places);
        Structs { contract, places }
    }

    // How many there are.
    pub fn len(&self) -> usize
        ensures is { result ≡ length (contract_in self.now.contract).structs }
        ensures most { result ≤ 64 }
    {
        self.places.as_slice().len()
    }

    // The i-th of them.
    pub fn get(&self, i: usize) -> Option<Struct<'a>>
        ensures is { option_of struct_in result ≡ nth (contract_in self.now.contract).structs i }
        ensures most { IfSome result (λ x. i < 64) }
        ensures same_sheet { IfSome result (λ x. x.contract.sheet.now ≡ self.now.contract.sheet.now) }
    {
        let places = self.places.as_slice();
        if places.len() <= i {
            return None;
        }
        Some(Struct {
            contract: self.contract,
            at: places[i] as usize,
        })
    }

    // The last of a name.
    pub fn named(&self, name: Name) -> Option<Struct<'a>>
        ensures is { option_of struct_in result ≡ second (struct_named (contract_in self.now.contract) name.0) }
        ensures same_sheet { IfSome result (λ x. x.contract.sheet.now ≡ self.now.contract.sheet.now) }
    {
        let at = last_place(self.contract, self.places.as_slice(), name)?;
        Some(Struct {
            contract: self.contract,
            at,
        })
    }
}

impl<'a> Functions<'a> {
    pub fn new(contract: Contract<'a>) -> Self
        ensures { result.contract.sheet.now ≡ contract.entry.sheet.now }
    {
        let mut places = ArrayVec::new();
        places_of(contract, Declaration::Function, &mut places);
        Functions { contract, places }
    }

    // How many there are.
    pub fn len(&self) -> usize
        ensures is { result ≡ length (contract_in self.now.contract).functions }
        ensures most { result ≤ 64 }
    {
        self.places.len()
    }

    // Each of them with its id.
    pub fn iter(&self) -> FunctionIter<'_>
        ensures { (result.next ≡ 0) × (result.functions.now ≡ self.now) }
    {
        FunctionIter {
            functions: self,
            next: 0,
        }
    }

    // The i-th of them.
    pub fn get(&self, i: usize) -> Option<Function<'a>>
        ensures is { option_of function_in result ≡ nth (contract_in self.now.contract).functions i }
        ensures most { IfSome result (λ f. i < 64) }
        ensures same_sheet { IfSome result (λ f. f.contract.sheet.now ≡ self.now.contract.sheet.now) }
    {
        if self.places.len() <= i {
            return None;
        }
        Some(Function {
            contract: self.contract,
            at: self.places.as_slice()[i] as usize,
        })
    }

    // The last of a name.
    pub fn named(&self, name: Name) -> Option<Function<'a>>
        ensures is { option_of function_in result ≡ second (function_named (contract_in self.now.contract) name.0) }
        ensures same_sheet { IfSome result (λ f. f.contract.sheet.now ≡ self.now.contract.sheet.now) }
    {
        let at = last_place(self.contract, self.places.as_slice(), name)?;
        Some(Function {
            contract: self.contract,
            at,
        })
    }
}

impl<'a> Iterator for FunctionIter<'a> {
    ghost use Rattle.std.specs.Prelude.{◌-◌};
    ghost use Rattle.std.specs.Iterator.{at_most};
    ghost use Rattle.contract_lookup.specs.Walked.{TakesNext};

    type Item = (FunctionId, Function<'a>);

    ghost next_gives = { TakesNext };

    ghost remaining = { λ w. at_most (64 - w.next) };

    fn next(&mut self) -> Option<(FunctionId, Function<'a>)> {
        let function = self.functions.get(self.next)?;
        let id = FunctionId(self.next as u16);
        self.next += 1;
        Some((id, function))
    }
}
