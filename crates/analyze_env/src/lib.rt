// The names that are known in a function, with their types (`env` of `sema.rs`).
#![tactic(auto)]

ghost use Rattle.std.specs.Prelude.{◌≡◌, ◌+◌, ◌≤◌, ◌<◌, [], length, replicate};
ghost use Rattle.definitions.specs.Analyze as analyze;
ghost use Rattle.definitions.specs.Analyze.{get};
ghost use Rattle.ir.specs.Answers.{option_of};
ghost use Rattle.analyze_env.specs.Types.{as_ty};
ghost use Rattle.analyze_env.specs.Bindings.{no_link, position_of, chain_of};

use ir::{IrType, Name};
use std::marker::Model;

// There are FEW heads at least, and names with the same remainder by FEW share one. With ALL heads each name has its own, so that no lookup
// walks.
pub const FEW: usize = 1024;

pub const ALL: usize = 65536;

// A type of the body check (`Type` of `sema.rs`). Not `Option<IrType>`: what `get` gives would then be an Option of an Option.
#[derive(Clone, Copy, PartialEq, Eq)]
pub enum Ty {
    Unknown,
    Known(IrType),
}

// Two types that are known and not the same.
pub fn differs(a: Ty, b: Ty) -> bool
    ensures { result ≡ analyze.differs (as_ty a) (as_ty b) }
{
    a != b && a != Ty::Unknown && b != Ty::Unknown
}

// The position of a binding, or none. Zeros are none, so that new heads are cleared memory; an Option of the position has four bytes, and
// would double the heads, 131 kB of stack.
#[derive(Clone, Copy)]
pub struct Link(u16);

impl Link {
    pub const NONE: Link = Link(0);

    // To a binding.
    fn to(position: usize) -> Link
        requires { position < 65535 }
        ensures { result.0 ≡ position + 1 }
    {
        Link((position + 1) as u16)
    }

    fn get(self) -> Option<usize>
        ensures { option_of (λ i. i) result ≡ position_of self.0 }
    {
        (self.0 as usize).checked_sub(1)
    }
}

// A name with its type, and the link to the binding before it of its chain.
#[derive(Clone, Copy)]
pub struct Binding {
    name: Name,
    link: Link,
    ty: Ty,
}

impl Binding {
    // What a binding is before it is written: zeros.
    pub const BLANK: Binding = Binding {
        name: Name::EMPTY,
        link: Link::NONE,
        ty: Ty::Unknown,
    };
}

// The chain of a name.
#[tactic(auto, using(std::proofs::lemmas::Bool::Decides::nat_tests), unfolding(crate::specs::Bindings::chain_of))]
fn chain_of(name: Name, chains: usize) -> usize
    requires { 1024 ≤ chains }
    ensures { (result ≡ chain_of chains name.0) × (result < chains) }
{
    let number = name.0 as usize;
    if chains < ALL {
        return number % FEW;
    }
    number
}

// The first `count` bindings are the names, newest last. Each chain of names has a head, the link to its newest binding. It stands for the Rust's
// `HashMap`: without a heap (a rule of the project) its chains are links between the bindings of a lent array, and a link is an index.
#[derive(Drop)]
pub struct Env<'a> {
    bindings: &'a mut [Binding],
    heads: &'a mut [Link],
    count: usize,
}

// A clause sees the names with their types, newest first, and for how many there is room.
impl<'a> Model for Env<'a> {
    ghost use Rattle.analyze_env.specs.Names.{Names};

    ghost Value = { Names };

    ghost use Rattle.analyze_env.specs.Env.{names_in, IsEnv};

    ghost view = { names_in };

    ghost invariant = { IsEnv };
}

impl<'a> Env<'a> {
    ghost use Rattle.analyze_env.specs.Names.{Names, named, truncated};

    #[tactic(auto, unfolding(crate::specs::Bindings::env_of))]
    pub fn new(bindings: &'a mut [Binding], heads: &'a mut [Link]) -> Env<'a>
        requires heads_are_none { heads.old ≡ replicate (length heads.old) no_link }
        requires sizes { (length bindings.old ≤ 65535) × (1024 ≤ length heads.old) }
        ensures { result ≡ record { names = []; room = length bindings.old } }
    {
        Env {
            bindings,
            heads,
            count: 0,
        }
    }

    // How many names are known.
    pub fn len(&self) -> usize
        ensures { result ≡ length self.now.names }
    {
        self.count
    }

    // The type of the newest binding of a name.
    pub fn get(&self, name: Name) -> Option<Ty>
        ensures { option_of as_ty result ≡ get name.0 self.now.names }
    {
        let chain = chain_of(name, self.heads.len());
        let mut link = self.heads[chain];
        while let Some(i) = link.get() {
            let e = self.bindings[i];
            if e.name == name {
                return Some(e.ty);
            }
            link = e.link;
        }
        None
    }

    // One name more is known.
    pub fn insert(&mut self, name: Name, t: Ty)
        requires { length self.old.names < self.old.room }
        ensures { self.new ≡ named name.0 (as_ty t) self.old }
    {
        let chain = chain_of(name, self.heads.len());
        let link = self.heads[chain];
        self.bindings[self.count] = Binding { name, link, ty: t };
        self.heads[chain] = Link::to(self.count);
        self.count += 1;
    }

    // Only the first `mark` names are known again (For). Newest first, a binding's chain gets back the head from before it.
    // The bindings are lent as `&mut`, though they are only read: beside a `&` of one field the borrow checker covers no use of another.
    pub fn truncate(&mut self, mark: usize)
        requires { mark ≤ length self.old.names }
        ensures { self.new ≡ truncated mark self.old }
    {
        let going = &mut self.bindings[mark..self.count];
        let heads = &mut *self.heads;
        for e in going.iter().rev() {
            let chain = chain_of(e.name, heads.len());
            heads[chain] = e.link;
        }
        self.count = mark;
    }
}
