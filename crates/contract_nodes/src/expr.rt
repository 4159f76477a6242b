// Expressions.
ghost use Rattle.definitions.specs.Grammar.{Class};
ghost use Rattle.contract_nodes.specs.Ready.{RecordStands, StandAll};

use crate::contract::Contract;
use format::operators::BinOp;
use format::{KIND, LENGTH_BYTES, WORD, contract, kinds};
use ir::Name;
use reader::{read, read_u16};

// An expression by the place of its record. `depth` is what its subexpressions' depth stays below.
#[derive(Clone, Copy)]
pub struct Expr<'a> {
    pub contract: Contract<'a>,
    pub at: usize,
    pub depth: usize,
    pub ghost ready: { RecordStands Class.expression contract.sheet.now at depth },
}

// Expressions that stand from a place to an end: the arguments of a call or an event.
#[derive(Clone, Copy)]
pub struct Exprs<'a> {
    pub contract: Contract<'a>,
    pub at: usize,
    pub end: usize,
    pub depth: usize,
    pub ghost ready: { StandAll Class.expression contract.sheet.now at end depth },
}

// The fields of a struct literal.
#[derive(Clone, Copy)]
pub struct FieldInits<'a> {
    pub contract: Contract<'a>,
    pub at: usize,
    pub end: usize,
    pub depth: usize,
    pub ghost ready: { StandAll Class.field_init contract.sheet.now at end depth },
}

// What an expression is (`Expr` of `ast.rs`).
#[derive(Clone, Copy)]
pub enum ExprNode<'a> {
    Int(usize),
    Ident(Name),
    StorageRead(Name),
    MappingRead(Name, Expr<'a>),
    FieldAccess(Name, Expr<'a>),
    StructLiteral(Name, FieldInits<'a>),
    Binary(BinOp, Expr<'a>, Expr<'a>),
    Call(Name, Exprs<'a>),
}

// A field of a struct literal.
#[derive(Clone, Copy)]
pub struct FieldInit<'a> {
    pub name: Name,
    pub value: Expr<'a>,
}

impl<'a> Expr<'a> {
    ghost use Rattle.std.specs.Prelude.{◌≡◌, ◌+◌, ◌≤◌, length};
    ghost use Rattle.format.specs.Kinds.{expr_number};
    ghost use Rattle.sheet.specs.Passed.{record_kind};
    ghost use Rattle.contract_nodes.specs.Ready.{expr_at};
    ghost use Rattle.contract_nodes.specs.ByKind.{ExprByKind};
    ghost use Rattle.contract_nodes.specs.Nodes.{expr_in, expr_is, ExprParts};

    // The expression at a place.
    pub(crate) fn new(contract: Contract<'a>, at: usize, depth: usize) -> Self
        requires { RecordStands Class.expression contract.sheet.now at depth }
        ensures is { expr_in result ≡ expr_at contract.entry.sheet.now at }
        ensures same_sheet { result.contract.sheet.now ≡ contract.entry.sheet.now }
        ensures depth { result.depth ≡ depth }
    {
        Expr {
            contract,
            at,
            depth,
        }
    }

    fn kind(self) -> kinds::Expr
        ensures is { expr_number result ≡ record_kind self.entry.contract.sheet.now self.entry.at }
        ensures here { ExprByKind self.entry.contract.sheet.now self.entry.at self.entry.depth result }
        ensures deep { 1 ≤ self.entry.depth }
        ensures room { self.entry.at + 8 ≤ length self.entry.contract.sheet.now }
    {
        kinds::Expr::try_from(read_u16(self.contract.sheet, self.at + KIND)).unwrap()
    }

    // What it is. Inlined: a call of it for each expression takes a tenth of the time of lowering.
    #[inline(always)]
    pub fn node(self) -> ExprNode<'a>
        ensures is { expr_in self.entry ≡ expr_is self.entry.at result }
        ensures parts { ExprParts self.entry result }
    {
        let contract = self.contract;
        let s = contract.sheet;
        let kind = self.kind();
        let name = Name::new(read_u16(s, self.at + contract::NAME));
        let at = self.at + contract::AFTER_NAME;
        let end = self.at + read(s, self.at, LENGTH_BYTES);
        let depth = self.depth - 1;
        match kind {
            kinds::Expr::Int => ExprNode::Int(read(s, self.at + contract::NUMBER, WORD)),
            kinds::Expr::Ident => ExprNode::Ident(name),
            kinds::Expr::StorageRead => ExprNode::StorageRead(name),
            kinds::Expr::MappingRead => ExprNode::MappingRead(name, Expr::new(contract, at, depth)),
            kinds::Expr::FieldAccess => ExprNode::FieldAccess(name, Expr::new(contract, at, depth)),
            kinds::Expr::StructLiteral => ExprNode::StructLiteral(
                name,
                FieldInits {
                    contract,
                    at,
                    end,
                    depth,
                },
            ),
            kinds::Expr::Binary => {
                let op = BinOp::try_from(read_u16(s, self.at + contract::OPERATOR)).unwrap();
                let left = Expr::new(contract, at, depth);
                let right = Expr::new(contract, at + read(s, at, LENGTH_BYTES), depth);
                ExprNode::Binary(op, left, right)
            }
            kinds::Expr::Call => ExprNode::Call(
                name,
                Exprs {
                    contract,
                    at,
                    end,
                    depth,
                },
            ),
        }
    }
}

impl Exprs<'_> {
    ghost use Rattle.std.specs.Prelude.{◌≡◌};
    ghost use Rattle.contract_nodes.specs.Nodes.{exprs_in, count_of};

    // How many there are.
    pub fn len(self) -> usize
        ensures { result ≡ count_of (exprs_in self.entry) }
    {
        sheet::places::count(self.contract.sheet, self.at, self.end)
    }
}

impl<'a> Iterator for Exprs<'a> {
    ghost use Rattle.std.specs.Prelude.{◌-◌};
    ghost use Rattle.std.specs.Iterator.{at_most};
    ghost use Rattle.contract_nodes.specs.Nodes.{TakesExpr};

    type Item = Expr<'a>;

    ghost next_gives = { TakesExpr };

    ghost remaining = { λ l. at_most (l.end - l.at) };

    fn next(&mut self) -> Option<Expr<'a>> {
        if self.end <= self.at {
            return None;
        }
        let expr = Expr::new(self.contract, self.at, self.depth);
        self.at += read(self.contract.sheet, self.at, LENGTH_BYTES);
        Some(expr)
    }
}

impl<'a> Iterator for FieldInits<'a> {
    ghost use Rattle.std.specs.Prelude.{◌-◌};
    ghost use Rattle.std.specs.Iterator.{at_most};
    ghost use Rattle.contract_nodes.specs.Nodes.{TakesField};

    type Item = FieldInit<'a>;

    ghost next_gives = { TakesField };

    ghost remaining = { λ l. at_most (l.end - l.at) };

    fn next(&mut self) -> Option<FieldInit<'a>> {
        if self.end <= self.at {
            return None;
        }
        let s = self.contract.sheet;
        let at = self.at;
        let field = FieldInit {
            name: Name::new(read_u16(s, at + contract::NAME)),
            value: Expr::new(self.contract, at + contract::AFTER_NAME, self.depth - 1),
        };
        self.at += read(s, at, LENGTH_BYTES);
        Some(field)
    }
}
