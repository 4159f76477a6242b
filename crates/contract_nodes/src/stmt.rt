// Statements.
ghost use Rattle.definitions.specs.Grammar.{Class};
ghost use Rattle.contract_nodes.specs.Ready.{RecordStands, StandAll};

use crate::contract::Contract;
use crate::expr::{Expr, Exprs};
use format::{HEAD, KIND, LENGTH_BYTES, contract, kinds};
use ir::Name;
use reader::{read, read_u16};

// A statement by the place of its record.
#[derive(Clone, Copy)]
pub struct Stmt<'a> {
    pub contract: Contract<'a>,
    pub at: usize,
    pub depth: usize,
    pub ghost ready: { RecordStands Class.statement contract.sheet.now at depth },
}

// Statements that stand from a place to an end: those of a function, an arm or a body.
#[derive(Clone, Copy)]
pub struct Stmts<'a> {
    pub contract: Contract<'a>,
    pub at: usize,
    pub end: usize,
    pub depth: usize,
    pub ghost ready: { StandAll Class.statement contract.sheet.now at end depth },
}

// What a statement is (`Stmt` of `ast.rs`). An If without a second arm has one without statements: both walks
// do the same for the two.
#[derive(Clone, Copy)]
pub enum StmtNode<'a> {
    Let(Name, Expr<'a>),
    If(Expr<'a>, Stmts<'a>, Stmts<'a>),
    While(Expr<'a>, Stmts<'a>),
    For(Name, Expr<'a>, Expr<'a>, Stmts<'a>),
    Simple(SimpleNode<'a>),
}

// A statement that has no statements in it and makes no name known.
#[derive(Clone, Copy)]
pub enum SimpleNode<'a> {
    Constrain(Expr<'a>),
    Assign(Name, Expr<'a>),
    StorageWrite(Name, Expr<'a>),
    MappingWrite(Name, Expr<'a>, Expr<'a>),
    Return(Option<Expr<'a>>),
    Emit(Name, Exprs<'a>),
    Expr(Expr<'a>),
}

impl<'a> Stmt<'a> {
    ghost use Rattle.std.specs.Prelude.{◌≡◌, ◌+◌, ◌≤◌, length};
    ghost use Rattle.definitions.specs.Fields.{le};
    ghost use Rattle.format.specs.Kinds.{stmt_number};
    ghost use Rattle.format.specs.declared.kinds.Stmt.TheVariants as kind;
    ghost use Rattle.sheet.specs.Passed.{record_kind, stop_of};
    ghost use Rattle.contract_nodes.specs.ByKind.{StmtByKind};
    ghost use Rattle.contract_nodes.specs.Nodes.{StmtIs, StmtParts};

    fn kind(self) -> kinds::Stmt
        ensures is { stmt_number result ≡ record_kind self.entry.contract.sheet.now self.entry.at }
        ensures here { StmtByKind self.entry.contract.sheet.now self.entry.at self.entry.depth result }
        ensures deep { 1 ≤ self.entry.depth }
    {
        kinds::Stmt::try_from(read_u16(self.contract.sheet, self.at + KIND)).unwrap()
    }

    // Its name, if its kind has one.
    fn name(self) -> Name
        requires { self.at + 8 ≤ length self.contract.sheet.now }
        ensures { result.0 ≡ le 2 self.entry.contract.sheet.now (self.entry.at + 6) }
    {
        Name::new(read_u16(self.contract.sheet, self.at + contract::NAME))
    }

    // The place behind its record.
    fn end(self) -> usize
        ensures { result ≡ stop_of self.entry.contract.sheet.now self.entry.at }
    {
        self.at + read(self.contract.sheet, self.at, LENGTH_BYTES)
    }

    // What it is. Inlined, as that of an expression is.
    #[inline(always)]
    pub fn node(self) -> StmtNode<'a>
        ensures is { StmtIs self.entry result }
        ensures parts { StmtParts self.entry result }
    {
        let contract = self.contract;
        let s = contract.sheet;
        let first = self.at + HEAD;
        let at = self.at + contract::AFTER_NAME;
        let kind = self.kind();
        let depth = self.depth - 1;
        match kind {
            kinds::Stmt::Let => StmtNode::Let(self.name(), Expr::new(contract, at, depth)),
            kinds::Stmt::Constrain => {
                StmtNode::Simple(SimpleNode::Constrain(Expr::new(contract, first, depth)))
            }
            kinds::Stmt::Assign => {
                let value = Expr::new(contract, at, depth);
                StmtNode::Simple(SimpleNode::Assign(self.name(), value))
            }
            kinds::Stmt::StorageWrite => {
                let value = Expr::new(contract, at, depth);
                StmtNode::Simple(SimpleNode::StorageWrite(self.name(), value))
            }
            kinds::Stmt::MappingWrite => {
                let key = Expr::new(contract, at, depth);
                let value = Expr::new(contract, at + read(s, at, LENGTH_BYTES), depth);
                StmtNode::Simple(SimpleNode::MappingWrite(self.name(), key, value))
            }
            kinds::Stmt::If => self.if_node(),
            kinds::Stmt::While => self.while_node(),
            kinds::Stmt::For => self.for_node(),
            kinds::Stmt::Return => self.return_node(),
            kinds::Stmt::Emit => self.emit_node(),
            kinds::Stmt::Expr => {
                StmtNode::Simple(SimpleNode::Expr(Expr::new(contract, first, depth)))
            }
        }
    }

    // An If: its condition, its block, and perhaps a second block.
    fn if_node(self) -> StmtNode<'a>
        requires { StmtByKind self.contract.sheet.now self.at self.depth kind.If }
        ensures is { StmtIs self.entry result }
        ensures parts { StmtParts self.entry result }
    {
        let contract = self.contract;
        let s = contract.sheet;
        let at = self.at + HEAD;
        let block = at + read(s, at, LENGTH_BYTES);
        let stop = block + read(s, block, LENGTH_BYTES);
        let end = self.end();
        let other = if stop < end { stop + HEAD } else { end };
        let condition = Expr::new(contract, at, self.depth - 1);
        let then = Stmts::new(contract, block + HEAD, stop, self.depth - 2);
        let otherwise = Stmts::new(contract, other, end, self.depth - 2);
        StmtNode::If(condition, then, otherwise)
    }

    // A While: its condition and its block.
    fn while_node(self) -> StmtNode<'a>
        requires { StmtByKind self.contract.sheet.now self.at self.depth kind.While }
        ensures is { StmtIs self.entry result }
        ensures parts { StmtParts self.entry result }
    {
        let contract = self.contract;
        let at = self.at + HEAD;
        let block = at + read(contract.sheet, at, LENGTH_BYTES);
        let condition = Expr::new(contract, at, self.depth - 1);
        let body = Stmts::new(contract, block + HEAD, self.end(), self.depth - 2);
        StmtNode::While(condition, body)
    }

    // A For: its variable, where it starts, where it ends, and its block.
    fn for_node(self) -> StmtNode<'a>
        requires { StmtByKind self.contract.sheet.now self.at self.depth kind.For }
        ensures is { StmtIs self.entry result }
        ensures parts { StmtParts self.entry result }
    {
        let contract = self.contract;
        let s = contract.sheet;
        let from = self.at + contract::AFTER_NAME;
        let to = from + read(s, from, LENGTH_BYTES);
        let block = to + read(s, to, LENGTH_BYTES);
        let first = Expr::new(contract, from, self.depth - 1);
        let last = Expr::new(contract, to, self.depth - 1);
        let body = Stmts::new(contract, block + HEAD, self.end(), self.depth - 2);
        StmtNode::For(self.name(), first, last, body)
    }

    // A Return: its value, if it has one.
    fn return_node(self) -> StmtNode<'a>
        requires here { StmtByKind self.contract.sheet.now self.at self.depth kind.Return }
        requires deep { 1 ≤ self.depth }
        ensures is { StmtIs self.entry result }
        ensures parts { StmtParts self.entry result }
    {
        let at = self.at + HEAD;
        if self.end() <= at {
            return StmtNode::Simple(SimpleNode::Return(None));
        }
        let value = Expr::new(self.contract, at, self.depth - 1);
        StmtNode::Simple(SimpleNode::Return(Some(value)))
    }

    // An Emit: its name and its arguments.
    fn emit_node(self) -> StmtNode<'a>
        requires here { StmtByKind self.contract.sheet.now self.at self.depth kind.Emit }
        requires deep { 1 ≤ self.depth }
        ensures is { StmtIs self.entry result }
        ensures parts { StmtParts self.entry result }
    {
        let args = Exprs {
            contract: self.contract,
            at: self.at + contract::AFTER_NAME,
            end: self.end(),
            depth: self.depth - 1,
        };
        StmtNode::Simple(SimpleNode::Emit(self.name(), args))
    }
}

impl<'a> Stmts<'a> {
    ghost use Rattle.std.specs.Prelude.{◌≡◌};
    ghost use Rattle.contract_nodes.specs.Ready.{stmts_from};
    ghost use Rattle.contract_nodes.specs.Nodes.{stmts_in};

    // The statements from a place to an end.
    fn new(contract: Contract<'a>, at: usize, end: usize, depth: usize) -> Self
        requires { StandAll Class.statement contract.sheet.now at end depth }
        ensures is { stmts_in result ≡ stmts_from contract.entry.sheet.now at end }
        ensures same_sheet { result.contract.sheet.now ≡ contract.entry.sheet.now }
        ensures span { (result.at ≡ at) × (result.end ≡ end) }
        ensures depth { result.depth ≡ depth }
    {
        Stmts {
            contract,
            at,
            end,
            depth,
        }
    }
}

impl<'a> Iterator for Stmts<'a> {
    ghost use Rattle.std.specs.Prelude.{◌-◌};
    ghost use Rattle.std.specs.Iterator.{at_most};
    ghost use Rattle.contract_nodes.specs.Nodes.{TakesStmt};

    type Item = Stmt<'a>;

    ghost next_gives = { TakesStmt };

    ghost remaining = { λ l. at_most (l.end - l.at) };

    fn next(&mut self) -> Option<Stmt<'a>> {
        if self.end <= self.at {
            return None;
        }
        let stmt = Stmt {
            contract: self.contract,
            at: self.at,
            depth: self.depth,
        };
        self.at += read(self.contract.sheet, self.at, LENGTH_BYTES);
        Some(stmt)
    }
}
