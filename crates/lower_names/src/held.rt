// The names that are held.
use ir::{IrType, LocalId, Name};
use lower_state::MOST_LOCALS;
use std::marker::Model;

// A name with the number of its scope, its local and its type.
#[derive(Clone, Copy)]
struct HeldName {
    name: Name,
    scope: u16,
    local: LocalId,
    ty: IrType,
}

// What stands where no name is held.
const BLANK: HeldName = HeldName {
    name: Name::EMPTY,
    scope: 0,
    local: LocalId(0),
    ty: IrType::U64,
};

// The names that are held in all open scopes, newest last, and the number of the innermost scope: a function's own is 0, and an arm or a
// body is one more than what it stands in. Each name has a local, so that at most so many are held as there may be locals.
#[derive(Clone, Copy)]
pub struct Scopes {
    names: [HeldName; MOST_LOCALS],
    count: usize,
    scope: u16,
}

// A clause sees the names, newest first, and the scope. They give the array back, as a Copy type needs, since it is blank behind the count.
impl Model for Scopes {
    ghost use Rattle.lower_names.specs.HeldNames.{HeldNames};

    ghost Value = { HeldNames };

    ghost use Rattle.lower_names.specs.Scopes.{held_names_in, NamesFit};

    ghost view = { held_names_in };

    ghost invariant = { NamesFit };

    ghost use Rattle.lower_names.specs.Back.{names_back, back_again};

    ghost inverse = { names_back };

    ghost inverse_ok = { back_again };
}

impl Scopes {
    ghost use Rattle.std.specs.Prelude.{◌≡◌, ◌≤◌, ◌<◌, [], length};
    ghost use Rattle.definitions.specs.Lower.{in_scope};
    ghost use Rattle.ir.specs.Answers.{option_of};
    ghost use Rattle.ir.specs.Types.{as_type};
    ghost use Rattle.lower_walk.specs.Held.{names};
    ghost use Rattle.lower_names.specs.HeldNames.{with_name, inside, outside};
    ghost use Rattle.lower_names.specs.Scopes.{local_of};

    // No name is held, and a function's own scope is open.
    pub fn new() -> Scopes
        ensures { result ≡ record { held = []; scope = 0 } }
    {
        Scopes {
            names: [BLANK; MOST_LOCALS],
            count: 0,
            scope: 0,
        }
    }

    // How many names are held.
    pub fn len(&self) -> usize
        ensures { result ≡ length self.now.held }
    {
        self.count
    }

    // The local and type that a name stands for: those of the newest that is held.
    pub fn lookup(&self, name: Name) -> Option<(LocalId, IrType)>
        ensures { option_of local_of result ≡ in_scope name.0 (names self.now.held) }
    {
        self.names[..self.count]
            .iter()
            .rev()
            .find(|e| e.name == name)
            .map(|e| (e.local, e.ty))
    }

    // One name more is held, in the innermost scope.
    pub fn declare(&mut self, name: Name, local: LocalId, ty: IrType)
        requires { length self.old.held < 256 }
        ensures { self.new ≡ with_name name.0 local.0 (as_type ty) self.old }
    {
        self.names[self.count] = HeldName {
            name,
            scope: self.scope,
            local,
            ty,
        };
        self.count += 1;
    }

    // A scope is opened inside the innermost one.
    pub fn push_scope(&mut self)
        requires { self.old.scope < 65535 }
        ensures { self.new ≡ inside self.old }
    {
        self.scope += 1;
    }

    // The innermost scope is closed: only the first `mark` names are held again.
    pub fn pop_scope(&mut self, mark: usize)
        requires { (mark ≤ length self.old.held) × (0 < self.old.scope) }
        ensures { self.new ≡ outside mark self.old }
    {
        self.names[mark..self.count].fill(BLANK);
        self.count = mark;
        self.scope -= 1;
    }
}
