// What a name stands for in lowering: a local that is held, a field's offset.
#![tactic(auto)]

pub mod held; // the names that are held
pub mod offsets; // fields of a value

pub use held::Scopes;
