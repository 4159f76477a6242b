// What the bench keeps of the function under way, and its words in its frame of working memory.
#![tactic(auto)]

pub mod frame; // where a function has its words
pub mod halt; // why a run stops
pub mod under_way; // the function under way

pub use frame::Frame;
pub use halt::Halt;
pub use under_way::UnderWay;
