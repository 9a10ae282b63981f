// Process trees: which tables are trees, and the rows of a tree in a rack.
#![tactic(auto)]

mod check;
mod nodes;
mod raw;
mod rows;
mod tree;
mod window_rows;

pub use raw::RawNode;
pub use tree::Tree;
