// The standing of a word at a node, worked out from the rows of the node's children in a rack.
#![tactic(auto)]

mod children;
mod choices;
mod leaves;
mod loops;
mod nodes;
mod parallels;
mod rows;
mod sequences;
mod splits;

pub use nodes::standing;
pub use rows::row;
