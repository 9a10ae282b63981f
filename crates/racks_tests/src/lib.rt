// The racks as they run: a script of writes beside a plain model, at each rack, and the edges of each.
#![tactic(auto)]

#[cfg(test)]
mod edges;
#[cfg(test)]
mod front;
mod lends;
#[cfg(test)]
mod model;
#[cfg(test)]
mod scripts;
#[cfg(test)]
mod searches;

pub use lends::{write_list, write_table};
