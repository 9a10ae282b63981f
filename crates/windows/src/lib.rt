// Plays, their windows, and the codes of words.
#![tactic(auto)]

mod alphabet;
mod codes;
mod cuts;
mod marks;
mod plays;
mod words;

pub use alphabet::Alphabet;
pub use cuts::Cut;
pub use marks::{END_MARK, START_MARK};
pub use plays::{MOST_MOVES, Play};
pub use words::{MOST_ITEMS, Window, Word};
