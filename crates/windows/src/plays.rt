// Plays: the moves of one, and its marked list.
ghost use Rattle.std.specs.Prelude.{◌≡◌};
ghost use Rattle.terms.specs.Words.{marked};
ghost use Rattle.fixed_vec.specs.Lists.{list_of};
ghost use Rattle.windows.specs.Values.{play_moves};

use crate::marks::{END_MARK, START_MARK};
use fixed_vec::FixedVec;

/// How many moves a play has at most.
pub const MOST_MOVES: usize = 32;

// The moves and two marks.
const MOST_MARKED: usize = MOST_MOVES + 2;

/// A play: a tester's list of moves, at most `MOST_MOVES`. Process mining calls it a trace.
#[derive(Clone, Copy, PartialEq, Eq, Debug)]
pub struct Play {
    pub(crate) moves: FixedVec<u8, MOST_MOVES>,
}

impl Play {
    /// The moves, in order.
    pub fn moves(&self) -> &[u8]
        ensures { result.now ≡ play_moves self.now }
    {
        self.moves.as_slice()
    }

    // The start mark, the moves, the end mark.
    pub(crate) fn marked(&self) -> FixedVec<u8, MOST_MARKED>
        ensures { list_of result ≡ marked (play_moves self.now) }
    {
        let mut items = FixedVec::new();
        items.push(START_MARK);
        items.extend_from_slice(self.moves());
        items.push(END_MARK);
        items
    }
}
