// Cutting a play into its windows.
ghost use Rattle.std.specs.Prelude.{◌≡◌, ℕ, ◌+◌, ◌≤◌, ◌↔◌, List, map, length, take, Contains, count_by};
ghost use Rattle.std.specs.Str.{bytes_eq as same_text};
ghost use Rattle.terms.specs.Words.{Cuts, WindowOf, marked, runs, windows};
ghost use Rattle.windows.specs.Values.{word_items, play_moves, cut_windows};

use crate::alphabet::Alphabet;
use crate::plays::{MOST_MOVES, Play};
use crate::words::Word;
use fixed_vec::FixedVec;

// The longest marked list has this many runs of two items.
const MOST_WINDOWS: usize = MOST_MOVES + 1;

/// The windows of one play, in order, one at each place.
#[derive(Clone, Copy, PartialEq, Eq, Debug)]
pub struct Cut {
    windows: FixedVec<Word, MOST_WINDOWS>,
}

// All runs of `order` items, one at each place.
fn all_runs(items: &[u8], order: usize) -> Cut
    requires low { 2 ≤ order }
    requires high { order ≤ 5 }
    requires short { length items.now ≤ 34 }
    ensures { cut_windows result ≡ runs order items.now }
{
    let mut windows = FixedVec::new();
    for run in items.windows(order) {
        windows.push(Word::of(run));
    }
    Cut { windows }
}

impl Alphabet {
    /// The windows of the play: its marked list where that has at most k items, else all runs of k.
    // A list that is not longer than k has itself as its one run of its own length.
    pub fn cut(&self, play: &Play) -> Cut
        ensures law { Cuts self.now.order (marked (play_moves play.now)) (cut_windows result) }
        ensures members { (u : List ℕ) → Contains (cut_windows result) u ↔ WindowOf self.now.order (marked (play_moves play.now)) u }
        ensures listed { cut_windows result ≡ windows self.now.order (marked (play_moves play.now)) }
    {
        let marked = play.marked();
        let items = marked.as_slice();
        all_runs(items, self.order.min(items.len()))
    }
}

impl Cut {
    /// The windows, in order.
    pub fn windows(&self) -> &[Word]
        ensures { map word_items result.now ≡ cut_windows self.now }
    {
        self.windows.as_slice()
    }

    /// At how many places this word stands among the windows.
    pub fn count(&self, word: &[u8]) -> usize
        ensures { result ≡ count_by (λ w. same_text w word.now) (cut_windows self.now) }
    {
        self.windows()
            .iter()
            .filter(|window| window.items() == word)
            .count()
    }
}
