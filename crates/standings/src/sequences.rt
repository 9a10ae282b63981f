// A route of the first child, then one of the second.
ghost use Rattle.std.specs.Prelude.{◌≡◌, ◌+◌, length};
ghost use Rattle.tree_laws.specs.Computed.{ors, front_bits, back_bits, cut_bits, sequence_standing};
ghost use Rattle.standings.specs.Children.{by_rows, Unaltered};
ghost use Rattle.standings.specs.Rows.{ShortMoves};

use crate::children::Children;
use crate::rows::{BEGINS, CONTAINED, ENDS, WHOLE};
use racks::Rack;

// What the standing of the front allows: its route goes to the end there, and may be whole.
fn front(standing: u32) -> u32
    ensures { result ≡ front_bits standing }
{
    let ending = standing & (ENDS | WHOLE);
    ending | ending >> 2
}

// What the standing of the rest allows: its route starts there, and may be whole.
fn back(standing: u32) -> u32
    ensures { result ≡ back_bits standing }
{
    let beginning = standing & (BEGINS | WHOLE);
    beginning | beginning >> 1
}

impl<R: Rack> Children<'_, R> {
    // The word cut in two at each place, the front in the first child and the rest in the second.
    #[tactic(auto, using(tree_laws::proofs::Bits::ors_more))]
    fn cuts(&mut self, word: &[u8]) -> u32
        requires { ShortMoves self.old.alphabet.now word.now }
        ensures answer { result ≡ ors (by_rows R.view self.old cut_bits word.now) (length word.now + 1) }
        ensures unaltered { Unaltered R.view self.old self.new }
    {
        let mut bits = 0;
        for j in 0..=word.len() {
            let (before, after) = word.split_at(j);
            bits |= front(self.at_first(before)) & back(self.at_second(after));
        }
        bits
    }

    // In one child, or cut between the two.
    pub(crate) fn sequence(&mut self, word: &[u8]) -> u32
        requires { ShortMoves self.old.alphabet.now word.now }
        ensures answer { result ≡ by_rows R.view self.old sequence_standing word.now }
        ensures unaltered { Unaltered R.view self.old self.new }
    {
        // A beginning of the first child is one of the sequence, and an end of the second its end.
        let before = self.at_first(word) & (CONTAINED | BEGINS);
        let after = self.at_second(word) & (CONTAINED | ENDS);
        before | after | self.cuts(word)
    }
}
