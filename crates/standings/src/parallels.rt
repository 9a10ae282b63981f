// Every interleaving of a route of the first child with one of the second.
ghost use Rattle.std.specs.Prelude.{◌≡◌};
ghost use Rattle.tree_laws.specs.Computed.{parallel_standing};
ghost use Rattle.standings.specs.Children.{by_rows, Unaltered};
ghost use Rattle.standings.specs.Rows.{ShortMoves};

use crate::children::Children;
use crate::splits::split;
use racks::Rack;

impl<R: Rack> Children<'_, R> {
    // Each item in the word of one child or of the other, in every way.
    #[tactic(auto, using(tree_laws::proofs::Bits::ors_more))]
    pub(crate) fn parallel(&mut self, word: &[u8]) -> u32
        requires { ShortMoves self.old.alphabet.now word.now }
        ensures answer { result ≡ by_rows R.view self.old parallel_standing word.now }
        ensures unaltered { Unaltered R.view self.old self.new }
    {
        let mut bits = 0;
        for mask in 0..1 << word.len() {
            let (inside, outside) = split(mask, word);
            bits |= self.at_first(inside.as_slice()) & self.at_second(outside.as_slice());
        }
        bits
    }
}
