// The routes of either child.
ghost use Rattle.std.specs.Prelude.{◌≡◌, bit_or};
ghost use Rattle.standings.specs.Children.{first_rows, second_rows, Unaltered};
ghost use Rattle.standings.specs.Rows.{ShortMoves};

use crate::children::Children;
use racks::Rack;

impl<R: Rack> Children<'_, R> {
    // In a route of either child.
    pub(crate) fn choice(&mut self, word: &[u8]) -> u32
        requires { ShortMoves self.old.alphabet.now word.now }
        ensures answer { result ≡ bit_or (first_rows R.view self.old word.now) (second_rows R.view self.old word.now) }
        ensures unaltered { Unaltered R.view self.old self.new }
    {
        self.at_first(word) | self.at_second(word)
    }
}
