// The rows of the two children of a node.
ghost use Rattle.std.specs.Prelude.{◌≡◌, bit_and};
ghost use Rattle.standings.specs.Children.{first_rows, second_rows, Unaltered};
ghost use Rattle.standings.specs.Rows.{ShortMoves};

use crate::rows::row;
use racks::Rack;
use windows::Alphabet;

// The two children of a node, and the rack where their rows stand.
#[derive(Drop)]
pub(crate) struct Children<'a, R> {
    pub(crate) alphabet: &'a Alphabet,
    pub(crate) rack: &'a mut R,
    pub(crate) first: u8,
    pub(crate) second: u8,
}

impl<'a, R> Children<'a, R> {
    pub(crate) fn new(
        alphabet: &'a Alphabet,
        rack: &'a mut R,
        first: u8,
        second: u8,
    ) -> Children<'a, R>
        ensures alphabet { result.alphabet.now ≡ alphabet.now }
        ensures rack { result.rack.now ≡ rack.old }
        ensures name { result.rack.ghost_name ≡ rack.entry.ghost_name }
        ensures first { result.first ≡ first }
        ensures second { result.second ≡ second }
    {
        Children {
            alphabet,
            rack,
            first,
            second,
        }
    }
}

impl<R: Rack> Children<'_, R> {
    // The standing of the word at the first child.
    pub(crate) fn at_first(&mut self, word: &[u8]) -> u32
        requires { ShortMoves self.old.alphabet.now word.now }
        ensures answer { result ≡ first_rows R.view self.old word.now }
        ensures unaltered { Unaltered R.view self.old self.new }
    {
        row(self.alphabet, self.rack, self.first, word)
    }

    // The standing of the word at the second child.
    pub(crate) fn at_second(&mut self, word: &[u8]) -> u32
        requires { ShortMoves self.old.alphabet.now word.now }
        ensures answer { result ≡ second_rows R.view self.old word.now }
        ensures unaltered { Unaltered R.view self.old self.new }
    {
        row(self.alphabet, self.rack, self.second, word)
    }

    // The bits of the mask that are in the word's standing at the first child. For an empty mask no row is read.
    pub(crate) fn masked_first(&mut self, mask: u32, word: &[u8]) -> u32
        requires { ShortMoves self.old.alphabet.now word.now }
        ensures answer { result ≡ bit_and mask (first_rows R.view self.old word.now) }
        ensures unaltered { Unaltered R.view self.old self.new }
    {
        if mask == 0 {
            return 0;
        }
        mask & self.at_first(word)
    }

    // The bits of the mask that are in the word's standing at the second child. For an empty mask no row is read.
    pub(crate) fn masked_second(&mut self, mask: u32, word: &[u8]) -> u32
        requires { ShortMoves self.old.alphabet.now word.now }
        ensures answer { result ≡ bit_and mask (second_rows R.view self.old word.now) }
        ensures unaltered { Unaltered R.view self.old self.new }
    {
        if mask == 0 {
            return 0;
        }
        mask & self.at_second(word)
    }
}
