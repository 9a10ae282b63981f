// The row of a word at a node.
ghost use Rattle.std.specs.Prelude.{◌≡◌};
ghost use Rattle.standings.specs.Rows.{RowRead};

use racks::Rack;
use windows::Alphabet;

// A standing has four bits.

// The word lies in a route of the node.
pub(crate) const CONTAINED: u32 = 1;

// The word is the beginning of a route.
pub(crate) const BEGINS: u32 = 2;

// The word is the end of a route.
pub(crate) const ENDS: u32 = 4;

// The word is a whole route.
pub(crate) const WHOLE: u32 = 8;

/// The number in the row of the word at the node, 0 where the bytes are no word.
pub fn row<R: Rack>(alphabet: &Alphabet, rack: &mut R, node: u8, word: &[u8]) -> u32
    ensures answer { RowRead alphabet.now.moves alphabet.now.order (R.view rack.old).number node word.now result }
    ensures unaltered { R.view rack.new ≡ R.view rack.old }
{
    let Some(code) = alphabet.code(word) else {
        return 0;
    };
    rack.read(u32::from(node) * alphabet.code_limit() + code)
}
