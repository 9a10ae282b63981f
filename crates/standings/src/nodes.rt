// The standing of a word at a node.
ghost use Rattle.std.specs.Prelude.{◌≡◌, ◌<◌, ◌≤◌, length};
ghost use Rattle.terms.specs.Words.{Moves};
ghost use Rattle.standings.specs.Rows.{ShortMoves, standing_by};

use crate::children::Children;
use crate::leaves::{single, skip};
use racks::Rack;
use tree_laws::Node;
use windows::Alphabet;

// The standing by the kind of the node.
fn by_kind<R: Rack>(alphabet: &Alphabet, node: Node, rack: &mut R, word: &[u8]) -> u32
    requires { ShortMoves alphabet.now word.now }
    ensures answer { result ≡ standing_by alphabet.now.moves alphabet.now.order (R.view rack.old).number node word.now }
    ensures unaltered { R.view rack.new ≡ R.view rack.old }
{
    match node {
        Node::Skip => skip(word),
        Node::Move(only) => single(only, word),
        Node::Choice(a, b) => Children::new(alphabet, rack, a, b).choice(word),
        Node::Sequence(a, b) => Children::new(alphabet, rack, a, b).sequence(word),
        Node::Loop(a, b) => Children::new(alphabet, rack, a, b).repeat(word),
        Node::Parallel(a, b) => Children::new(alphabet, rack, a, b).parallel(word),
    }
}

/// The standing of the word at the node by the rows of the node's children, 0 for what is no word of at most k moves.
pub fn standing<R: Rack>(alphabet: &Alphabet, node: Node, rack: &mut R, word: &[u8]) -> u32
    ensures answer { Moves alphabet.now.moves word.now → length word.now ≤ alphabet.now.order → result ≡ standing_by alphabet.now.moves alphabet.now.order (R.view rack.old).number node word.now }
    ensures too_long { alphabet.now.order < length word.now → result ≡ 0 }
    ensures other_items { (Moves alphabet.now.moves word.now → ⊥) → result ≡ 0 }
    ensures unaltered { R.view rack.new ≡ R.view rack.old }
{
    if word.len() > alphabet.order() || !alphabet.are_moves(word) {
        return 0;
    }
    by_kind(alphabet, node, rack, word)
}
