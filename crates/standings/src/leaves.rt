// The nodes with no children.
ghost use Rattle.std.specs.Prelude.{◌≡◌};
ghost use Rattle.tree_laws.specs.Computed.{skip_standing, move_standing};

use crate::rows::{BEGINS, CONTAINED, ENDS, WHOLE};

// Every bit: the word is a route, and so it begins, ends and lies in one.
const ROUTE: u32 = CONTAINED | BEGINS | ENDS | WHOLE;

// The empty route alone.
pub(crate) fn skip(word: &[u8]) -> u32
    ensures { result ≡ skip_standing word.now }
{
    match word {
        [] => ROUTE,
        _ => 0,
    }
}

// The route of one move.
pub(crate) fn single(only: u8, word: &[u8]) -> u32
    ensures { result ≡ move_standing only word.now }
{
    match word {
        [] => CONTAINED | BEGINS | ENDS,
        [item] => if *item == only { ROUTE } else { 0 },
        _ => 0,
    }
}
