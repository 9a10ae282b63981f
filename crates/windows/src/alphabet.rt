// The alphabet of a book, and what it accepts: its own numbers, windows, and the moves of a play.
ghost use Rattle.std.specs.Prelude.{◌≡◌, ◌≤◌, ◌↔◌, IsTrue, MatchOption, MatchResult};
ghost use Rattle.terms.specs.Words.{Moves, FirstWrong, IsWindow};

use crate::marks::{END_MARK, START_MARK};
use crate::plays::{MOST_MOVES, Play};
use fixed_vec::FixedVec;
use terms::Refusal;

/// The alphabet of n moves, numbered 1 to n, and the order k, the length of its windows.
// Both numbers are known to be allowed.
#[derive(Clone, Copy, PartialEq, Eq, Debug)]
pub struct Alphabet {
    pub(crate) moves: u8,
    pub(crate) order: usize,
    ghost some: { 1 ≤ moves },
    ghost few: { moves ≤ 12 },
    ghost low: { 2 ≤ order },
    ghost high: { order ≤ 5 },
}

impl Alphabet {
    ghost use Rattle.windows.specs.Promises.{Opens, PlayRead, PlayRefused};

    /// The alphabet of n moves and the order k.
    pub fn new(moves: u16, order: u16) -> Result<Alphabet, Refusal>
        ensures { Opens moves order result }
    {
        match (moves, order) {
            (1..=12, 2..=5) => Ok(Alphabet {
                moves: moves as u8,
                order: usize::from(order),
            }),
            _ => Err(Refusal::Shut),
        }
    }

    /// How many moves there are.
    pub fn moves(&self) -> u8
        ensures { result ≡ self.now.moves }
    {
        self.moves
    }

    /// The order k.
    pub fn order(&self) -> usize
        ensures { result ≡ self.now.order }
    {
        self.order
    }

    /// Whether each of these bytes is one of the moves 1 to n.
    pub fn are_moves(&self, items: &[u8]) -> bool
        ensures { IsTrue result ↔ Moves self.now.moves items.now }
    {
        items.iter().all(|x| (1..=self.moves).contains(x))
    }

    /// Whether these bytes are a window.
    pub fn is_window(&self, bytes: &[u8]) -> bool
        ensures { IsTrue result ↔ IsWindow self.now.moves self.now.order bytes.now }
    {
        let rest = bytes.strip_prefix(&[START_MARK]).unwrap_or(bytes);
        let moves = rest.strip_suffix(&[END_MARK]).unwrap_or(rest);
        // With both marks at most k items, otherwise exactly k.
        let len = bytes.len();
        let fits = if len == moves.len() + 2 {
            len <= self.order
        } else {
            len == self.order
        };
        fits && self.are_moves(moves)
    }

    /// The play with these moves.
    pub fn play(&self, moves: &[u8]) -> Result<Play, Refusal>
        ensures { MatchResult result (PlayRead self.now.moves moves.now) (PlayRefused self.now.moves moves.now) }
    {
        if moves.len() > MOST_MOVES {
            return Err(Refusal::TooManyMoves);
        }
        if let Some(place) = first_wrong(self.moves, moves) {
            return Err(Refusal::WrongMove { place });
        }
        Ok(Play {
            moves: FixedVec::from_slice(moves),
        })
    }
}

// The place, counted from 1, of the first item outside 1 to n.
fn first_wrong(n: u8, items: &[u8]) -> Option<usize>
    ensures { MatchOption result (Moves n items.now) (λ p. FirstWrong n items.now p) }
{
    for (i, x) in items.iter().enumerate() {
        if !(1..=n).contains(x) {
            return Some(i + 1);
        }
    }
    None
}
