// The refusals of the route book, and the definitions that every crate above cites.
#![tactic(auto)]

ghost use Rattle.std.specs.Prelude.{◌≡◌, Some};
ghost use Rattle.terms.specs.Refusals.{number, text};

use std::error::Error;
use std::fmt;

/// Why a call was refused. `number` is what a level tool reads; the details are the fields.
#[derive(Clone, Copy, PartialEq, Eq, Debug)]
pub enum Refusal {
    /// A write at a key that is not below the rack's reach.
    BeyondReach,
    /// A write of one more key to a rack whose room is used up.
    NoRoom,
    /// The book is shut: its number of moves or its order is not allowed.
    Shut,
    /// A table of no node, or of more than 32.
    NodeCount,
    /// The first wrong node of a table, and its lowest wrong field: 2 its kind, 3 and 4 its numbers.
    WrongNode { node: usize, field: u8 },
    /// The model rack's reach is below what the tree's keys need.
    ModelReach,
    /// The tree has more rows than the model rack has room for.
    ModelRoom,
    /// A play of more than 32 moves.
    TooManyMoves,
    /// The move at this place, counted from 1, is the first outside 1 to n.
    WrongMove { place: usize },
}

impl Refusal {
    /// The refusal's number, the same in every release.
    pub fn number(&self) -> u8
        ensures { result ≡ number self.now }
    {
        match self {
            Refusal::BeyondReach => 1,
            Refusal::NoRoom => 2,
            Refusal::Shut => 10,
            Refusal::NodeCount => 11,
            Refusal::WrongNode { .. } => 12,
            Refusal::ModelReach => 13,
            Refusal::ModelRoom => 14,
            Refusal::TooManyMoves => 17,
            Refusal::WrongMove { .. } => 18,
        }
    }
}

impl fmt::Display for Refusal {
    ghost output = { λ e. Some (text e) };

    fn fmt<W: fmt::Write>(&self, f: &mut fmt::Formatter<W>) -> fmt::Result {
        match self {
            Refusal::BeyondReach => write!(f, "refused: 1 (key beyond the reach)"),
            Refusal::NoRoom => write!(f, "refused: 2 (no room in the rack)"),
            Refusal::Shut => write!(f, "refused: 10 (the book is shut)"),
            Refusal::NodeCount => write!(f, "refused: 11 (no node, or more than 32)"),
            Refusal::WrongNode { node, field } => {
                write!(f, "refused: 12 (node {node}, field {field})")
            }
            Refusal::ModelReach => write!(f, "refused: 13 (the model rack's reach is too low)"),
            Refusal::ModelRoom => write!(f, "refused: 14 (the model rack has too little room)"),
            Refusal::TooManyMoves => write!(f, "refused: 17 (more than 32 moves)"),
            Refusal::WrongMove { place } => write!(f, "refused: 18 (move {place})"),
        }
    }
}

impl Error for Refusal {}

#[cfg(test)]
mod tests {
    use super::*;

    #[test]
    fn refusals_as_text(rt: HostRuntime) -> Result<(), std::test::Fail> {
        let alloc = rt.alloc();
        assert_eq!(rt;
            format!(in alloc; "{}", Refusal::Shut)?.as_str(),
            "refused: 10 (the book is shut)"
        );
        assert_eq!(rt;
            format!(in alloc; "{}", Refusal::WrongNode { node: 3, field: 2 })?.as_str(),
            "refused: 12 (node 3, field 2)"
        );
        assert_eq!(rt;
            format!(in alloc; "{}", Refusal::WrongMove { place: 33 })?.as_str(),
            "refused: 18 (move 33)"
        );
        Ok(())
    }
}
