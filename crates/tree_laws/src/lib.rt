// Process trees: the nodes of a table, and the laws of their routes.
#![tactic(auto)]

ghost use Rattle.tree_laws.specs.Laws.{ChoiceLaws, SequenceLaws, LoopLaws, ParallelLaws, NodeLaws, WindowLaws};
ghost use Rattle.tree_laws.specs.Standings.{ComputedLaws, StandingLaws};

use std::fmt;

/// A node of a table. Children are node numbers, counted from 1.
#[derive(Clone, Copy, PartialEq, Eq, Debug, Default)]
pub enum Node {
    /// The empty route alone.
    #[default]
    Skip,
    /// The route of one move.
    Move(u8),
    /// The routes of either child.
    Choice(u8, u8),
    /// A route of the first child, then one of the second.
    Sequence(u8, u8),
    /// A route of the first child, then any number of times one of the second and one of the first.
    Loop(u8, u8),
    /// Every interleaving of a route of the first child with one of the second.
    Parallel(u8, u8),
}

impl fmt::Display for Node {
    ghost use Rattle.std.specs.Prelude.{Some};
    ghost use Rattle.tree_laws.specs.Shown.{text};

    ghost output = { λ node. Some (text node) };

    fn fmt<W: fmt::Write>(&self, f: &mut fmt::Formatter<W>) -> fmt::Result {
        match self {
            Node::Skip => write!(f, "skip"),
            Node::Move(m) => write!(f, "move {m}"),
            Node::Choice(a, b) => write!(f, "choice of {a} and {b}"),
            Node::Sequence(a, b) => write!(f, "{a}, then {b}"),
            Node::Loop(a, b) => write!(f, "loop of {a} and {b}"),
            Node::Parallel(a, b) => write!(f, "{a} and {b} in parallel"),
        }
    }
}

// The functions below compute nothing: each contract is a law, which the check has proved.

/// A word at a choice has each fact that it has at either child.
pub fn choice_laws()
    ensures { ChoiceLaws }
{}

/// A word at a sequence lies in one child, or is cut between the two.
pub fn sequence_laws()
    ensures { SequenceLaws }
{}

/// A word at a loop lies in one route of a child, or across boundaries between such routes.
pub fn loop_laws()
    ensures { LoopLaws }
{}

/// A word at parallel children is divided between them, and each part has the fact that the word has.
pub fn parallel_laws()
    ensures { ParallelLaws }
{}

/// What holds at every node: it has a route, its routes consist of moves, and parts of contained words are contained.
pub fn node_laws()
    ensures { NodeLaws }
{}

/// Which windows the root plays, by the four facts.
pub fn window_laws()
    ensures { WindowLaws }
{}

/// The number worked out from the standings at the children is the standing at the node.
pub fn computed_laws()
    ensures { ComputedLaws }
{}

/// Every word has exactly one standing, and its bits tell the facts.
pub fn standing_laws()
    ensures { StandingLaws }
{}
