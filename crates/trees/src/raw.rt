// Nodes as triples of numbers.
ghost use Rattle.std.specs.Prelude.{◌≡◌};
ghost use Rattle.trees.specs.Tables.{node_of, raw_of};

use tree_laws::Node;

/// A node as a level tool gives it: three numbers, not yet checked.
#[derive(Clone, Copy, PartialEq, Eq, Debug)]
pub struct RawNode {
    /// 0 skip, 1 move, 2 choice, 3 sequence, 4 loop, 5 parallel.
    pub kind: u16,
    /// The move, or the first child's number, or 0.
    pub a: u16,
    /// The second child's number, or 0.
    pub b: u16,
}

/// The numbers that stand for a node.
impl From<Node> for RawNode {
    ghost from_gives = { λ node raw. (raw ≡ raw_of node) × (node_of raw ≡ node) };

    fn from(node: Node) -> RawNode {
        let (kind, a, b) = match node {
            Node::Skip => (0, 0, 0),
            Node::Move(x) => (1, x, 0),
            Node::Choice(a, b) => (2, a, b),
            Node::Sequence(a, b) => (3, a, b),
            Node::Loop(a, b) => (4, a, b),
            Node::Parallel(a, b) => (5, a, b),
        };
        RawNode {
            kind,
            a: a.into(),
            b: b.into(),
        }
    }
}
