// A table that was checked.
ghost use Rattle.std.specs.Prelude.{◌<◌, ◌≤◌, length};
ghost use Rattle.fixed_vec.specs.Lists.{list_of};
ghost use Rattle.tree_laws.specs.Checked.{Checked};

use fixed_vec::FixedVec;
use tree_laws::Node;
use windows::Alphabet;

// A tree has at most this many nodes.
pub(crate) const MOST_NODES: usize = 32;

/// A process tree over an alphabet: 1 to 32 nodes, the last the root. Each node's move is one of the alphabet's, and
/// each child has a lower number than its parent, so nothing after this tests a node again.
#[derive(Clone, Copy)]
pub struct Tree {
    pub(crate) alphabet: Alphabet,
    pub(crate) nodes: FixedVec<Node, MOST_NODES>,
    ghost some: { 1 ≤ length (list_of nodes) },
    ghost few: { length (list_of nodes) ≤ 32 },
    ghost proper: { Checked alphabet.moves (list_of nodes) },
}

// A node of a tree, told by how many nodes come before it.
#[derive(Clone, Copy)]
pub(crate) struct TreeNode<'a> {
    pub(crate) tree: &'a Tree,
    pub(crate) before: usize,
    ghost inside: { before < length (list_of tree.now.nodes) },
}
