// Checking a table of number triples.
ghost use Rattle.std.specs.Prelude.{◌≡◌, ◌≤◌, MatchResult, ◌≢◌};
ghost use Rattle.tree_laws.specs.Routes.{Lower};
ghost use Rattle.trees.specs.Fields.{column};
ghost use Rattle.trees.specs.Tables.{Good, WrongField, WrongChild, TableRefused, node_of};
ghost use Rattle.trees.specs.Trees.{TreeRead, tree_nodes};

use crate::raw::RawNode;
use crate::tree::{MOST_NODES, Tree};
use fixed_vec::FixedVec;
use terms::Refusal;
use tree_laws::Node;
use windows::Alphabet;

// A field of a node.
#[derive(Clone, Copy, PartialEq, Eq, Debug)]
enum Field {
    Kind,
    First,
    Second,
}

// The field's column in a level file.
impl From<Field> for u8 {
    ghost from_gives = { λ field n. n ≡ column field };

    fn from(field: Field) -> u8 {
        match field {
            Field::Kind => 2,
            Field::First => 3,
            Field::Second => 4,
        }
    }
}

// A leaf's number beside its move: it is 0.
fn check_zero(number: u16, field: Field) -> Result<(), Field>
    ensures { MatchResult result (λ _. number ≡ 0) (λ f. (f ≡ field) × (number ≢ 0)) }
{
    if number == 0 { Ok(()) } else { Err(field) }
}

// A number from 1 to `most`, or the field that it stands in.
fn check_range(number: u16, most: u8, field: Field) -> Result<u8, Field>
    ensures { MatchResult result (λ x. (x ≡ number) × ((1 ≤ number) × (number ≤ most))) (λ f. (f ≡ field) × (((1 ≤ number) × (number ≤ most)) → ⊥)) }
{
    match u8::try_from(number) {
        Ok(x) if (1..=most).contains(&x) => Ok(x),
        _ => Err(field),
    }
}

// The children of a node, both of lower number, or the lower of the fields that name none.
fn check_children(node: u8, raw: RawNode) -> Result<(u8, u8), Field>
    ensures { MatchResult result (λ p. (p ≡ (raw.a, raw.b)) × Lower node raw.a × Lower node raw.b) (λ f. WrongChild node raw (column f)) }
{
    let most = node.saturating_sub(1);
    let a = check_range(raw.a, most, Field::First)?;
    let b = check_range(raw.b, most, Field::Second)?;
    Ok((a, b))
}

// The node with this number, or its lowest wrong field.
fn check_node(moves: u8, node: u8, raw: RawNode) -> Result<Node, Field>
    ensures { MatchResult result (λ x. Good moves node raw × (x ≡ node_of raw)) (λ f. WrongField moves node raw (column f)) }
{
    Ok(match raw.kind {
        0 => {
            check_zero(raw.a, Field::First)?;
            check_zero(raw.b, Field::Second)?;
            Node::Skip
        }
        1 => {
            let x = check_range(raw.a, moves, Field::First)?;
            check_zero(raw.b, Field::Second)?;
            Node::Move(x)
        }
        2 => {
            let (a, b) = check_children(node, raw)?;
            Node::Choice(a, b)
        }
        3 => {
            let (a, b) = check_children(node, raw)?;
            Node::Sequence(a, b)
        }
        4 => {
            let (a, b) = check_children(node, raw)?;
            Node::Loop(a, b)
        }
        5 => {
            let (a, b) = check_children(node, raw)?;
            Node::Parallel(a, b)
        }
        _ => return Err(Field::Kind),
    })
}

impl Tree {
    /// The tree of this table.
    pub fn new(alphabet: Alphabet, table: &[RawNode]) -> Result<Tree, Refusal>
        ensures { MatchResult result (TreeRead alphabet table.now) (TableRefused alphabet.moves table.now) }
    {
        if table.is_empty() || table.len() > MOST_NODES {
            return Err(Refusal::NodeCount);
        }
        let mut nodes = FixedVec::new();
        for (i, raw) in table.iter().enumerate() {
            match check_node(alphabet.moves(), i as u8 + 1, *raw) {
                Ok(node) => nodes.push(node),
                Err(field) => {
                    return Err(Refusal::WrongNode {
                        node: i + 1,
                        field: field.into(),
                    });
                }
            }
        }
        Ok(Tree { alphabet, nodes })
    }

    /// The nodes, the root last.
    pub fn nodes(&self) -> &[Node]
        ensures { result.now ≡ tree_nodes self.now }
    {
        self.nodes.as_slice()
    }
}
