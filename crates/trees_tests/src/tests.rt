use list_rack::{ListRack, Row};
use racks::Rack;
use std::test::Fail;
use table_rack::TableRack;
use terms::Refusal;
use tree_laws::Node;
use trees::{RawNode, Tree};
use windows::Alphabet;

const NO_ROW: Row = Row { key: 0, number: 0 };

// Moves 1 and 2 below this root.
fn over_both(root: Node) -> [RawNode; 3] {
    [Node::Move(1), Node::Move(2), root].map(RawNode::from)
}

fn planted<R: Rack>(n: u16, k: u16, table: &[RawNode], rack: &mut R) -> Result<u32, Refusal> {
    Tree::new(Alphabet::new(n, k)?, table)?.write_rows(rack)
}

// Two rows at each move, five at the parallel node, four windows: 13 rows.
#[test]
fn room_for_the_rows(rt: HostRuntime) {
    let mut rows = [NO_ROW; 13];
    let mut rack = ListRack::new(&mut rows);
    assert_eq!(rt;
        planted(3, 3, &over_both(Node::Parallel(1, 2)), &mut rack),
        Ok(4)
    );
    assert_eq!(rt; rack.held(), 13);
    let mut fewer = [NO_ROW; 12];
    let mut small = ListRack::new(&mut fewer);
    assert_eq!(rt;
        planted(3, 3, &over_both(Node::Parallel(1, 2)), &mut small),
        Err(Refusal::ModelRoom)
    );
    assert_eq!(rt; small.held(), 0);
}

// Four nodes' worth of keys of three digits in base 6: 4 * 216.
#[test]
fn reach_for_the_keys(rt: HostRuntime) {
    let mut cells = [0; 864];
    let mut rack = TableRack::new(&mut cells);
    assert_eq!(rt;
        planted(3, 3, &over_both(Node::Parallel(1, 2)), &mut rack),
        Ok(4)
    );
    // +12 is playable, 121 is not.
    assert_eq!(rt; rack.read(152), 1);
    assert_eq!(rt; rack.read(49), 0);
    let mut fewer = [0; 863];
    let mut small = TableRack::new(&mut fewer);
    assert_eq!(rt; small.write(7, 9), Ok(()));
    assert_eq!(rt;
        planted(3, 3, &over_both(Node::Parallel(1, 2)), &mut small),
        Err(Refusal::ModelReach)
    );
    assert_eq!(rt; small.read(7), 9);
}

// A route of a loop may have its second child more than once: 12121 is a window of order 5.
#[test]
fn rounds_of_a_loop(rt: HostRuntime) -> Result<(), Fail> {
    let alphabet = Alphabet::new(2, 5)?;
    let mut rows = [NO_ROW; 256];
    let mut rack = ListRack::new(&mut rows);
    planted(2, 5, &over_both(Node::Loop(1, 2)), &mut rack)?;
    let Some(playable) = alphabet.code(b"\x01\x02\x01\x02\x01") else {
        assert!(rt; false, "12121 has a code");
        return Ok(());
    };
    assert_eq!(rt; rack.read(playable), 1);
    let Some(unplayable) = alphabet.code(b"\x01\x01\x02\x01\x02") else {
        assert!(rt; false, "11212 has a code");
        return Ok(());
    };
    assert_eq!(rt; rack.read(unplayable), 0);
    Ok(())
}

#[test]
fn refused_tables(rt: HostRuntime) {
    let mut rows = [NO_ROW; 4096];
    let mut rack = ListRack::new(&mut rows);
    let first = RawNode::from(Node::Move(1));
    // 32 nodes: only the last is the root, and its windows are +1-.
    assert_eq!(rt; planted(12, 5, &[first; 32], &mut rack), Ok(1));
    assert_eq!(rt;
        planted(12, 5, &[first; 33], &mut rack),
        Err(Refusal::NodeCount)
    );
    assert_eq!(rt; planted(12, 5, &[], &mut rack), Err(Refusal::NodeCount));
    for (kind, a, b, field) in [
        (6, 0, 0, 2),
        (0, 1, 1, 3),
        (0, 0, 1, 4),
        (1, 0, 0, 3),
        (1, 13, 0, 3),
        (1, 12, 1, 4),
        (2, 3, 1, 3),
        (5, 1, 3, 4),
        (3, 0, 0, 3),
        (4, 1, 0, 4),
    ] {
        let table = [first, first, RawNode { kind, a, b }];
        assert_eq!(rt;
            planted(12, 5, &table, &mut rack),
            Err(Refusal::WrongNode { node: 3, field })
        );
    }
}
