// Refusals, full racks, the first and the last keys, and empty slices.
use list_rack::{ListRack, Row};
use racks::Rack;
use std::process::Abort;
use table_rack::TableRack;
use terms::Refusal::{BeyondReach, NoRoom};

fn table_of_three<R: Rack>(rt: &impl Abort, rack: &mut R) {
    assert_eq!(rt; rack.reach(), 3);
    assert_eq!(rt; rack.room(), 3);
    assert_eq!(rt; rack.held(), 0);
    assert_eq!(rt; rack.write(2, 8), Ok(()));
    assert_eq!(rt; rack.write(3, 8), Err(BeyondReach));
    assert_eq!(rt; BeyondReach.number(), 1);
    assert_eq!(rt; rack.write(3, 0), Err(BeyondReach));
    assert_eq!(rt; rack.write(1, 0), Ok(()));
    assert_eq!(rt; rack.write(0, 4), Ok(()));
    assert_eq!(rt; rack.next(1), Some(2));
    assert_eq!(rt; rack.next(3), None);
    assert_eq!(rt; rack.read(4294967295), 0);
    assert_eq!(rt; rack.held(), 2);
}

fn list_of_two<R: Rack>(rt: &impl Abort, rack: &mut R) {
    assert_eq!(rt; rack.reach(), 4294967295);
    assert_eq!(rt; rack.room(), 2);
    assert_eq!(rt; rack.write(4294967295, 1), Err(BeyondReach));
    assert_eq!(rt; rack.write(4294967294, 1), Ok(()));
    assert_eq!(rt; rack.write(0, 2), Ok(()));
    assert_eq!(rt; rack.write(9, 3), Err(NoRoom));
    assert_eq!(rt; NoRoom.number(), 2);
    assert_eq!(rt; rack.write(9, 0), Ok(()));
    assert_eq!(rt; rack.write(0, 5), Ok(()));
    assert_eq!(rt; rack.next(0), Some(0));
    assert_eq!(rt; rack.next(1), Some(4294967294));
    assert_eq!(rt; rack.next(4294967295), None);
    assert_eq!(rt; rack.write(4294967294, 0), Ok(()));
    assert_eq!(rt; rack.write(9, 3), Ok(()));
    assert_eq!(rt; rack.held(), 2);
}

fn empty_table<R: Rack>(rt: &impl Abort, rack: &mut R) {
    assert_eq!(rt; rack.reach(), 0);
    assert_eq!(rt; rack.room(), 0);
    assert_eq!(rt; rack.write(0, 1), Err(BeyondReach));
    assert_eq!(rt; rack.next(0), None);
}

fn empty_list<R: Rack>(rt: &impl Abort, rack: &mut R) {
    assert_eq!(rt; rack.room(), 0);
    assert_eq!(rt; rack.write(0, 1), Err(NoRoom));
    assert_eq!(rt; rack.write(0, 0), Ok(()));
    assert_eq!(rt; rack.held(), 0);
}

#[test]
fn table_edges(rt: HostRuntime) {
    let mut cells = [1u32, 2, 3];
    let mut rack = TableRack::new(&mut cells);
    table_of_three(&rt, &mut rack);
    assert_eq!(rt; cells, [4, 0, 8]);
}

#[test]
fn list_edges(rt: HostRuntime) {
    let mut rows = [Row::default(); 2];
    let mut rack = ListRack::new(&mut rows);
    list_of_two(&rt, &mut rack);
    assert_eq!(rt;
        rows,
        [Row { key: 0, number: 5 }, Row { key: 9, number: 3 }]
    );
}

#[test]
fn empty_slices(rt: HostRuntime) {
    let mut cells = [0u32; 0];
    let mut table = TableRack::new(&mut cells);
    empty_table(&rt, &mut table);
    let mut rows = [Row::default(); 0];
    let mut list = ListRack::new(&mut rows);
    empty_list(&rt, &mut list);
}
