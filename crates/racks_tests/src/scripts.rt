// Writes and removals in turn, at any rack of eight places, beside a plain model.
use crate::front::Front;
use crate::model::Model;
use list_rack::{ListRack, Row};
use racks::{Rack, total};
use std::process::Abort;
use std::test::Fail;
use table_rack::TableRack;

// Key and number of each write: new keys, other numbers, removals of held and of missing keys.
const SCRIPT: [(u32, u32); 14] = [
    (3, 5),
    (0, 1),
    (7, 9),
    (3, 0),
    (5, 2),
    (5, 7),
    (1, 4),
    (0, 0),
    (6, 0),
    (2, 8),
    (3, 6),
    (7, 0),
    (4, 3),
    (2, 4294967295),
];

fn same_as<R: Rack>(rt: &impl Abort, rack: &mut R, model: &Model) {
    for (key, number) in (0..8).zip(model.numbers) {
        assert_eq!(rt; rack.read(key), number);
        assert_eq!(rt; rack.next(key), model.next(key));
    }
    assert_eq!(rt; rack.next(8), None);
    assert_eq!(rt; rack.held() as usize, model.held());
    assert_eq!(rt; rack.room(), 8);
    assert_eq!(rt; total(rack), model.sum());
}

fn follows_script<R: Rack>(rt: &impl Abort, rack: &mut R) -> Result<(), Fail> {
    let mut model = Model::new();
    same_as(rt, rack, &model);
    for (key, number) in SCRIPT {
        rack.write(key, number)?;
        model.write(key, number);
        same_as(rt, rack, &model);
    }
    rack.empty();
    same_as(rt, rack, &Model::new());
    Ok(())
}

#[test]
fn table_follows_script(rt: HostRuntime) -> Result<(), Fail> {
    let mut cells = [7u32; 8];
    let mut rack = TableRack::new(&mut cells);
    follows_script(&rt, &mut rack)
}

#[test]
fn list_follows_script(rt: HostRuntime) -> Result<(), Fail> {
    let mut rows = [Row { key: 9, number: 9 }; 8];
    let mut rack = ListRack::new(&mut rows);
    follows_script(&rt, &mut rack)
}

// A lent rack is a rack too, and the rack below holds what was written through it.
#[test]
fn lent_rack_follows_script(rt: HostRuntime) -> Result<(), Fail> {
    let mut rows = [Row { key: 9, number: 9 }; 8];
    let mut rack = ListRack::new(&mut rows);
    follows_script(&rt, &mut &mut rack)?;
    let mut lent = &mut rack;
    lent.write(3, 5)?;
    assert_eq!(rt; rack.read(3), 5);
    Ok(())
}

// A rack in front of another is one too, and the rack below holds what was written through it.
#[test]
fn front_follows_script(rt: HostRuntime) -> Result<(), Fail> {
    let mut cells = [7u32; 8];
    follows_script(&rt, &mut Front::new(TableRack::new(&mut cells)))?;
    let mut rows = [Row { key: 9, number: 9 }; 8];
    let mut rack = ListRack::new(&mut rows);
    follows_script(&rt, &mut Front::new(&mut rack))?;
    let mut front = Front::new(&mut rack);
    front.write(3, 5)?;
    assert_eq!(rt; front.read(3), 5);
    assert_eq!(rt; front.read(3), 5);
    front.write(3, 6)?;
    assert_eq!(rt; front.read(3), 6);
    assert_eq!(rt; rack.read(3), 6);
    Ok(())
}
