// The search answers as the standard one does, and asks few records.
use search::{Keyed, find};
use std::cell::Cell;

// Counts how often it is asked for its key.
#[derive(Drop)]
struct Probe {
    value: u64,
    asked: Cell<u32>,
}

impl Keyed for Probe {
    ghost key = { λ p. p.value };

    fn tell_key(&self) -> u64 {
        self.asked.set(self.asked.get().wrapping_add(1));
        self.value
    }
}

fn keyed(value: u64) -> Probe {
    Probe {
        value,
        asked: Cell::new(0),
    }
}

#[test]
fn finds_places_and_asks_few(rt: HostRuntime) {
    let records = [2, 3, 5, 8, 9, 11, 12].map(keyed);
    assert_eq!(rt; find(&records, 10), Err(5));
    let asked = records
        .iter()
        .fold(0u32, |sum, record| sum.wrapping_add(record.asked.get()));
    // Seven records are halved to three, one and none.
    assert_eq!(rt; asked, 3);
    assert_eq!(rt; find(&records, 1), Err(0));
    assert_eq!(rt; find(&records, 2), Ok(0));
    assert_eq!(rt; find(&records, 12), Ok(6));
    assert_eq!(rt; find(&records, 13), Err(7));
}
