// A rack over a lent slice of numbers, indexed by key.
#![tactic(auto)]

ghost use Rattle.std.specs.Prelude.{◌≡◌, MatchOption};
ghost use Rattle.racks.specs.Views.{NoneFrom, Smallest, one_if_held};
ghost use Rattle.table_rack.specs.Tables.{cell, IsTable, table_view, table_bounded, new_table};

use racks::{Rack, places_used};
use terms::Refusal;

/// The number at a key stands at that place of the slice, and 0 says that the key is not held.
#[derive(Drop)]
pub struct TableRack<'a> {
    cells: &'a mut [u32],
    // Kept, since each read and write asks for it.
    used: u32,
    held: u32,
    ghost table: { IsTable cells.now used held },
}

impl<'a> TableRack<'a> {
    /// Empties the places that it uses: at most the first 2^26 of the slice.
    pub fn new(cells: &'a mut [u32]) -> TableRack<'a>
        ensures fresh { table_view result.cells.ghost_name result.cells.now result.used ≡ new_table cells.entry.ghost_name cells.old }
        ensures slice { result.cells.ghost_name ≡ cells.entry.ghost_name }
    {
        let used = places_used(cells.len());
        cells[..used as usize].fill(0);
        TableRack {
            cells,
            used,
            held: 0,
        }
    }

    // The first place from `from` on where a key is held.
    fn first_held(&self, from: u32) -> Option<u32>
        ensures { MatchOption result (NoneFrom (cell self.now.cells.now self.now.used) from) (λ k. Smallest (cell self.now.cells.now self.now.used) from k) }
    {
        (from..self.used).find(|key| self.cells[*key as usize] != 0)
    }
}

// How many keys a number holds: one, or none if it is 0.
fn count_of(number: u32) -> u32
    ensures { result ≡ one_if_held number }
{
    u32::from(number != 0)
}

impl Rack for TableRack<'_> {
    ghost view = { λ s. table_view s.cells.ghost_name s.cells.now s.used };

    ghost bounded = { λ s. table_bounded s.cells.ghost_name s.cells.now s.used s.held s.table };

    fn reach(&mut self) -> u32 {
        self.used
    }

    // Every key below the reach can be held.
    fn room(&mut self) -> u32 {
        self.reach()
    }

    fn held(&mut self) -> u32 {
        self.held
    }

    fn read(&mut self, key: u32) -> u32 {
        if key < self.used {
            self.cells[key as usize]
        } else {
            0
        }
    }

    fn next(&mut self, from: u32) -> Option<u32> {
        self.first_held(from)
    }

    fn write(&mut self, key: u32, number: u32) -> Result<(), Refusal> {
        if key >= self.used {
            return Err(Refusal::BeyondReach);
        }
        let before = self.cells[key as usize];
        self.cells[key as usize] = number;
        self.held = self.held + count_of(number) - count_of(before);
        Ok(())
    }

    fn empty(&mut self) {
        self.cells[..self.used as usize].fill(0);
        self.held = 0;
    }
}
