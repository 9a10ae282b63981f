// A rack over a lent slice of rows, of which the first are held, ascending by key.
#![tactic(auto)]

ghost use Rattle.std.specs.Prelude.{◌≡◌, ◌-◌, ◌<◌, [], ◌∷◌, ◌++◌, length, take, slice_index_or, Some, slice_get, slice_set};
ghost use Rattle.std.specs.List.{insert, remove};
ghost use Rattle.racks.specs.Views.{held_count, places_used};
ghost use Rattle.list_rack.specs.Rows.{Holds, Placed, row_key, no_row, number_in, list_reach, list_view, list_bounded, new_list};

use racks::{Rack, places_used};
use search::{Keyed, find};
use terms::Refusal;

/// A key and the number at it.
#[derive(Clone, Copy, PartialEq, Eq, Debug, Default)]
pub struct Row {
    pub key: u32,
    pub number: u32,
}

impl Keyed for Row {
    ghost key = { row_key };

    fn tell_key(&self) -> u64 {
        u64::from(self.key)
    }
}

/// The first `len` rows are held.
#[derive(Drop)]
pub struct ListRack<'a> {
    rows: &'a mut [Row],
    len: usize,
    ghost holds: { Holds rows.now len },
}

impl<'a> ListRack<'a> {
    /// Empty, since no row is held; it writes to none of the rows.
    pub fn new(rows: &'a mut [Row]) -> ListRack<'a>
        ensures fresh { list_view result.rows.ghost_name result.rows.now result.len ≡ new_list rows.entry.ghost_name rows.old }
        ensures slice { result.rows.ghost_name ≡ rows.entry.ghost_name }
        ensures same { result.rows.now ≡ rows.old }
    {
        ListRack { rows, len: 0 }
    }

    // Where the row of the key stands, or where one would belong.
    fn place(&self, key: u32) -> Result<usize, usize>
        ensures { Placed self.now.rows.now self.now.len key result }
    {
        // Keys are mostly written in ascending order.
        if self.len == 0 || self.rows[self.len - 1].key < key {
            return Err(self.len);
        }
        find(&self.rows[..self.len], u64::from(key))
    }

    // The held row at the place.
    fn row(&self, place: usize) -> Row
        requires { place < self.now.len }
        ensures { slice_get self.now.rows.now place ≡ Some result }
    {
        row_at(self.rows, place)
    }

    // How many rows are held, which is how many keys are.
    fn held_rows(&self) -> u32
        ensures counted { result ≡ held_count (number_in (take self.now.len self.now.rows.now)) list_reach }
        ensures len { result ≡ self.now.len }
    {
        self.len as u32
    }

    // How many rows can be held: at most the first 2^26 of the slice.
    fn places(&self) -> u32
        ensures { result ≡ places_used (length self.now.rows.now) }
    {
        places_used(self.rows.len())
    }
}

// The row at the place.
fn row_at(rows: &[Row], place: usize) -> Row
    requires { place < length rows.now }
    ensures { slice_get rows.now place ≡ Some result }
{
    rows[place]
}

// Puts the row in the place of the one that stands there.
fn replace(rows: &mut [Row], place: usize, row: Row)
    requires { place < length rows.old }
    ensures { rows.new ≡ slice_set rows.old place row }
{
    rows[place] = row;
}

// Puts the row in at the place, and moves those from there on one place up; the last one is lost.
fn insert(rows: &mut [Row], place: usize, row: Row)
    requires { place < length rows.old }
    ensures { rows.new ≡ insert (take (length rows.old - 1) rows.old) place row }
{
    rows[place..].rotate_right(1);
    rows[place] = row;
}

// Takes out the row at the place, and moves those after it one place down; it comes to stand last.
fn remove(rows: &mut [Row], place: usize)
    requires { place < length rows.old }
    ensures { rows.new ≡ remove rows.old place ++ slice_index_or rows.old place no_row ∷ [] }
{
    rows[place..].rotate_left(1);
}

impl Rack for ListRack<'_> {
    ghost view = { λ s. list_view s.rows.ghost_name s.rows.now s.len };

    ghost bounded = { λ s. list_bounded s.rows.ghost_name s.rows.now s.len s.holds };

    fn reach(&mut self) -> u32 {
        u32::MAX
    }

    fn room(&mut self) -> u32 {
        self.places()
    }

    fn held(&mut self) -> u32 {
        self.held_rows()
    }

    fn read(&mut self, key: u32) -> u32 {
        match self.place(key) {
            Ok(place) => self.row(place).number,
            Err(_) => 0,
        }
    }

    fn next(&mut self, from: u32) -> Option<u32> {
        let (Ok(place) | Err(place)) = self.place(from);
        if place < self.len {
            Some(self.row(place).key)
        } else {
            None
        }
    }

    fn write(&mut self, key: u32, number: u32) -> Result<(), Refusal> {
        if key == u32::MAX {
            return Err(Refusal::BeyondReach);
        }
        let row = Row { key, number };
        match self.place(key) {
            Ok(place) if number == 0 => {
                remove(&mut self.rows[..self.len], place);
                self.len -= 1;
            }
            Ok(place) => replace(self.rows, place, row),
            Err(place) if number != 0 => {
                if self.held_rows() == self.places() {
                    return Err(Refusal::NoRoom);
                }
                insert(&mut self.rows[..=self.len], place, row);
                self.len += 1;
            }
            Err(_) => {}
        }
        Ok(())
    }

    fn empty(&mut self) {
        self.len = 0;
    }
}
