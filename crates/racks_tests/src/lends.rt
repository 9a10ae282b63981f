// What a lent slice holds once the rack over it is gone.
ghost use Rattle.std.specs.Prelude.{◌≡◌, ◌<◌, ◌≤◌, length, true, is_ok, Err, MatchResult};
ghost use Rattle.terms.specs.declared.Refusal.TheVariants.{BeyondReach, NoRoom};
ghost use Rattle.list_rack.specs.Rows.{list_reach};
ghost use Rattle.racks.specs.Views.{places_used, written};
ghost use Rattle.racks_tests.specs.Lends.{CellsLeft, RowsLeft};

use list_rack::{ListRack, Row};
use racks::Rack;
use table_rack::TableRack;
use terms::Refusal;

/// Writes one number to a table rack over the slice.
pub fn write_table(cells: &mut [u32], key: u32, number: u32) -> Result<(), Refusal>
    ensures refused { places_used (length cells.old) ≤ key → result ≡ Err BeyondReach }
    ensures accepted { key < places_used (length cells.old) → is_ok result ≡ true }
    ensures left { MatchResult result (λ _. CellsLeft cells.old cells.new (written (λ _. 0) key number)) (λ _. CellsLeft cells.old cells.new (λ _. 0)) }
{
    let mut rack = TableRack::new(cells);
    rack.write(key, number)
}

/// Writes one number to a list rack over the slice.
pub fn write_list(rows: &mut [Row], key: u32, number: u32) -> Result<(), Refusal>
    ensures refused { list_reach ≤ key → result ≡ Err BeyondReach }
    ensures no_room { key < list_reach → length rows.old ≡ 0 → 0 < number → result ≡ Err NoRoom }
    ensures accepted { key < list_reach → 0 < length rows.old → is_ok result ≡ true }
    ensures no_number { key < list_reach → number ≡ 0 → is_ok result ≡ true }
    ensures left { MatchResult result (λ _. RowsLeft rows.old rows.new (written (λ _. 0) key number)) (λ _. RowsLeft rows.old rows.new (λ _. 0)) }
{
    let mut rack = ListRack::new(rows);
    rack.write(key, number)
}
