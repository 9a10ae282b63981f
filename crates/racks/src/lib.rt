// Racks: stores of numbers at keys, over lent memory.
#![tactic(auto)]

ghost use Rattle.std.specs.Prelude.{◌≡◌, ◌<◌, ◌≤◌, ◌∷◌, true, is_ok, Err, MatchOption, MatchResult};
ghost use Rattle.terms.specs.declared.Refusal.TheVariants.{BeyondReach, NoRoom};
ghost use Rattle.racks.specs.Views.{View, Bounded, held_in, Smallest, NoneFrom, LacksRoom, after_write, after_empty, places_used};

mod lent;
mod walks;

use terms::Refusal;
pub use walks::{next_before, total};

/// Of a longer slice a rack uses only this many places.
pub const MOST_PLACES: usize = 1 << 26;

/// How many places a rack uses of a slice that has `len`.
pub fn places_used(len: usize) -> u32
    ensures { result ≡ places_used len }
{
    len.min(MOST_PLACES) as u32
}

/// A store of numbers at keys. What it means is its `view`.
/// Every call takes `&mut self`, since a question may rearrange a rack inside.
pub trait Rack {
    ghost view: { Self → View };

    /// Keys from here on are never held.
    fn reach(&mut self) -> u32
        ensures answer { result ≡ (view self.old).reach }
        ensures unaltered { view self.new ≡ view self.old };

    /// How many keys can be held at once.
    fn room(&mut self) -> u32
        ensures answer { result ≡ (view self.old).room }
        ensures unaltered { view self.new ≡ view self.old };

    /// How many keys are held.
    fn held(&mut self) -> u32
        ensures answer { result ≡ held_in (view self.old) }
        ensures unaltered { view self.new ≡ view self.old };

    /// The number at the key, 0 where it is not held.
    fn read(&mut self, key: u32) -> u32
        ensures answer { result ≡ (view self.old).number key }
        ensures unaltered { view self.new ≡ view self.old };

    /// The smallest held key that is not below `from`.
    fn next(&mut self, from: u32) -> Option<u32>
        ensures answer { MatchOption result (NoneFrom (view self.old).number from) (λ k. Smallest (view self.old).number from k) }
        ensures unaltered { view self.new ≡ view self.old };

    /// Puts the number at the key; 0 takes the key out.
    fn write(&mut self, key: u32, number: u32) -> Result<(), Refusal>
        ensures beyond_reach { (view self.old).reach ≤ key → result ≡ Err BeyondReach }
        ensures no_room { key < (view self.old).reach → LacksRoom (view self.old) key number → result ≡ Err NoRoom }
        ensures accepted { key < (view self.old).reach → (LacksRoom (view self.old) key number → ⊥) → is_ok result ≡ true }
        ensures after { MatchResult result (λ _. view self.new ≡ after_write (view self.old) key number) (λ _. view self.new ≡ view self.old) };

    /// Takes out every key.
    fn empty(&mut self)
        ensures { view self.new ≡ after_empty (view self.old) };

    ghost bounded: { (s : Self) → Bounded (view s) };
}
