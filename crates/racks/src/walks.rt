// What any rack can be asked for, whatever it is made of.
ghost use Rattle.std.specs.Prelude.{◌≡◌, ◌<◌, MatchOption};
ghost use Rattle.racks.specs.Views.{Smallest, NoneBetween, sum_below};

use crate::Rack;

/// The smallest held key that is not below `from` and is below `end`.
pub fn next_before<R: Rack>(rack: &mut R, from: u32, end: u32) -> Option<u32>
    ensures answer { MatchOption result (NoneBetween (R.view rack.old).number from end) (λ k. Smallest (R.view rack.old).number from k × (k < end)) }
    ensures unaltered { R.view rack.new ≡ R.view rack.old }
{
    rack.next(from).filter(|key| *key < end)
}

/// The sum of all numbers held.
pub fn total<R: Rack>(rack: &mut R) -> u64
    ensures answer { result ≡ sum_below (R.view rack.old).number (R.view rack.old).reach }
    ensures unaltered { R.view rack.new ≡ R.view rack.old }
{
    let mut sum = 0;
    let mut from = 0;
    while let Some(key) = rack.next(from) {
        sum += u64::from(rack.read(key));
        from = key + 1;
    }
    sum
}
