// One search by key, for a lent slice of any record that tells its key.
#![tactic(auto)]

ghost use Rattle.std.specs.Prelude.{◌≡◌, ℕ, ◌<◌, ◌≤◌, length, IfOk, IfErr, MatchResult};
ghost use Rattle.search.specs.Places.{Ascending, StandsAt, BelongsAt};

/// A record that tells the number by which it is ordered and found.
pub trait Keyed {
    ghost key: { Self → ℕ };

    /// The record's number.
    fn tell_key(&self) -> u64
        ensures { result ≡ key self.now };
}

/// Where the record with this key stands, or where one would belong. Each turn halves what is left.
pub fn find<R: Keyed>(records: &[R], wanted: u64) -> Result<usize, usize>
    ensures inside { MatchResult result (λ i. i < length records.now) (λ i. i ≤ length records.now) }
    ensures found { IfOk result (λ i. StandsAt R.key records.now wanted i) }
    ensures missing { Ascending R.key records.now → IfErr result (λ i. BelongsAt R.key records.now wanted i) }
{
    // std's search asks one record more of seven, and with `match` on `cmp` planting takes a quarter more instructions.
    let mut low = 0;
    let mut high = records.len();
    while low < high {
        let middle = low + (high - low) / 2;
        let here = records[middle].tell_key();
        if here < wanted {
            low = middle + 1;
        } else if here > wanted {
            high = middle;
        } else {
            return Ok(middle);
        }
    }
    Err(low)
}
