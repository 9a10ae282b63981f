// The worked examples: one list, and one statement that all of them hold.
#![tactic(auto)]

ghost use Rattle.std.specs.Prelude.{◌≡◌, length, All};
ghost use Rattle.examples.specs.Worked.{Holds, examples};

// How many worked examples there are; each of them holds.
pub fn proved_examples() -> usize
    ensures hold { All Holds examples }
    ensures count { result ≡ length examples }
{
    14
}
