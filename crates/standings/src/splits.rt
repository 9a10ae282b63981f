// Splitting a word in two by a mask.
ghost use Rattle.std.specs.Prelude.{◌≡◌, ◌≤◌, length};
ghost use Rattle.fixed_vec.specs.Lists.{list_of};
ghost use Rattle.tree_laws.specs.Selections.{picked, left_out};

use fixed_vec::FixedVec;
use windows::MOST_ITEMS;

// The items whose bits the mask has, the lowest for the first item, and the others.
pub(crate) fn split(mask: u32, word: &[u8]) -> (FixedVec<u8, MOST_ITEMS>, FixedVec<u8, MOST_ITEMS>)
    requires { length word.now ≤ 5 }
    ensures first { list_of result.0 ≡ picked mask word.now }
    ensures second { list_of result.1 ≡ left_out mask word.now }
{
    let mut inside = FixedVec::new();
    let mut outside = FixedVec::new();
    for (i, item) in word.iter().enumerate() {
        if (mask >> i) & 1 == 1 {
            inside.push(*item);
        } else {
            outside.push(*item);
        }
    }
    (inside, outside)
}
