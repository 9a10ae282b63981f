// Lists in fixed memory.
#![tactic(auto)]

ghost use Rattle.std.specs.Prelude.{◌≡◌, ◌≤◌, length};

use std::alloc::AllocError;
use std::fmt;

/// A list of at most N items, held in place: what does not fit is left out.
// The first `len` of the items are the list, and the others are fillers.
#[derive(Copy, Drop)]
pub struct FixedVec<T, const N: usize> {
    items: [T; N],
    len: usize,
    ghost whole: { length items ≡ N },
    ghost short: { len ≤ N },
}

impl<T: Copy, const N: usize> Clone for FixedVec<T, N> {
    ghost use Rattle.std.specs.Prelude.{⊤};

    ghost is_clone = { λ a b. a ≡ b };

    ghost is_infallible = { λ _. ⊤ };

    fn clone(&self) -> Result<Self, AllocError> {
        Ok(*self)
    }
}

// Two lists are equal where their items are; the fillers tell nothing.
impl<T: PartialEq, const N: usize> PartialEq for FixedVec<T, N> {
    ghost use Rattle.std.specs.Cmp.{on_per};
    ghost use Rattle.std.specs.Cmp.Lexicographic.{pointwise, lists_per};
    ghost use Rattle.fixed_vec.specs.Lists.{list_of};

    ghost eq = { λ v w. pointwise T.eq (list_of v) (list_of w) };

    ghost laws = { on_per (λ v. list_of v) (lists_per T.laws) };

    fn eq(&self, other: &Self) -> bool {
        self.as_slice() == other.as_slice()
    }
}

impl<T: Eq, const N: usize> Eq for FixedVec<T, N> {
    ghost use Rattle.std.specs.Cmp.{on_equiv};
    ghost use Rattle.std.specs.Cmp.Lexicographic.{lists_equiv};
    ghost use Rattle.fixed_vec.specs.Lists.{list_of};

    ghost laws = { on_equiv (λ v. list_of v) (lists_equiv T.Eq.laws) };
}

// As a slice of its items.
impl<T: fmt::Debug, const N: usize> fmt::Debug for FixedVec<T, N> {
    ghost use Rattle.std.specs.Fmt.{debug_list};
    ghost use Rattle.fixed_vec.specs.Lists.{list_of};

    ghost debug_output = { λ v. debug_list T.debug_output (list_of v) };

    fn fmt<W: fmt::Write>(&self, f: &mut fmt::Formatter<W>) -> fmt::Result {
        fmt::Debug::fmt(&self.as_slice(), f)
    }
}

impl<T: Copy + Default, const N: usize> Default for FixedVec<T, N> {
    ghost use Rattle.std.specs.Prelude.{[]};
    ghost use Rattle.fixed_vec.specs.Lists.{list_of};

    ghost is_default = { λ v. list_of v ≡ [] };

    fn default() -> Self {
        Self::new()
    }
}

impl<T: Copy + Default, const N: usize> FixedVec<T, N> {
    ghost use Rattle.std.specs.Prelude.{take, [], ◌∷◌, ◌++◌};
    ghost use Rattle.fixed_vec.specs.Lists.{list_of};

    /// The list without items.
    pub fn new() -> Self
        ensures { list_of result ≡ [] }
    {
        FixedVec {
            items: [T::default(); N],
            len: 0,
        }
    }

    /// The list of the first N of these items.
    pub fn from_slice(items: &[T]) -> Self
        ensures { list_of result ≡ take N items.now }
    {
        let n = items.len().min(N);
        let mut all = [T::default(); N];
        all[..n].copy_from_slice(&items[..n]);
        FixedVec { items: all, len: n }
    }

    /// Adds the item at the end.
    pub fn push(&mut self, item: T)
        ensures { list_of self.new ≡ take N (list_of self.old ++ (item ∷ [])) }
    {
        let place = self.len;
        if place < N {
            self.items[place] = item;
            self.len = place + 1;
        }
    }

    /// Adds these items at the end, in order.
    pub fn extend_from_slice(&mut self, items: &[T])
        ensures { list_of self.new ≡ take N (list_of self.old ++ items.now) }
    {
        let n = items.len().min(N - self.len);
        let end = self.len + n;
        let all = &mut self.items[..];
        all[self.len..end].copy_from_slice(&items[..n]);
        self.len = end;
    }
}

impl<T, const N: usize> FixedVec<T, N> {
    ghost use Rattle.fixed_vec.specs.Lists.{list_of};

    /// The items, in order.
    pub fn as_slice(&self) -> &[T]
        ensures { result.now ≡ list_of self.now }
    {
        &self.items[..self.len]
    }
}
