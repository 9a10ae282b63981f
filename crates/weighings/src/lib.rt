// Weighings: what a window weighs.
#![tactic(auto)]

ghost use Rattle.std.specs.Prelude.{◌≡◌, ℕ, List, IfSome, MatchOption};
ghost use Rattle.terms.specs.Words.{Move};
ghost use Rattle.weighings.specs.Weights.{InRange, move_weight, dearest, IsDearest};
ghost use Rattle.weighings.specs.Choices.{either_weight};
ghost use Rattle.weighings.specs.Moves.{dearest_in_range, one_in_range};
ghost use Rattle.weighings.specs.declared.Either.TheVariants.{Left, Right};

/// Answers a weight for a window, and for any other list of bytes too.
pub trait Weighing {
    ghost weight: { Self → List ℕ → ℕ };

    /// The weight of this window.
    fn weigh(&self, window: &[u8]) -> u32
        ensures { result ≡ weight self.now window.now };

    ghost range: { (w : Self) (window : List ℕ) → InRange (weight w window) };
}

/// Every window weighs 1.
#[derive(Clone, Copy, PartialEq, Eq, Debug, Default)]
pub struct Flat;

impl Weighing for Flat {
    ghost weight = { λ _ _. 1 };

    ghost range = { λ w window. one_in_range };

    fn weigh(&self, _window: &[u8]) -> u32 {
        1
    }
}

/// A window weighs what its dearest move does.
#[derive(Clone, Copy, PartialEq, Eq, Debug, Default)]
pub struct Dearest;

impl Weighing for Dearest {
    ghost weight = { λ _ window. dearest window };

    ghost range = { λ w window. dearest_in_range window };

    fn weigh(&self, window: &[u8]) -> u32 {
        dearest_weight(window)
    }
}

const MOVE_WEIGHTS: [u32; 12] = [1, 1, 1, 1, 2, 2, 2, 2, 5, 5, 5, 10];

/// The weight of a move; a mark, or any byte that is no move, has none.
pub fn weight_of(item: u8) -> Option<u32>
    ensures value { MatchOption result (Move 12 item → ⊥) (λ w. Move 12 item × (w ≡ move_weight item)) }
    ensures range { IfSome result (λ w. InRange w) }
{
    match item {
        1..=12 => Some(MOVE_WEIGHTS[usize::from(item) - 1]),
        _ => None,
    }
}

/// The largest weight among the moves of the window, 1 where it has none.
pub fn dearest_weight(window: &[u8]) -> u32
    ensures value { result ≡ dearest window.now }
    ensures law { IsDearest window.now result }
{
    window
        .iter()
        .filter_map(|item| weight_of(*item))
        .max()
        .unwrap_or(1)
}

/// A weighing of either of two types, so that both can stand in one list.
// Not the kit's `either::Either`: the library rests on no crate of the kit but std.
#[derive(Clone, Copy, PartialEq, Eq, Debug)]
pub enum Either<L, R> {
    /// A weighing of the first type.
    Left(L),
    /// A weighing of the second type.
    Right(R),
}

impl<L: Weighing, R: Weighing> Weighing for Either<L, R> {
    ghost weight = { either_weight L.Weighing.weight R.Weighing.weight };

    ghost range = { elim [
      | Left x ↦ λ window. L.Weighing.range x window
      | Right y ↦ λ window. R.Weighing.range y window
    ] };

    fn weigh(&self, window: &[u8]) -> u32 {
        match self {
            Either::Left(weighing) => weighing.weigh(window),
            Either::Right(weighing) => weighing.weigh(window),
        }
    }
}

#[cfg(test)]
mod tests {
    use super::*;

    #[test]
    fn dearest_of_windows(rt: HostRuntime) {
        assert_eq!(rt; Dearest.weigh(&[43, 1, 5, 45]), 2);
        assert_eq!(rt; Dearest.weigh(&[9, 12, 4]), 10);
        assert_eq!(rt; Dearest.weigh(&[11, 8]), 5);
        assert_eq!(rt; Dearest.weigh(&[43, 45]), 1);
        assert_eq!(rt; Dearest.weigh(&[]), 1);
        assert_eq!(rt; Dearest.weigh(&[0, 13, 255, 3]), 1);
    }

    #[test]
    fn two_in_one_list(rt: HostRuntime) {
        let weighings = [Either::Left(Flat), Either::Right(Dearest)];
        let weights = weighings.iter().map(|weighing| weighing.weigh(&[43, 12]));
        assert_eq!(rt; weights.sum::<u32>(), 11);
    }
}
