// The items before and after the moves of a play; no move has these numbers.

/// The item before the first move.
pub const START_MARK: u8 = b'+';

/// The item after the last move.
pub const END_MARK: u8 = b'-';
