// Words: making them and reading them.
ghost use Rattle.std.specs.Prelude.{◌≡◌, ◌<◌, [], ◌∷◌, ◌++◌, length, take, MatchOption};
ghost use Rattle.windows.specs.Values.{word_items};

use crate::marks::{END_MARK, START_MARK};
use fixed_vec::FixedVec;
use std::fmt;

/// How many items a word has at most.
pub const MOST_ITEMS: usize = 5;

/// A word: at most `MOST_ITEMS` items, each a move or a mark. A move is a byte with its number.
#[derive(Clone, Copy, PartialEq, Eq, Debug, Default)]
pub struct Word {
    items: FixedVec<u8, MOST_ITEMS>,
}

/// A window: a word that some marked list has as a run of k items, or as the whole of it.
pub type Window = Word;

impl Word {
    /// The word without items.
    pub fn empty() -> Word
        ensures { word_items result ≡ [] }
    {
        Word::default()
    }

    // The word with the first five of these items.
    pub(crate) fn of(items: &[u8]) -> Word
        ensures { word_items result ≡ take 5 items.now }
    {
        Word {
            items: FixedVec::from_slice(items),
        }
    }

    /// The word with these items; nothing where there are more than five.
    pub fn new(items: &[u8]) -> Option<Word>
        ensures { MatchOption result (5 < length items.now) (λ w. word_items w ≡ items.now) }
    {
        if items.len() > MOST_ITEMS {
            return None;
        }
        Some(Word::of(items))
    }

    /// This word with one item more at its end; nothing where it has five already.
    pub fn pushed(&self, item: u8) -> Option<Word>
        ensures { MatchOption result (length (word_items self.now) ≡ 5) (λ w. word_items w ≡ word_items self.now ++ (item ∷ [])) }
    {
        if self.items().len() >= MOST_ITEMS {
            return None;
        }
        let mut word = *self;
        word.items.push(item);
        Some(word)
    }

    /// The items, in order.
    pub fn items(&self) -> &[u8]
        ensures { result.now ≡ word_items self.now }
    {
        self.items.as_slice()
    }
}

/// As a person reads it: `+12`, `12-`. A move above 9 stands in brackets, `+(12)-`.
impl fmt::Display for Word {
    fn fmt<W: fmt::Write>(&self, f: &mut fmt::Formatter<W>) -> fmt::Result {
        for item in self.items() {
            match *item {
                START_MARK => f.write_str("+")?,
                END_MARK => f.write_str("-")?,
                1..=9 => write!(f, "{item}")?,
                _ => write!(f, "({item})")?,
            }
        }
        Ok(())
    }
}
