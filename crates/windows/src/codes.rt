// The digits of items, the codes of words, and the way back.
ghost use Rattle.std.specs.Prelude.{◌≡◌, ◌^◌, ◌<◌, ◌≤◌, ℕ, drop, length, take, slice_index, MatchOption};
ghost use Rattle.terms.specs.Codes.{Item, Word as IsWord, base as the_base, digit as the_digit, item as the_item};
ghost use Rattle.windows.specs.Promises.{Coded, NoWordWith, WordWith};
ghost use Rattle.windows.specs.Values.{word_items};

use crate::alphabet::Alphabet;
use crate::marks::{END_MARK, START_MARK};
use crate::words::{MOST_ITEMS, Word};

impl Alphabet {
    /// B, the base in which a word's digits are read.
    pub fn base(&self) -> u32
        ensures { result ≡ the_base self.now.moves }
    {
        u32::from(self.moves) + 3
    }

    /// B to the power of k: every code lies below it.
    pub fn code_limit(&self) -> u32
        ensures value { result ≡ the_base self.now.moves ^ self.now.order }
        ensures bound { result ≤ 759375 }
    {
        self.base().pow(self.order as u32)
    }

    /// The digit of a move or a mark; nothing for any other byte.
    pub fn digit(&self, item: u8) -> Option<u8>
        ensures { MatchOption result (Item self.now.moves item → ⊥) (λ d. Item self.now.moves item × (d ≡ the_digit self.now.moves item)) }
    {
        match item {
            START_MARK => Some(self.moves + 1),
            END_MARK => Some(self.moves + 2),
            1.. if item <= self.moves => Some(item),
            _ => None,
        }
    }

    /// The code of a word of at most k items; nothing where these bytes are no such word.
    pub fn code(&self, word: &[u8]) -> Option<u32>
        ensures { MatchOption result (IsWord self.now.moves self.now.order word.now → ⊥) (Coded self.now.moves self.now.order word.now) }
    {
        if word.len() > self.order {
            return None;
        }
        let base = self.base();
        let mut code = 0;
        for item in word {
            let digit = self.digit(*item)?;
            code = code * base + u32::from(digit);
        }
        Some(code)
    }

    // The item that has this digit.
    fn item(&self, digit: u32) -> u8
        requires low { 1 ≤ digit }
        requires high { digit < the_base self.now.moves }
        ensures { result ≡ the_item self.now.moves digit }
    {
        let moves = u32::from(self.moves);
        if digit == moves + 1 {
            START_MARK
        } else if digit == moves + 2 {
            END_MARK
        } else {
            digit as u8
        }
    }

    /// The word of at most k items with this code; nothing where no word has it.
    pub fn word(&self, code: u32) -> Option<Word>
        ensures { MatchOption result (NoWordWith self.now.moves self.now.order code) (λ w. WordWith self.now.moves self.now.order code (word_items w)) }
    {
        if code == 0 {
            return Some(Word::empty());
        }
        let mut items = [0; MOST_ITEMS];
        let start = self.spell(code, self.order, &mut items)?;
        Some(Word::of(&items[start..self.order]))
    }

    // Writes the word of at most `end` items with this code so that it ends before `end`, and says where it starts;
    // nothing where no word has it.
    fn spell(&self, code: u32, end: usize, items: &mut [u8]) -> Option<usize>
        requires some { 0 < code }
        requires room { end ≤ length items.old }
        ensures word { MatchOption result (NoWordWith self.now.moves end code) (λ start. (start ≤ end) × WordWith self.now.moves end code (drop start (take end items.new))) }
        ensures kept { (i : ℕ) → end ≤ i → slice_index items.new i ≡ slice_index items.old i }
    {
        if end == 0 {
            return None;
        }
        let base = self.base();
        // The lowest digit is the last item's.
        let digit = code % base;
        if digit == 0 {
            return None;
        }
        let last = end - 1;
        items[last] = self.item(digit);
        let front = code / base;
        if front == 0 {
            return Some(last);
        }
        self.spell(front, last, items)
    }
}
