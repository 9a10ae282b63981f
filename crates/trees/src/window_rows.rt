// The rows of the playable windows, by the standings of their moves at the root.
ghost use Rattle.std.specs.Prelude.{◌≡◌, ◌+◌, ◌*◌, ◌^◌, ◌<◌, ◌≤◌, ◌↔◌, ◌∷◌, length, IsTrue, IsSome, IfSome, MatchOption};
ghost use Rattle.terms.specs.Codes.{base};
ghost use Rattle.terms.specs.Words.{start_mark};
ghost use Rattle.row_laws.specs.Windowed.{with_marks, Fits, turn};
ghost use Rattle.windows.specs.Values.{word_items};
ghost use Rattle.trees.specs.Marks.{marks_number};
ghost use Rattle.trees.specs.Planting.{EndsWith, SameMemory, CodeOfMoves, Finished, Windows, NextWindow, Complete};
ghost use Rattle.trees.specs.Trees.{For, tree_nodes};

use crate::tree::Tree;
use racks::{Rack, next_before};
use terms::Refusal;
use windows::{END_MARK, START_MARK, Word};

// The marks of a window.
#[derive(Clone, Copy, PartialEq, Eq, Debug)]
enum Marks {
    Neither,
    Start,
    End,
    Both,
}

impl Marks {
    // The bit of a standing that says whether moves with these marks are playable.
    fn bit(self) -> u32
        ensures { result ≡ 2 ^ marks_number self }
    {
        match self {
            Marks::Neither => 1,
            Marks::Start => 2,
            Marks::End => 4,
            Marks::Both => 8,
        }
    }

    // Whether so many moves make a window with these marks.
    fn fit(self, order: usize, len: usize) -> bool
        requires { len ≤ 5 }
        ensures { IsTrue result ↔ Fits order (marks_number self) len }
    {
        match self {
            Marks::Neither => len == order,
            Marks::Start | Marks::End => len + 1 == order,
            Marks::Both => len + 2 <= order,
        }
    }
}

// The start mark with the items behind it; nothing where there are more than four.
fn started(items: &[u8]) -> Option<Word>
    ensures { MatchOption result (4 < length items.now) (λ w. word_items w ≡ start_mark ∷ items.now) }
{
    let mut word = Word::new(&[START_MARK])?;
    for item in items {
        word = word.pushed(*item)?;
    }
    Some(word)
}

impl Tree {
    // The window of these moves and marks; nothing where they make none.
    fn window(&self, moves: Word, marks: Marks) -> Option<Word>
        ensures fits { IsSome result ↔ Fits self.now.alphabet.order (marks_number marks) (length (word_items moves)) }
        ensures marked { IfSome result (λ w. word_items w ≡ with_marks (marks_number marks) (word_items moves)) }
    {
        if !marks.fit(self.alphabet.order(), moves.items().len()) {
            return None;
        }
        match marks {
            Marks::Neither => Some(moves),
            Marks::Start => started(moves.items()),
            Marks::End => moves.pushed(END_MARK),
            Marks::Both => started(moves.items())?.pushed(END_MARK),
        }
    }

    // Puts in the row of the window of this word and these marks, if the word's standing at the root says that the
    // window is playable.
    fn put_window<R: Rack>(
        &self,
        rack: &mut R,
        word: Word,
        standing: u32,
        marks: Marks,
    ) -> Result<(), Refusal>
        requires { For self.now NextWindow (word_items word) standing (marks_number marks) (R.view rack.old) }
        ensures rows { EndsWith self.now (For self.now Windows (turn self.now.alphabet.moves (marks_number marks) (word_items word) + 1)) (R.view rack.new) result }
        ensures memory { SameMemory (R.view rack.old) (R.view rack.new) }
    {
        if standing & marks.bit() == 0 {
            return Ok(());
        }
        let Some(window) = self.window(word, marks) else {
            return Ok(());
        };
        let code = self.alphabet.code(window.items()).unwrap();
        rack.write(code, 1)
    }

    // Where the rows of the root begin.
    fn root_start(&self) -> u32
        ensures bound { result ≤ 25059375 }
        ensures value { result ≡ length (tree_nodes self.now) * base self.now.alphabet.moves ^ self.now.alphabet.order }
    {
        self.start(self.nodes().len())
    }

    // Puts in the windows around the word with this code.
    fn windows_around<R: Rack>(&self, rack: &mut R, code: u32) -> Result<(), Refusal>
        requires word { CodeOfMoves self.now.alphabet.moves self.now.alphabet.order code }
        requires rows { For self.now Windows (4 * code) (R.view rack.old) }
        ensures rows { EndsWith self.now (For self.now Windows (4 * (code + 1))) (R.view rack.new) result }
        ensures memory { SameMemory (R.view rack.old) (R.view rack.new) }
    {
        let word = self.word(code);
        let standing = rack.read(self.root_start() + code);
        for marks in [Marks::Neither, Marks::Start, Marks::End, Marks::Both] {
            self.put_window(rack, word, standing, marks)?;
        }
        Ok(())
    }

    // Puts in all windows, by a walk over the root's rows.
    pub(crate) fn put_windows<R: Rack>(&self, rack: &mut R) -> Result<(), Refusal>
        requires { For self.now Finished (length (tree_nodes self.now)) (R.view rack.old) }
        ensures rows { EndsWith self.now (For self.now Complete) (R.view rack.new) result }
        ensures memory { SameMemory (R.view rack.old) (R.view rack.new) }
    {
        let start = self.root_start();
        let end = start + self.alphabet.code_limit();
        let mut from = 0;
        while let Some(key) = next_before(rack, start + from, end) {
            let code = key - start;
            self.windows_around(rack, code)?;
            from = code + 1;
        }
        Ok(())
    }
}
