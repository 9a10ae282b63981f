// The rows of the nodes: for each node, those of the words that some route contains, in the order of their codes.
ghost use Rattle.std.specs.Prelude.{◌≡◌, ◌+◌, ◌*◌, ◌^◌, ◌<◌, ◌≤◌, length};
ghost use Rattle.terms.specs.Codes.{base, code as the_code};
ghost use Rattle.terms.specs.Words.{Moves};
ghost use Rattle.windows.specs.Values.{word_items};
ghost use Rattle.trees.specs.Planting.{EndsWith, SameMemory, CodeOfMoves, Finished, Underway, NextWord};
ghost use Rattle.trees.specs.Trees.{At, For, tree_nodes};

use crate::tree::{Tree, TreeNode};
use racks::{Rack, next_before};
use standings::{row, standing};
use terms::Refusal;
use windows::Word;

impl TreeNode<'_> {
    // Puts in the row of the word.
    fn write_row<R: Rack>(&self, rack: &mut R, word: &[u8]) -> Result<(), Refusal>
        requires { At self.now NextWord word.now (R.view rack.old) }
        ensures rows { EndsWith self.now.tree.now (At self.now Underway (the_code self.now.tree.now.alphabet.moves word.now + 1)) (R.view rack.new) result }
        ensures memory { SameMemory (R.view rack.old) (R.view rack.new) }
    {
        let number = standing(
            &self.tree.alphabet,
            self.tree.nodes()[self.before],
            rack,
            word,
        );
        let code = self.tree.alphabet.code(word).unwrap();
        rack.write(self.tree.start(self.before + 1) + code, number)
    }

    // Puts in the row of the word, if its tail has one: where a route contains a word, it contains the word's tail.
    fn write_if_tail_has_row<R: Rack>(&self, rack: &mut R, word: &[u8]) -> Result<(), Refusal>
        requires some { 0 < length word.now }
        requires next { At self.now NextWord word.now (R.view rack.old) }
        ensures rows { EndsWith self.now.tree.now (At self.now Underway (the_code self.now.tree.now.alphabet.moves word.now + 1)) (R.view rack.new) result }
        ensures memory { SameMemory (R.view rack.old) (R.view rack.new) }
    {
        if row(&self.tree.alphabet, rack, self.before as u8 + 1, &word[1..]) == 0 {
            return Ok(());
        }
        self.write_row(rack, word)
    }

    // Tries every move behind the word with this code, which has fewer than k moves.
    fn extend<R: Rack>(&self, rack: &mut R, parent: u32) -> Result<(), Refusal>
        requires word { CodeOfMoves self.now.tree.now.alphabet.moves self.now.tree.now.alphabet.order parent }
        requires shorter { parent * base self.now.tree.now.alphabet.moves < base self.now.tree.now.alphabet.moves ^ self.now.tree.now.alphabet.order }
        requires rows { At self.now Underway (parent * base self.now.tree.now.alphabet.moves + 1) (R.view rack.old) }
        ensures rows { EndsWith self.now.tree.now (At self.now Underway ((parent + 1) * base self.now.tree.now.alphabet.moves + 1)) (R.view rack.new) result }
        ensures memory { SameMemory (R.view rack.old) (R.view rack.new) }
    {
        let word = self.tree.word(parent);
        for x in 1..=self.tree.alphabet.moves() {
            let longer = word.pushed(x).unwrap();
            self.write_if_tail_has_row(rack, longer.items())?;
        }
        Ok(())
    }

    // Puts in the rows of the longer words. Each is found behind a shorter one, so a walk over the node's own rows
    // of fewer than k moves finds them all, in the order of their keys.
    fn write_longer<R: Rack>(&self, rack: &mut R) -> Result<(), Refusal>
        requires { At self.now Underway 1 (R.view rack.old) }
        ensures rows { EndsWith self.now.tree.now (For self.now.tree.now Finished (self.now.before + 1)) (R.view rack.new) result }
        ensures memory { SameMemory (R.view rack.old) (R.view rack.new) }
    {
        let start = self.tree.start(self.before + 1);
        let end = start + self.tree.alphabet.code_limit() / self.tree.alphabet.base();
        let mut from = 0;
        while let Some(key) = next_before(rack, start + from, end) {
            let code = key - start;
            self.extend(rack, code)?;
            from = code + 1;
        }
        Ok(())
    }

    // Puts in the rows of the node, that of the empty word first.
    fn write<R: Rack>(&self, rack: &mut R) -> Result<(), Refusal>
        requires { At self.now Finished (R.view rack.old) }
        ensures rows { EndsWith self.now.tree.now (For self.now.tree.now Finished (self.now.before + 1)) (R.view rack.new) result }
        ensures memory { SameMemory (R.view rack.old) (R.view rack.new) }
    {
        self.write_row(rack, &[])?;
        self.write_longer(rack)
    }
}

impl Tree {
    // Where the rows of the node with this number begin, or those of all nodes end.
    pub(crate) fn start(&self, node: usize) -> u32
        requires { node ≤ 33 }
        ensures bound { result ≤ 25059375 }
        ensures value { result ≡ node * base self.now.alphabet.moves ^ self.now.alphabet.order }
    {
        node as u32 * self.alphabet.code_limit()
    }

    // The word of moves with this code.
    pub(crate) fn word(&self, code: u32) -> Word
        requires { CodeOfMoves self.now.alphabet.moves self.now.alphabet.order code }
        ensures moves { Moves self.now.alphabet.moves (word_items result) }
        ensures short { length (word_items result) ≤ self.now.alphabet.order }
        ensures code { the_code self.now.alphabet.moves (word_items result) ≡ code }
    {
        self.alphabet.word(code).unwrap()
    }

    // Puts in the rows of all nodes, children before their parents.
    pub(crate) fn write_nodes<R: Rack>(&self, rack: &mut R) -> Result<(), Refusal>
        requires { For self.now Finished 0 (R.view rack.old) }
        ensures rows { EndsWith self.now (For self.now Finished (length (tree_nodes self.now))) (R.view rack.new) result }
        ensures memory { SameMemory (R.view rack.old) (R.view rack.new) }
    {
        for before in 0..self.nodes().len() {
            TreeNode { tree: self, before }.write(rack)?;
        }
        Ok(())
    }
}
