// A route of the first child, then any number of times one of the second and one of the first.
ghost use Rattle.std.specs.Prelude.{◌≡◌, ◌+◌, ◌≤◌, length, if◌then◌else◌};
ghost use Rattle.tree_laws.specs.Boundaries.{next_a, next_b};
ghost use Rattle.tree_laws.specs.Computed.{has, ors, start_bit, piece_bit, state_bit, rest_bits};
ghost use Rattle.tree_laws.specs.Computed.{run_standing, loop_standing};
ghost use Rattle.standings.specs.Children.{by_rows, Unaltered};
ghost use Rattle.standings.specs.Loops.{columns, in_middle};
ghost use Rattle.standings.specs.Rows.{ShortMoves};

use crate::children::Children;
use crate::rows::{BEGINS, CONTAINED, ENDS, WHOLE};
use fixed_vec::FixedVec;
use racks::Rack;
use windows::MOST_ITEMS;

// One state for each position in a word: before each item, and behind the last.
const MOST_STATES: usize = MOST_ITEMS + 1;

// Where in the loop a word begins.
#[derive(Clone, Copy, PartialEq, Eq, Debug)]
pub(crate) enum Entry {
    Start,
    Middle,
}

// The boundaries at a position of a word: WHOLE in `a` if one is reached there behind which the first child is next,
// and WHOLE in `b` for the second.
#[derive(Clone, Copy, Default)]
pub(crate) struct States {
    pub(crate) a: u32,
    pub(crate) b: u32,
}

// Behind the end of a route of one child is a boundary with the other next.
fn boundary(standing: u32) -> u32
    ensures { result ≡ (if has standing 4 then 8 else 0) }
{
    if standing & ENDS != 0 { WHOLE } else { 0 }
}

impl<R: Rack> Children<'_, R> {
    // Reached by a start: at the start of the loop, or in its middle where the front ends a route of the other child.
    fn start(&mut self, entry: Entry, word: &[u8], end: usize) -> States
        requires word { ShortMoves self.old.alphabet.now word.now }
        requires within { end ≤ length word.now }
        ensures a { result.a ≡ by_rows R.view self.old (start_bit (in_middle entry)) word.now end next_a }
        ensures b { result.b ≡ by_rows R.view self.old (start_bit (in_middle entry)) word.now end next_b }
        ensures unaltered { Unaltered R.view self.old self.new }
    {
        match entry {
            Entry::Start => States {
                a: if end == 0 { WHOLE } else { 0 },
                b: 0,
            },
            Entry::Middle => {
                let front = &word[..end];
                States {
                    a: boundary(self.at_second(front)),
                    b: boundary(self.at_first(front)),
                }
            }
        }
    }

    // Reached from a lower position by a whole route of the child that was next there.
    #[tactic(auto, using(tree_laws::proofs::Bits::ors_more, crate::proofs::LoopStates::a_at, crate::proofs::LoopStates::b_at))]
    fn arrived(&mut self, word: &[u8], states: &[States]) -> States
        requires word { ShortMoves self.old.alphabet.now word.now }
        requires within { length states.now ≤ length word.now }
        ensures a { result.a ≡ ors (by_rows R.view self.old piece_bit word.now (columns states.now).1 (length states.now) next_b) (length states.now) }
        ensures b { result.b ≡ ors (by_rows R.view self.old piece_bit word.now (columns states.now).0 (length states.now) next_a) (length states.now) }
        ensures unaltered { Unaltered R.view self.old self.new }
    {
        let mut reached = States { a: 0, b: 0 };
        for (i, state) in states.iter().enumerate() {
            let piece = &word[i..states.len()];
            reached.a |= self.masked_second(state.b, piece);
            reached.b |= self.masked_first(state.a, piece);
        }
        reached
    }

    // The states at the position behind those that are given.
    fn reached(&mut self, entry: Entry, word: &[u8], states: &[States]) -> States
        requires word { ShortMoves self.old.alphabet.now word.now }
        requires within { length states.now ≤ length word.now }
        ensures a { result.a ≡ by_rows R.view self.old (state_bit (in_middle entry)) word.now (columns states.now) (length states.now) next_a }
        ensures b { result.b ≡ by_rows R.view self.old (state_bit (in_middle entry)) word.now (columns states.now) (length states.now) next_b }
        ensures unaltered { Unaltered R.view self.old self.new }
    {
        let start = self.start(entry, word, states.len());
        let arrived = self.arrived(word, states);
        let a = start.a | arrived.a;
        let b = start.b | arrived.b;
        // Where a child is next and has the empty route, the other is next as well.
        States {
            a: a | self.masked_second(b, &[]),
            b: b | self.masked_first(a, &[]),
        }
    }

    // The rest of the word from each position on begins a route of the child that is next there.
    #[tactic(auto, using(tree_laws::proofs::Bits::ors_more, crate::proofs::LoopStates::a_at, crate::proofs::LoopStates::b_at))]
    fn rests(&mut self, word: &[u8], states: &[States]) -> u32
        requires word { ShortMoves self.old.alphabet.now word.now }
        requires within { length states.now ≤ length word.now + 1 }
        ensures answer { result ≡ ors (by_rows R.view self.old rest_bits word.now (columns states.now)) (length states.now) }
        ensures unaltered { Unaltered R.view self.old self.new }
    {
        let mut bits = 0;
        for (j, state) in states.iter().enumerate() {
            let rest = &word[j..];
            bits |= self.masked_first(state.a >> 2, rest) | self.masked_second(state.b >> 2, rest);
        }
        bits
    }

    // WHOLE where a word that begins there may end the loop, and BEGINS where it may stop before the end.
    #[tactic(auto, using(crate::proofs::LoopStates::run_is))]
    fn run(&mut self, entry: Entry, word: &[u8]) -> u32
        requires { ShortMoves self.old.alphabet.now word.now }
        ensures answer { result ≡ by_rows R.view self.old (run_standing (in_middle entry)) word.now }
        ensures unaltered { Unaltered R.view self.old self.new }
    {
        let mut states = FixedVec::<States, MOST_STATES>::new();
        for _ in 0..word.len() + 1 {
            let next = self.reached(entry, word, states.as_slice());
            states.push(next);
        }
        let states = states.as_slice();
        let ended = states[word.len()].b & WHOLE;
        ended | self.rests(word, states) & BEGINS
    }

    // In one route of a child, or across boundaries between such routes.
    pub(crate) fn repeat(&mut self, word: &[u8]) -> u32
        requires { ShortMoves self.old.alphabet.now word.now }
        ensures answer { result ≡ by_rows R.view self.old loop_standing word.now }
        ensures unaltered { Unaltered R.view self.old self.new }
    {
        let fresh = self.run(Entry::Start, word);
        // In the middle of the loop a whole run only ends, and a beginning is only contained.
        let middle = self.run(Entry::Middle, word) >> 1;
        let inside = self.choice(word) & CONTAINED;
        fresh | middle | inside
    }
}
