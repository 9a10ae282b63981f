// The sample level from beginning to end: what the testers played, what the tree allows, and which of it was played.
#![tactic(auto)]

use examples::proved_examples;
use list_rack::{ListRack, Row};
use racks::{Rack, next_before};
use tree_laws::Node;
use trees::{RawNode, Tree};
use windows::{Alphabet, Cut};

// A tester's play as it comes in: its id, and its moves as bytes.
#[derive(Clone, Copy)]
struct Entry<'a> {
    id: u16,
    moves: &'a [u8],
}

fn cut_of(alphabet: &Alphabet, entry: &Entry) -> anyhow::Result<Cut> {
    let play = alphabet.play(entry.moves)?;
    Ok(alphabet.cut(&play))
}

fn print_windows(rt: &HostRuntime, alphabet: &Alphabet, cut: &Cut) -> anyhow::Result<()> {
    for window in cut.windows() {
        if let Some(code) = alphabet.code(window.items()) {
            println!(rt; "  {window} code {code}")?;
        }
    }
    Ok(())
}

fn print_play(
    rt: &HostRuntime,
    alphabet: &Alphabet,
    entry: &Entry,
    cut: &Cut,
) -> anyhow::Result<()> {
    let id = entry.id;
    print!(rt; "play {id}: moves")?;
    for m in entry.moves {
        print!(rt; " {m}")?;
    }
    rt.println("")?;
    print_windows(rt, alphabet, cut)
}

// At how many places the word stands in all these cuts.
fn places(cuts: &[Cut], word: &[u8]) -> u32 {
    let all = cuts
        .iter()
        .fold(0, |all: usize, cut| all.saturating_add(cut.count(word)));
    u32::try_from(all).unwrap_or(u32::MAX)
}

// Writes to the log how often each window of the cut was played in all.
fn tally<R: Rack>(alphabet: &Alphabet, log: &mut R, cut: &Cut, cuts: &[Cut]) -> anyhow::Result<()> {
    for window in cut.windows() {
        if let Some(code) = alphabet.code(window.items()) {
            log.write(code, places(cuts, window.items()))?;
        }
    }
    Ok(())
}

fn print_playable<R: Rack>(
    rt: &HostRuntime,
    alphabet: &Alphabet,
    model: &mut R,
) -> anyhow::Result<()> {
    let limit = alphabet.code_limit();
    let mut from = 0;
    while let Some(code) = next_before(model, from, limit) {
        if let Some(window) = alphabet.word(code) {
            println!(rt; "  {window} code {code}")?;
        }
        from = code + 1;
    }
    Ok(())
}

// Each window in the log, how often it was played, and whether the model has it.
fn print_played<R: Rack, S: Rack>(
    rt: &HostRuntime,
    alphabet: &Alphabet,
    log: &mut R,
    model: &mut S,
) -> anyhow::Result<()> {
    let limit = alphabet.code_limit();
    let mut from = 0;
    while let Some(code) = next_before(log, from, limit) {
        let times = log.read(code);
        let allowed = if model.read(code) == 0 {
            "not allowed"
        } else {
            "allowed"
        };
        if let Some(window) = alphabet.word(code) {
            println!(rt; "  {window} code {code}: played {times} times, {allowed}")?;
        }
        from = code + 1;
    }
    Ok(())
}

fn print_tree<R: Rack>(rt: &HostRuntime, alphabet: &Alphabet, model: &mut R) -> anyhow::Result<()> {
    // Moves 1 and 2 in parallel.
    let table = [Node::Move(1), Node::Move(2), Node::Parallel(1, 2)].map(RawNode::from);
    let tree = Tree::new(*alphabet, &table)?;
    for (i, node) in tree.nodes().iter().enumerate() {
        let number = i + 1;
        println!(rt; "node {number}: {node}")?;
    }
    let playable = tree.write_rows(model)?;
    println!(rt; "playable windows: {playable}")?;
    print_playable(rt, alphabet, model)
}

fn run(rt: &HostRuntime) -> anyhow::Result<()> {
    let alphabet = Alphabet::new(3, 3)?;
    let moves = alphabet.moves();
    let order = alphabet.order();
    println!(rt; "{moves} moves, order {order}")?;
    let entries = [
        Entry {
            id: 5,
            moves: &[1, 2],
        },
        Entry {
            id: 6,
            moves: &[1, 3],
        },
    ];
    let cuts = [
        cut_of(&alphabet, &entries[0])?,
        cut_of(&alphabet, &entries[1])?,
    ];
    for (entry, cut) in entries.iter().zip(&cuts) {
        print_play(rt, &alphabet, entry, cut)?;
    }
    let mut model_rows = [Row::default(); 4096];
    let mut model = ListRack::new(&mut model_rows);
    print_tree(rt, &alphabet, &mut model)?;
    let mut log_rows = [Row::default(); 4096];
    let mut log = ListRack::new(&mut log_rows);
    for cut in &cuts {
        tally(&alphabet, &mut log, cut, &cuts)?;
    }
    rt.println("windows played:")?;
    print_played(rt, &alphabet, &mut log, &mut model)?;
    let count = proved_examples();
    println!(rt; "worked examples proved: {count}")?;
    Ok(())
}

fn main(rt: HostRuntime) -> anyhow::Result<()> {
    run(&rt)
}
