// All rows of a tree in a rack.
ghost use Rattle.std.specs.Prelude.{◌≡◌, IfOk};
ghost use Rattle.row_laws.specs.Rows.{PlayableCount, key_limit};
ghost use Rattle.trees.specs.Outcome.{Outcome};
ghost use Rattle.trees.specs.Planting.{EndsWith, SameMemory, Finished, Complete};
ghost use Rattle.trees.specs.Trees.{For, tree_nodes};

use crate::tree::Tree;
use racks::Rack;
use terms::Refusal;

impl Tree {
    // Puts all rows into an empty rack, and answers how many more keys are held after the windows' rows than before.
    fn put_rows<R: Rack>(&self, rack: &mut R) -> Result<u32, Refusal>
        requires { For self.now Finished 0 (R.view rack.old) }
        ensures rows { EndsWith self.now (For self.now Complete) (R.view rack.new) result }
        ensures count { IfOk result (λ c. PlayableCount (tree_nodes self.now) self.now.alphabet.order c) }
        ensures memory { SameMemory (R.view rack.old) (R.view rack.new) }
    {
        self.write_nodes(rack)?;
        let nodes = rack.held();
        self.put_windows(rack)?;
        let all = rack.held();
        Ok(all.saturating_sub(nodes))
    }

    /// The keys of the tree's rows lie below this one.
    pub fn key_limit(&self) -> u32
        ensures { result ≡ For self.now key_limit }
    {
        self.start(self.nodes().len() + 1)
    }

    /// Puts the tree's rows into the rack and answers how many windows are playable.
    pub fn write_rows<R: Rack>(&self, rack: &mut R) -> Result<u32, Refusal>
        ensures { For self.now Outcome (R.view rack.old) (R.view rack.new) result }
    {
        if rack.reach() < self.key_limit() {
            return Err(Refusal::ModelReach);
        }
        rack.empty();
        let Ok(count) = self.put_rows(rack) else {
            rack.empty();
            return Err(Refusal::ModelRoom);
        };
        Ok(count)
    }
}
