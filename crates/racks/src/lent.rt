// A lent rack is a rack too, so that code which owns its racks also serves lent ones.
ghost use Rattle.std.specs.Prelude.{◌∷◌, []};
ghost use Rattle.racks.specs.Views.{lent_view, lent_bounded};

use crate::Rack;
use terms::Refusal;

impl<R: Rack> Rack for &mut R {
    ghost view = { λ s. lent_view s.ghost_name (R.view s.now) };

    ghost bounded = { λ s. lent_bounded s.ghost_name (R.view s.now) (R.bounded s.now) };

    fn reach(&mut self) -> u32 {
        (**self).reach()
    }

    fn room(&mut self) -> u32 {
        (**self).room()
    }

    fn held(&mut self) -> u32 {
        (**self).held()
    }

    fn read(&mut self, key: u32) -> u32 {
        (**self).read(key)
    }

    fn next(&mut self, from: u32) -> Option<u32> {
        (**self).next(from)
    }

    fn write(&mut self, key: u32, number: u32) -> Result<(), Refusal> {
        (**self).write(key, number)
    }

    fn empty(&mut self) {
        (**self).empty();
    }
}
