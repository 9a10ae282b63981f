// A rack in front of another, which remembers the number that was read last: it too keeps the promises of racks.
ghost use Rattle.racks_tests.specs.Slots.{Right};

use racks::Rack;
use terms::Refusal;

#[derive(Drop)]
pub(crate) struct Front<R: Rack> {
    below: R,
    last: Option<(u32, u32)>,
    ghost right: { Right last (R.view below).number },
}

impl<R: Rack> Front<R> {
    pub(crate) fn new(below: R) -> Front<R> {
        Front { below, last: None }
    }
}

impl<R: Rack> Rack for Front<R> {
    ghost view = { λ s. R.view s.below };

    ghost bounded = { λ s. R.bounded s.below };

    fn reach(&mut self) -> u32 {
        self.below.reach()
    }

    fn room(&mut self) -> u32 {
        self.below.room()
    }

    fn held(&mut self) -> u32 {
        self.below.held()
    }

    fn read(&mut self, key: u32) -> u32 {
        if let Some((last, number)) = self.last {
            if last == key {
                return number;
            }
        }
        let number = self.below.read(key);
        self.last = Some((key, number));
        number
    }

    fn next(&mut self, from: u32) -> Option<u32> {
        self.below.next(from)
    }

    fn write(&mut self, key: u32, number: u32) -> Result<(), Refusal> {
        self.last = None;
        self.below.write(key, number)
    }

    fn empty(&mut self) {
        self.last = None;
        self.below.empty();
    }
}
