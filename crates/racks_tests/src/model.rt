// A plain model of a rack of eight keys.
ghost use Rattle.std.specs.Prelude.{◌≡◌, ◌<◌, ◌≤◌, replicate, slice_set};

// What a rack should hold at the keys 0 to 7.
#[derive(Clone, Copy)]
pub(crate) struct Model {
    pub(crate) numbers: [u32; 8],
}

impl Model {
    pub(crate) fn new() -> Model
        ensures { result.numbers ≡ replicate 8 0 }
    {
        Model { numbers: [0; 8] }
    }

    pub(crate) fn write(&mut self, key: u32, number: u32)
        ensures inside { key < 8 → self.new.numbers ≡ slice_set self.old.numbers key number }
        ensures outside { 8 ≤ key → self.new.numbers ≡ self.old.numbers }
    {
        if key < 8 {
            self.numbers[key as usize] = number;
        }
    }

    // The smallest held key that is not below `from`.
    pub(crate) fn next(&self, from: u32) -> Option<u32> {
        (from..8).find(|key| self.numbers[*key as usize] != 0)
    }

    pub(crate) fn held(&self) -> usize {
        self.numbers.iter().filter(|number| **number != 0).count()
    }

    pub(crate) fn sum(&self) -> u64 {
        self.numbers
            .iter()
            .fold(0u64, |sum, number| sum.wrapping_add(u64::from(*number)))
    }
}
