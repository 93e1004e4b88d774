//! The draws from a seed.
ghost use Rattle.std.specs.Prelude.{◌≡◌, ◌<◌, ◌/◌, ◌%◌, ◌^◌};
ghost use Rattle.image_reader.specs.Draws.{next};

/// The number of which the next draw is made. It takes no memory.
#[derive(Drop)]
pub struct Draws {
    number: u32,
}

impl Draws {
    /// The draws from a seed on.
    pub fn new(seed: u64) -> Draws
        ensures { result.number ≡ seed % 2 ^ 31 }
    {
        Draws {
            number: (seed % (1 << 31)) as u32,
        }
    }

    /// The next draw, below 2^23.
    #[inline]
    pub fn draw(&mut self) -> u32
        ensures drawn { result ≡ next self.old.number / 256 }
        ensures small { result < 2 ^ 23 }
        ensures number { self.new.number ≡ next self.old.number }
    {
        let next = (1_103_515_245 * u64::from(self.number) + 12345) % (1 << 31);
        self.number = next as u32;
        self.number / 256
    }
}
