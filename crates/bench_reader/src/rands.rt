// The RANDs of a line.
ghost use Rattle.std.specs.Prelude.{◌≡◌, ◌*◌, ◌≤◌};
ghost use Rattle.octets.specs.Octets.{part};
ghost use Rattle.aka.specs.Layout.{most_vectors, rand_size};

// The octets of as many RANDs as a line can have.
pub const RANDS_SIZE: usize = aka::RAND_SIZE * (aka::MOST_VECTORS as usize);

// As many RANDs as the line has, one behind the other, then zeros.
#[derive(Clone, Copy, Drop)]
pub struct Rands {
    pub count: u8,
    pub octets: [u8; RANDS_SIZE],
    pub ghost few: { count ≤ most_vectors },
}

impl Rands {
    // The octets of those RANDs alone.
    pub fn given(&self) -> &[u8]
        ensures { result.now ≡ part 0 (rand_size * self.now.count) self.now.octets }
    {
        &self.octets[..aka::RAND_SIZE * self.count as usize]
    }
}
