// The RANDs that are lent for a batch.
ghost use Rattle.std.specs.Prelude.{◌*◌, ◌<◌, ◌≤◌, ◌≡◌, length};
ghost use Rattle.aka.specs.Layout.{rand_size, most_vectors, rand_at};

// n RANDs, one behind the other.
#[derive(Clone, Copy, Drop)]
pub struct Rands<'a> {
    pub octets: &'a [u8],
    pub n: u8,
    pub ghost few: { n ≤ most_vectors },
    pub ghost whole: { length octets.now ≡ rand_size * n },
}

impl Rands<'_> {
    // The RAND at place k.
    pub fn at(&self, k: u8) -> [u8; aka::RAND_SIZE]
        requires { k < self.now.n }
        ensures { result ≡ rand_at self.now.octets.now k }
    {
        let p = aka::RAND_SIZE * (k as usize);
        octets::array(&self.octets[p..p + aka::RAND_SIZE])
    }
}
