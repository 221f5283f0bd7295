// A text that is written part by part.
ghost use Rattle.std.specs.Prelude.{[], ◌≡◌, ◌+◌, ◌*◌, ◌++◌, ◌≤◌, length, take};
ghost use Rattle.fields.specs.Fields.{most_digits};
ghost use Rattle.aka.specs.Layout.{sqn_size};
ghost use Rattle.bench_writer.specs.Replies.{decimal_text, room, sqn_text};

// The text is the first `used` bytes; it has room for every answer. An array with its size, since there is no heap.
#[derive(Clone, Copy, Drop)]
pub struct Text {
    pub bytes: [u8; crate::ROOM],
    pub used: usize,
    pub ghost within: { used ≤ room },
}

impl Text {
    pub fn new() -> Text
        ensures { (take result.used result.bytes ≡ []) × (result.used ≡ 0) }
    {
        Text {
            bytes: [0; crate::ROOM],
            used: 0,
        }
    }

    pub fn written(&self) -> &[u8]
        ensures { result.now ≡ take self.now.used self.now.bytes }
    {
        &self.bytes[..self.used]
    }

    // With these bytes behind it.
    #[tactic(auto, using(crate::proofs::Texts::longer))]
    pub fn put(self, text: &[u8]) -> Text
        requires { self.used + length text.now ≤ room }
        ensures text { take result.used result.bytes ≡ take self.used self.bytes ++ text.now }
        ensures size { result.used ≡ self.used + length text.now }
    {
        let mut bytes = self.bytes;
        octets::put(&mut bytes, self.used, text);
        Text {
            bytes,
            used: self.used + text.len(),
        }
    }

    // With a number in decimal behind it.
    pub fn number(self, n: u64) -> Text
        requires { self.used + most_digits ≤ room }
        ensures text { take result.used result.bytes ≡ take self.used self.bytes ++ decimal_text n }
        ensures size { result.used ≤ self.used + most_digits }
    {
        let mut digits = [0u8; fields::MOST_DIGITS];
        let k = io::decimal(n, &mut digits);
        self.put(&digits[..k])
    }

    // With an SQN in hex behind it.
    pub fn sqn(self, sqn: u64) -> Text
        requires { self.used + 2 * sqn_size ≤ room }
        ensures text { take result.used result.bytes ≡ take self.used self.bytes ++ sqn_text sqn }
        ensures size { result.used ≤ self.used + 2 * sqn_size }
    {
        let mut digits = [0u8; 2 * aka::SQN_SIZE];
        hex_digits::write(&tokens::sqn_octets(sqn), &mut digits);
        self.put(&digits)
    }
}
