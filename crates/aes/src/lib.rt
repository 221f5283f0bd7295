// AES-128 of FIPS 197: the cipher of one block.
//
// The state is four words, its columns, and a round is sixteen look-ups in one table, `aes_tables::round_table`. A `Cipher` holds the key
// schedule. It is made once for a key, and lent for each block.
#![tactic(auto)]

ghost use Rattle.std.specs.Prelude.{◌≡◌, [], ◌∷◌, ◌≤◌};
ghost use Rattle.octets.specs.Octets.{xor, encode};
ghost use Rattle.aes_tables.specs.Sbox.{sbox};
ghost use Rattle.aes_tables.specs.RoundTable.{contribution};
ghost use Rattle.aes_words.specs.Words.{octet};
ghost use Rattle.aes_words.specs.Block.{octets_of};
ghost use Rattle.aes_schedule.specs.KeyExpansion.{key_expansion};
ghost use Rattle.aes.specs.Cipher.{mix_column, add_round_key, one_round, last_round, cipher};

use aes_words::Block;

// The cipher under one key. The schedule may be any 44 words: what a method promises is said of these.
#[derive(Drop)]
pub struct Cipher {
    pub schedule: [u32; 44],
}

impl Cipher {
    // The cipher under a key.
    pub fn new(key: Block) -> Self
        ensures { result.schedule ≡ key_expansion (octets_of key) }
    {
        Cipher {
            schedule: aes_schedule::key_expansion(key),
        }
    }

    // One block.
    pub fn encrypt(&self, input: Block) -> Block
        ensures { octets_of result ≡ cipher self.now.schedule (octets_of input) }
    {
        let mut s = self.add_round_key(input);
        for round in 1..10 {
            s = self.one_round(round, s);
        }
        self.last_round(s)
    }

    fn add_round_key(&self, s: Block) -> Block
        ensures { octets_of result ≡ add_round_key self.now.schedule 0 (octets_of s) }
    {
        let w = &self.schedule;
        Block {
            a: s.a ^ w[0],
            b: s.b ^ w[1],
            c: s.c ^ w[2],
            d: s.d ^ w[3],
        }
    }

    fn one_round(&self, round: usize, s: Block) -> Block
        requires { round ≤ 10 }
        ensures { octets_of result ≡ one_round self.now.schedule round (octets_of s) }
    {
        let w = &self.schedule;
        let i = 4 * round;
        Block {
            a: column(s.a, s.b, s.c, s.d, w[i]),
            b: column(s.b, s.c, s.d, s.a, w[i + 1]),
            c: column(s.c, s.d, s.a, s.b, w[i + 2]),
            d: column(s.d, s.a, s.b, s.c, w[i + 3]),
        }
    }

    // The last round. One function for it and `one_round`, with the column's function as a parameter, would be longer than the two.
    fn last_round(&self, s: Block) -> Block
        ensures { octets_of result ≡ last_round self.now.schedule 10 (octets_of s) }
    {
        let w = &self.schedule;
        Block {
            a: last_column(s.a, s.b, s.c, s.d, w[40]),
            b: last_column(s.b, s.c, s.d, s.a, w[41]),
            c: last_column(s.c, s.d, s.a, s.b, w[42]),
            d: last_column(s.d, s.a, s.b, s.c, w[43]),
        }
    }
}

// One column of a round: its octets come from four columns of the state, `k` is its word of the round key.
fn column(a: u32, b: u32, c: u32, d: u32, k: u32) -> u32
    ensures { encode 4 result
        ≡ xor (mix_column (sbox (octet 0 a)) (sbox (octet 1 b)) (sbox (octet 2 c)) (sbox (octet 3 d))) (encode 4 k) }
{
    entry(a >> 24)
        ^ aes_words::left(entry(b >> 16), 3)
        ^ aes_words::left(entry(c >> 8), 2)
        ^ aes_words::left(entry(d), 1)
        ^ k
}

// The same in the last round, which does not mix the columns. The S-box's value is the second octet of the table's word.
fn last_column(a: u32, b: u32, c: u32, d: u32, k: u32) -> u32
    ensures { encode 4 result ≡ xor (sbox (octet 0 a) ∷ sbox (octet 1 b) ∷ sbox (octet 2 c) ∷ sbox (octet 3 d) ∷ []) (encode 4 k) }
{
    aes_words::word(
        aes_words::second(entry(a >> 24)),
        aes_words::second(entry(b >> 16)),
        aes_words::second(entry(c >> 8)),
        aes_words::second(entry(d)),
    ) ^ k
}

// The round table's word for the last octet of `x`.
fn entry(x: u32) -> u32
    ensures { encode 4 result ≡ contribution (sbox (octet 3 x)) }
{
    aes_tables::round_table()[(x % 256) as usize]
}
