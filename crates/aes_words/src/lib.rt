// Words of four octets, the first the most significant, and blocks of four words.
#![tactic(auto)]

ghost use Rattle.std.specs.Prelude.{◌≡◌, ◌<◌, [], ◌∷◌};
ghost use Rattle.octets.specs.Octets.{turn_left, xor as xor_octets, encode};
ghost use Rattle.aes_words.specs.Words.{octet};
ghost use Rattle.aes_words.specs.Block.{octets_of};

use std::ops::BitXor;

// 16 octets, as the words of a state's columns.
#[derive(Clone, Copy, Drop)]
pub struct Block {
    pub a: u32,
    pub b: u32,
    pub c: u32,
    pub d: u32,
}

// The word of four octets.
pub fn word(e: u8, f: u8, g: u8, h: u8) -> u32
    ensures { encode 4 result ≡ e ∷ f ∷ g ∷ h ∷ [] }
{
    u32::from_be_bytes([e, f, g, h])
}

// Turned left by n octets.
pub fn left(x: u32, n: u32) -> u32
    requires { n < 4 }
    ensures { encode 4 result ≡ turn_left n (encode 4 x) }
{
    x.rotate_left(8 * n)
}

// The octet after the first.
pub fn second(x: u32) -> u8
    ensures { result ≡ octet 1 x }
{
    x.to_be_bytes()[1]
}

// The sum of two blocks.
impl BitXor for Block {
    type Output = Block;

    ghost bitxor_gives = { λ p q sum. octets_of sum ≡ xor_octets (octets_of p) (octets_of q) };

    fn bitxor(self, rhs: Block) -> Block {
        Block {
            a: self.a ^ rhs.a,
            b: self.b ^ rhs.b,
            c: self.c ^ rhs.c,
            d: self.d ^ rhs.d,
        }
    }
}

impl From<[u8; 16]> for Block {
    ghost from_gives = { λ x block. octets_of block ≡ x };

    fn from(value: [u8; 16]) -> Block {
        Block {
            a: u32::from_be_bytes(octets::piece(value, 0)),
            b: u32::from_be_bytes(octets::piece(value, 4)),
            c: u32::from_be_bytes(octets::piece(value, 8)),
            d: u32::from_be_bytes(octets::piece(value, 12)),
        }
    }
}

impl From<Block> for [u8; 16] {
    ghost from_gives = { λ block x. x ≡ octets_of block };

    fn from(value: Block) -> [u8; 16] {
        let columns = [
            value.a.to_be_bytes(),
            value.b.to_be_bytes(),
            value.c.to_be_bytes(),
            value.d.to_be_bytes(),
        ];
        octets::array(columns.as_flattened())
    }
}
