// Set 0, of X.
#![tactic(auto)]

ghost use Rattle.std.specs.Prelude.{◌≡◌, ◌≤◌, ◌++◌, take};
ghost use Rattle.octets.specs.Octets.{xor, turn_left};
ghost use Rattle.aes_words.specs.Block.{octets_of};

use aes_words::Block;

// X = K xor RAND.
pub fn x(k: [u8; 16], rand: [u8; 16]) -> Block
    ensures { octets_of result ≡ xor k rand }
{
    Block::from(k) ^ Block::from(rand)
}

// MAC and MAC-S, of SQN and AMF.
pub fn mac(x: Block, sqn: [u8; 6], amf: [u8; 2]) -> [u8; 8]
    ensures { result ≡ xor (take 8 (octets_of x)) (sqn ++ amf) }
{
    octets::xor(octets::piece(x.into(), 0), sqn_amf(sqn, amf))
}

// SQN, then AMF. Eight octets by name are no longer than a buffer and two copies.
fn sqn_amf(sqn: [u8; 6], amf: [u8; 2]) -> [u8; 8]
    ensures { result ≡ sqn ++ amf }
{
    [
        sqn[0], sqn[1], sqn[2], sqn[3], sqn[4], sqn[5], amf[0], amf[1],
    ]
}

// Turned left by `n` octets, by two copies: for the library's `rotate_left`, which has any n and any length in view, an order of five
// took half as long again.
pub fn turned_left(x: [u8; 16], n: usize) -> [u8; 16]
    requires { n ≤ 16 }
    ensures { result ≡ turn_left n x }
{
    let mut turned = [0u8; 16];
    octets::put(&mut turned, 0, &x[n..]);
    octets::put(&mut turned, 16 - n, &x[..n]);
    turned
}
