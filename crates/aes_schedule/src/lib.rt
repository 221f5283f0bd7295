// The key expansion of AES-128, FIPS 197: a round key at a time, once for a key. `w` is the standard's letter for the key schedule.
#![tactic(auto)]

ghost use Rattle.std.specs.Prelude.{◌≡◌, [], ◌∷◌, ◌≤◌};
ghost use Rattle.std.specs.Int.Bits.{bit_xor};
ghost use Rattle.octets.specs.Octets.{decode};
ghost use Rattle.aes_tables.specs.Sbox.{IsSbox};
ghost use Rattle.aes_words.specs.Block.{octets_of};
ghost use Rattle.aes_schedule.specs.KeyExpansion.{rot_word, sub_word, rcon_octet, key_expansion};
ghost use Rattle.aes_schedule.specs.NextWords.{NextWords};

use aes_words::Block;

// The S-box is lent to the three that read it, since document 01 has it as a constant, which is laid down anew wherever it is read. A type
// for it would be made in one place, and be no plainer.
fn sub_word(sbox: &[u8; 256], x: u32) -> u32
    requires { IsSbox sbox.now }
    ensures { result ≡ sub_word x }
{
    let [e, f, g, h] = x.to_be_bytes();
    aes_words::word(
        sbox[e as usize],
        sbox[f as usize],
        sbox[g as usize],
        sbox[h as usize],
    )
}

// `temp` of the standard where a word takes Rcon, of the word before. `rc` is Rcon's first octet.
fn temp(sbox: &[u8; 256], x: u32, rc: u8) -> u32
    requires { IsSbox sbox.now }
    ensures { result ≡ bit_xor (sub_word (rot_word x)) (decode (rc ∷ 0 ∷ 0 ∷ 0 ∷ [])) }
{
    sub_word(sbox, aes_words::left(x, 1)) ^ aes_words::word(rc, 0, 0, 0)
}

// The words of a round key, from w[4 round] on. `rc` is the first octet of Rcon[round].
fn next_words(sbox: &[u8; 256], w: &[u32; 44], round: usize, rc: u8) -> Block
    requires { (1 ≤ round) × (round ≤ 10) × IsSbox sbox.now × (rc ≡ rcon_octet round) }
    ensures { NextWords w.now round result }
{
    let i = 4 * round;
    let a = w[i - 4] ^ temp(sbox, w[i - 1], rc);
    let b = w[i - 3] ^ a;
    let c = w[i - 2] ^ b;
    let d = w[i - 1] ^ c;
    Block { a, b, c, d }
}

// The key schedule of a key.
pub fn key_expansion(key: Block) -> [u32; 44]
    ensures { result ≡ key_expansion (octets_of key) }
{
    let sbox = aes_tables::sbox();
    let mut w = [0u32; 44];
    w[0] = key.a;
    w[1] = key.b;
    w[2] = key.c;
    w[3] = key.d;
    let mut rc = 1;
    for round in 1..11 {
        let next = next_words(&sbox, &w, round, rc);
        let i = 4 * round;
        w[i] = next.a;
        w[i + 1] = next.b;
        w[i + 2] = next.c;
        w[i + 3] = next.d;
        rc = gf256::double(rc);
    }
    w
}
