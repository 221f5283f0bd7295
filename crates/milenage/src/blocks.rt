// Blocks of four words: turns by whole words, and the constants c2 to c5.
ghost use Rattle.std.specs.Prelude.{◌≡◌, ◌<◌, ◌*◌, ◌≤◌};
ghost use Rattle.octets.specs.Octets.{xor, turn_left};
ghost use Rattle.aes_words.specs.Block.{octets_of};
ghost use Rattle.milenage.specs.Milenage.{constant};

use aes_words::Block;

// Turned left by whole words, which are 32 bits each.
pub fn turned(p: Block, words: usize) -> Block
    requires { words ≤ 3 }
    ensures { octets_of result ≡ turn_left (4 * words) (octets_of p) }
{
    let all = [p.a, p.b, p.c, p.d];
    Block {
        a: all[words],
        b: all[(words + 1) % 4],
        c: all[(words + 2) % 4],
        d: all[(words + 3) % 4],
    }
}

// The block with `c` added to its last octet.
pub fn with_constant(p: Block, c: u32) -> Block
    requires { c < 256 }
    ensures { octets_of result ≡ xor (octets_of p) (constant c) }
{
    Block { d: p.d ^ c, ..p }
}
