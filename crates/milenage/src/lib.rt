// MILENAGE of 3GPP TS 35.206 on blocks of four words. The cipher under K is lent; TEMP is computed once for a RAND, and each output is a
// method of what the outputs are made of.
#![tactic(auto)]

mod blocks;
pub mod opc;

ghost use Rattle.std.specs.Prelude.{◌≡◌, ◌<◌, ◌≤◌, ◌*◌};
ghost use Rattle.octets.specs.Octets.{xor};
ghost use Rattle.aes_words.specs.Block.{octets_of};
ghost use Rattle.aes.specs.Cipher.{cipher as CIPHER};
ghost use Rattle.milenage.specs.Milenage.{in1 as IN1, temp as TEMP, out1 as OUT1, out as OUT};
ghost use Rattle.milenage.specs.Milenage.{out2 as OUT2, out3 as OUT3, out4 as OUT4, out5 as OUT5};

use aes::Cipher;
use aes_words::Block;

// What OUT1 to OUT5 are made of, for one RAND. They may be any three: what a method promises is said of these.
#[derive(Clone, Copy, Drop)]
pub struct Outputs<'a> {
    pub cipher: &'a Cipher,
    pub opc: Block,
    pub temp: Block,
}

// IN1: SQN and AMF, twice. Octet by octet: to put four parts into 16 octets and make a block of these would be longer.
pub fn in1(sqn: [u8; 6], amf: [u8; 2]) -> Block
    ensures { octets_of result ≡ IN1 sqn amf }
{
    let first = aes_words::word(sqn[0], sqn[1], sqn[2], sqn[3]);
    let second = aes_words::word(sqn[4], sqn[5], amf[0], amf[1]);
    Block {
        a: first,
        b: second,
        c: first,
        d: second,
    }
}

// TEMP.
pub fn temp(cipher: &Cipher, opc: Block, rand: Block) -> Block
    ensures { octets_of result ≡ TEMP (CIPHER cipher.now.schedule) (octets_of opc) (octets_of rand) }
{
    cipher.encrypt(rand ^ opc)
}

impl Outputs<'_> {
    // OUT1, of TEMP and IN1.
    pub fn out1(&self, in1: Block) -> Block
        ensures { octets_of result
            ≡ OUT1 (CIPHER self.now.cipher.now.schedule) (octets_of self.now.opc) (octets_of self.now.temp) (octets_of in1) }
    {
        let turned = blocks::turned(in1 ^ self.opc, 2);
        self.masked(self.temp ^ turned)
    }

    // OUT2 to OUT5, of TEMP.
    pub fn out2(&self) -> Block
        ensures { octets_of result ≡ OUT2 (CIPHER self.now.cipher.now.schedule) (octets_of self.now.opc) (octets_of self.now.temp) }
    {
        self.output(0, 1)
    }

    pub fn out3(&self) -> Block
        ensures { octets_of result ≡ OUT3 (CIPHER self.now.cipher.now.schedule) (octets_of self.now.opc) (octets_of self.now.temp) }
    {
        self.output(1, 2)
    }

    pub fn out4(&self) -> Block
        ensures { octets_of result ≡ OUT4 (CIPHER self.now.cipher.now.schedule) (octets_of self.now.opc) (octets_of self.now.temp) }
    {
        self.output(2, 4)
    }

    pub fn out5(&self) -> Block
        ensures { octets_of result ≡ OUT5 (CIPHER self.now.cipher.now.schedule) (octets_of self.now.opc) (octets_of self.now.temp) }
    {
        self.output(3, 8)
    }

    // Each of them: at the rotation by `words` words and with the constant `c`.
    fn output(&self, words: usize, c: u32) -> Block
        requires { (words ≤ 3) × (c < 256) }
        ensures { octets_of result
            ≡ OUT (CIPHER self.now.cipher.now.schedule) (octets_of self.now.opc) (4 * words) c (octets_of self.now.temp) }
    {
        let turned = blocks::turned(self.temp ^ self.opc, words);
        self.masked(blocks::with_constant(turned, c))
    }

    // The cipher with OPc added behind it, as every output has it.
    fn masked(&self, x: Block) -> Block
        ensures { octets_of result ≡ xor (CIPHER self.now.cipher.now.schedule (octets_of x)) (octets_of self.now.opc) }
    {
        self.cipher.encrypt(x) ^ self.opc
    }
}
