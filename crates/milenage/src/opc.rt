// OPc, which an operator computes once for each subscriber: card and centre hold it in the place of OP.
ghost use Rattle.std.specs.Prelude.{◌≡◌};
ghost use Rattle.aes_words.specs.Block.{octets_of};
ghost use Rattle.aes.specs.Cipher.{aes as E};
ghost use Rattle.milenage.specs.Opc.{opc as OPc};

use aes::Cipher;
use aes_words::Block;

// One block under K.
fn encrypted(k: [u8; 16], block: Block) -> Block
    ensures { octets_of result ≡ E k (octets_of block) }
{
    Cipher::new(k.into()).encrypt(block)
}

// OPc of K and OP.
pub fn derive(k: [u8; 16], op: [u8; 16]) -> [u8; 16]
    ensures { result ≡ OPc (E k) op }
{
    let block = Block::from(op);
    (block ^ encrypted(k, block)).into()
}
