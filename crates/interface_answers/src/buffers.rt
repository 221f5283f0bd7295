// Keys from lent octets.
ghost use Rattle.std.specs.Prelude.{true, ◌≡◌};
ghost use Rattle.functions.specs.Challenge.{keys_of};
ghost use Rattle.interface_answers.specs.Answers.{are_keys};

use functions::Keys;

// Whether K and OP or OPc have their sizes. RAND and AUTS have a test of their own in `auc`: one for both would be no shorter.
#[tactic(auto, unfolding(crate::specs::Answers::are_keys))]
pub fn are_keys(k: &[u8], op: &[u8]) -> bool
    ensures { result ≡ are_keys k.now op.now }
{
    k.len() == aka::KEY_SIZE && op.len() == aka::KEY_SIZE
}

// Set, K and OPc as a record has them.
#[tactic(auto, using(crate::proofs::Sizes::key_sizes))]
pub fn keys_from(set: u8, k: &[u8], opc: &[u8]) -> Keys
    requires { are_keys k.now opc.now ≡ true }
    ensures { keys_of result ≡ record { set = set; k = k.now; opc = opc.now } }
{
    Keys {
        set,
        k: octets::array(k),
        opc: octets::array(opc),
    }
}
