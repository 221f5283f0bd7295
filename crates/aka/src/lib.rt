// Authentication and key agreement on paper: the definitions are in specs/, the theorems in proofs/. There is no code here but the numbers
// that the code has from the definitions: this is their one home.
#![tactic(auto)]

ghost use Rattle.std.specs.Prelude.{◌≡◌};
ghost use Rattle.aka.specs.Refusals.{number_of};

// ---- sequence numbers (specs/Sequence)

// The largest jump.
pub const D: u64 = 268435456;

// ---- sizes, in octets (specs/Layout)

// K and OPc.
pub const KEY_SIZE: usize = 16;

pub const RAND_SIZE: usize = 16;

pub const RES_SIZE: usize = 8;

pub const CK_SIZE: usize = 16;

pub const IK_SIZE: usize = 16;

// SQN and SQN_MS, AK and AK*.
pub const SQN_SIZE: usize = 6;

pub const AMF_SIZE: usize = 2;

// MAC and MAC-S.
pub const MAC_SIZE: usize = 8;

// AUTN: SQN xor AK, AMF, MAC; where AMF and MAC begin.
pub const AMF_AT: usize = SQN_SIZE;

pub const MAC_AT: usize = AMF_AT + AMF_SIZE;

pub const AUTN_SIZE: usize = MAC_AT + MAC_SIZE;

// AUTS: SQN_MS xor AK*, MAC-S; where MAC-S begins.
pub const MAC_S_AT: usize = SQN_SIZE;

pub const AUTS_SIZE: usize = MAC_S_AT + MAC_SIZE;

// ---- a vector: where its parts begin, and its size; RAND stands first

pub const XRES_AT: usize = RAND_SIZE;

pub const CK_AT: usize = XRES_AT + RES_SIZE;

pub const IK_AT: usize = CK_AT + CK_SIZE;

pub const AUTN_AT: usize = IK_AT + IK_SIZE;

pub const VECTOR_SIZE: usize = AUTN_AT + AUTN_SIZE;

// ---- a triplet, for a GSM phone: RAND stands first

pub const SRES_SIZE: usize = 4;

pub const KC_SIZE: usize = 8;

pub const SRES_AT: usize = RAND_SIZE;

pub const KC_AT: usize = SRES_AT + SRES_SIZE;

pub const TRIPLET_SIZE: usize = KC_AT + KC_SIZE;

// ---- the two kinds: what stands before an item in octets that hold either, and how the octet names them

pub const KIND_SIZE: usize = 1;

pub const VECTOR_KIND: u8 = 0;

pub const TRIPLET_KIND: u8 = 1;

// ---- the handset: its answer has RES, CK and IK; its store has RAND, and the answer behind it

// Where CK and IK begin in an answer.
pub const ANSWER_CK_AT: usize = RES_SIZE;

pub const ANSWER_IK_AT: usize = ANSWER_CK_AT + CK_SIZE;

pub const ANSWER_SIZE: usize = ANSWER_IK_AT + IK_SIZE;

// Where the answer begins in a store.
pub const ANSWER_AT: usize = RAND_SIZE;

pub const STORE_SIZE: usize = ANSWER_AT + ANSWER_SIZE;

// ---- batches

// The most vectors of a batch.
pub const MOST_VECTORS: u64 = 5;

// The count that a count of 0 means (specs/Auc).
pub const DEFAULT_COUNT: u8 = 5;

// ---- the node (specs/Vlr)

// The most items held, vectors and triplets together.
pub const MOST_HELD: usize = 16;

// The octets of a place, held or outstanding: the kind, then room for either kind's item. And of all places.
pub const PLACE_SIZE: usize = KIND_SIZE + VECTOR_SIZE;

pub const QUEUE_SIZE: usize = PLACE_SIZE * MOST_HELD;

// ---- the refusals, by their numbers (document 01: 'Refusal numbers'; specs/Refusals)

#[derive(Clone, Copy, PartialEq, Eq)]
pub enum Refusal {
    // The record or image is not valid.
    Invalid = 1,
    // The count is past its range.
    Count = 2,
    // A lent part or image has another length than named.
    Length = 3,
    // Two of the RANDs that are lent are equal.
    SameRand = 4,
    // SEQ_HE is out of range, and MAC-S is wrong.
    MacS = 5,
    // The last SEQ would pass the limit.
    Limit = 6,
    // The operation is not named for the node's state.
    State = 7,
    // The node holds nothing.
    Empty = 8,
    // The node would hold more than it can.
    Full = 9,
}

impl Refusal {
    pub fn number(self) -> u8
        ensures { result ≡ number_of self }
    {
        self as u8
    }
}
