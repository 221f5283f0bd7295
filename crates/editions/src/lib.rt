// The editions of card and centre records (document 02, #104), as aka/specs/Editions has them: the one table of what differs from edition
// to edition. No other code tests an edition.
#![tactic(auto)]

ghost use Rattle.std.specs.Prelude.{◌+◌, ◌%◌, ◌≤◌, ◌<◌, cond, ◌≡◌};
ghost use Rattle.aka.specs.Sequence.{width_of, indices, limit, sqn_of};
ghost use Rattle.aka.specs.Editions.{editions, is_edition};
ghost use Rattle.editions.specs.Views.{Numbers};

// The editions there are: 1 to this one.
const LATEST: u8 = 2;

// The places of every card.
pub const PLACES: usize = 64;

// The octets of all places in the largest image of a card.
pub const MOST_OCTETS: usize = 336;

// How the records of an edition are numbered.
#[derive(Clone, Copy, Drop)]
pub struct Numbering {
    // How many indices there are: SQN = indices x SEQ + IND.
    pub indices: u64,
    // The bits of a SEQ, and the largest.
    pub bits: u64,
    pub limit: u64,
    // The index goes up for each vector; else for each batch. A column like the others: it does not say whether they count.
    pub each: bool,
    // The octets of all places in a card's image.
    pub octets: usize,
}

// Whether there is such an edition.
#[tactic(auto, unfolding(aka::specs::Editions::is_edition))]
pub fn is_known(edition: u8) -> bool
    ensures { result ≡ is_edition edition }
{
    1 <= edition && edition <= LATEST
}

// Its row of the table. An edition stays an octet here: callers hand in any, and an enum would ask more of them.
pub fn row(edition: u8) -> Numbering
    ensures { Numbers (editions.numbering edition) result }
{
    match edition {
        2 => Numbering {
            indices: 64,
            bits: 42,
            limit: 4398046511103,
            each: true,
            octets: 336,
        },
        _ => Numbering {
            indices: 32,
            bits: 43,
            limit: 8796093022207,
            each: false,
            octets: 172,
        },
    }
}

// The index that has gone up from `next`, after the last to 0: by `vectors` where it goes up for each vector, else by `batches`.
pub fn index_after(edition: u8, next: u8, vectors: u8, batches: u8) -> u8
    ensures { (result ≡ (next + cond (editions.numbering edition).per_vector vectors batches) % indices (width_of editions edition))
        × (result < indices (width_of editions edition)) }
{
    let m = row(edition);
    let steps = if m.each { vectors } else { batches };
    ((next as u64 + steps as u64) % m.indices) as u8
}

// SQN of SEQ and IND.
pub fn sqn(edition: u8, seq: u64, ind: u8) -> u64
    requires { seq ≤ limit (width_of editions edition) }
    ensures { result ≡ sqn_of (width_of editions edition) seq ind }
{
    let m = row(edition);
    m.indices * seq + ind as u64
}
