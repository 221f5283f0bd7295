// The places of the card, a SEQ for each index (document 01: the places of the card): SEQ_MS, SQN_MS and freshness.
// They are an array and no struct with methods: callers build the card's record from one, and document 01 has it by value.
ghost use Rattle.std.specs.Prelude.{◌≡◌, ◌+◌, ◌*◌, ◌^◌, ◌<◌, ◌≤◌, drop};
ghost use Rattle.aka.specs.Layout.{all_zero};
ghost use Rattle.aka.specs.Editions.{card_places};
ghost use Rattle.aka.specs.Usim.{all_within, fresh, highest as highest_of, lowest_index};

// Whether no place is above the limit.
pub fn within(places: [u64; editions::PLACES], limit: u64) -> bool
    ensures { result ≡ all_within limit places }
{
    places.iter().all(|&place| place <= limit)
}

// Whether the places from `from` on are 0.
pub fn zero_from(places: [u64; editions::PLACES], from: usize) -> bool
    ensures { result ≡ all_zero (drop from places) }
{
    places.iter().skip(from).all(|&place| place == 0)
}

// SEQ_MS: the highest place.
pub fn highest(places: [u64; editions::PLACES]) -> u64
    ensures { result ≡ highest_of places }
{
    places.iter().fold(0, |most, &place| most.max(place))
}

// The lowest index that holds `seq`, and the number of places where none does.
pub fn lowest_index(places: [u64; editions::PLACES], seq: u64) -> usize
    ensures { (result ≡ lowest_index seq places) × (result ≤ card_places) }
{
    places
        .iter()
        .position(|&place| place == seq)
        .unwrap_or(editions::PLACES)
}

// SQN_MS.
pub fn sqn_ms(places: [u64; editions::PLACES], indices: u64) -> u64
    requires { indices * highest_of places + card_places < 2 ^ 64 }
    ensures { result ≡ indices * highest_of places + lowest_index (highest_of places) places }
{
    let seq = highest(places);
    indices * seq + lowest_index(places, seq) as u64
}

// Whether SEQ is above the place at IND, and not more than D above SEQ_MS.
#[tactic(auto, unfolding(aka::specs::Usim::fresh))]
pub fn is_fresh(places: [u64; editions::PLACES], seq: u64, ind: usize) -> bool
    requires { ind < card_places }
    ensures { result ≡ fresh places seq ind }
{
    let most = highest(places);
    places[ind] < seq && (seq < most || seq - most <= aka::D)
}
