// The queue of the serving node: its places (document 01: node place), one behind the other, in one flat array, so that a part of it can be
// lent and a shift is one copy.
ghost use Rattle.std.specs.Prelude.{◌++◌, ◌≡◌, ◌*◌, ◌+◌, ◌≤◌, drop, length, take};
ghost use Rattle.octets.specs.Octets.{zeros};
ghost use Rattle.aka.specs.Layout.{item_size};
ghost use Rattle.aka.specs.Vlr.{all_zero, good_places, most_held, place_size, places_of};
ghost use Rattle.vlr_places.specs.Views.{kind_of};

use vlr_places::{Batch, Place};

pub type Queue = [u8; aka::QUEUE_SIZE];

// Whether the first `held` places are as they should be.
#[tactic(auto, using(aka::proofs::VlrPlaces::good_next, vlr_places::proofs::Items::bad_place), unfolding(aka::specs::Vlr::good_places))]
pub fn are_good(queue: Queue, held: usize) -> bool
    requires { held ≤ most_held }
    ensures { result ≡ good_places queue held }
{
    for k in 0..held {
        let at = aka::PLACE_SIZE * k;
        if !vlr_places::is_good(&queue[at..at + aka::PLACE_SIZE]) {
            return false;
        }
    }
    true
}

// Whether the places behind the first `held` are zero.
pub fn is_unused(queue: Queue, held: usize) -> bool
    requires { held ≤ most_held }
    ensures { result ≡ all_zero (drop (place_size * held) queue) }
{
    vlr_places::all_zero(&queue[aka::PLACE_SIZE * held..])
}

// The first place.
pub fn oldest(queue: Queue) -> Place
    ensures { result ≡ take place_size queue }
{
    octets::array(&queue[0..aka::PLACE_SIZE])
}

// The others move forward, and the place freed at the end is zero.
pub fn without_oldest(queue: Queue) -> Queue
    ensures { result ≡ drop place_size queue ++ zeros place_size }
{
    let mut next = [0u8; aka::QUEUE_SIZE];
    octets::copy(&queue[aka::PLACE_SIZE..], &mut next);
    next
}

// The items of a batch are put behind the first `held` places, each in its own.
pub fn with_batch(queue: Queue, held: usize, batch: Batch) -> Queue
    requires room { held + batch.count ≤ most_held }
    requires size { length batch.octets.now ≡ item_size (kind_of batch.kind) * batch.count }
    ensures { result
        ≡ take (place_size * held) queue ++ places_of (kind_of batch.entry.kind) batch.entry.octets.now batch.entry.count
        ++ drop (place_size * held + length (places_of (kind_of batch.entry.kind) batch.entry.octets.now batch.entry.count)) queue }
{
    let mut next = queue;
    for k in 0..batch.count as usize {
        octets::put(&mut next, aka::PLACE_SIZE * (held + k), &batch.placed(k));
    }
    next
}
