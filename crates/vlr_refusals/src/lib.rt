// Which refusal applies to each operation of the serving node, VLR or SGSN (document 01: node).
#![tactic(auto)]

ghost use Rattle.std.specs.Prelude.{◌&&◌, ◌≡◌, cond};
ghost use Rattle.aka.specs.Refusals.{number_of, refusal_in};
ghost use Rattle.aka.specs.Vlr as spec;
ghost use Rattle.vlr_places.specs.Views.{kind_of};
ghost use Rattle.vlr_record.specs.Views.{vlr_of};

use aka::Refusal;
use vlr_places::{Batch, Kind, kind_in};
use vlr_record::{Vlr, has_room, is_valid};

// This refusal applies where `holds` does not.
fn check(holds: bool, refusal: Refusal) -> Result<(), Refusal>
    ensures { refusal_in result ≡ cond holds 0 (number_of refusal) }
{
    if holds { Ok(()) } else { Err(refusal) }
}

// ---- the tests

// Whether refusal 2 does not apply.
#[tactic(auto, unfolding(aka::specs::Vlr::count_fits))]
fn count_fits(count: u64) -> bool
    ensures { result ≡ spec.count_fits count }
{
    (1..=aka::MOST_VECTORS).contains(&count)
}

// Whether refusal 3 does not apply. The octets of a count of any size need not fit a u64.
#[tactic(auto, unfolding(aka::specs::Vlr::batch_fits))]
fn batch_fits(batch: Batch) -> bool
    ensures { result ≡ spec.batch_fits (kind_of batch.entry.kind) batch.entry.count batch.entry.octets.now }
{
    batch.count.checked_mul(batch.kind.item_size() as u64) == Some(batch.octets.len() as u64)
}

// Whether a batch holds what it must: an item may have any octets.
fn batch_good(batch: Batch) -> bool
    ensures { result ≡ spec.batch_good (kind_of batch.entry.kind) batch.entry.octets.now }
{
    true
}

// Whether a response of `size` octets goes with what is out; with nothing out it is that of a vector.
fn response_fits(vlr: Vlr, size: usize) -> bool
    ensures { result ≡ spec.response_fits (vlr_of vlr) size }
{
    size == kind_in(vlr.out).response_size()
}

// Whether Sync is named for the state and for what is out: in Asked, on a vector.
fn sync_named(vlr: Vlr) -> bool
    ensures { result ≡ (spec.is_asked (vlr_of vlr).state && spec.is_vector (spec.kind_in (vlr_of vlr).out)) }
{
    vlr.state.is_asked() && kind_in(vlr.out) == Kind::Vector
}

// ---- the tests of an operation, in the order of document 01: 1, 2, 3, 1 for what a batch holds, 7, then 8 or 9

fn check_valid(vlr: Vlr) -> Result<(), Refusal>
    ensures { refusal_in result ≡ cond (spec.valid_vlr (vlr_of vlr)) 0 1 }
{
    check(is_valid(vlr), Refusal::Invalid)
}

// `named`: the operation is named for the state and for what is out.
fn check_named(named: bool) -> Result<(), Refusal>
    ensures { refusal_in result ≡ cond named 0 7 }
{
    check(named, Refusal::State)
}

// Of Store and Renew, but for 9.
#[tactic(auto, unfolding(aka::specs::Vlr::refusal_or))]
fn batch_refusal(vlr: Vlr, batch: Batch, named: bool) -> Result<(), Refusal>
    ensures { refusal_in result
        ≡ spec.refusal_or (vlr_of vlr) (spec.count_fits batch.entry.count)
        (spec.batch_fits (kind_of batch.entry.kind) batch.entry.count batch.entry.octets.now)
        (spec.batch_good (kind_of batch.entry.kind) batch.entry.octets.now) named 0 }
{
    check_valid(vlr)?;
    check(count_fits(batch.count), Refusal::Count)?;
    check(batch_fits(batch), Refusal::Length)?;
    check(batch_good(batch), Refusal::Invalid)?;
    check_named(named)
}

// Of Store.
#[tactic(auto, unfolding(aka::specs::Vlr::store_refusal, aka::specs::Vlr::refusal_or))]
pub fn store_refusal(vlr: Vlr, batch: Batch) -> Result<(), Refusal>
    ensures { refusal_in result ≡ spec.store_refusal (vlr_of vlr) (kind_of batch.entry.kind) batch.entry.count batch.entry.octets.now }
{
    batch_refusal(vlr, batch, !vlr.state.is_resyncing())?;
    check(has_room(vlr.held, batch.count), Refusal::Full)
}

// Of Ask.
#[tactic(auto, unfolding(aka::specs::Vlr::ask_refusal, aka::specs::Vlr::refusal_or))]
pub fn ask_refusal(vlr: Vlr) -> Result<(), Refusal>
    ensures { refusal_in result ≡ spec.ask_refusal (vlr_of vlr) }
{
    check_valid(vlr)?;
    check_named(vlr.state.is_idle())?;
    check(vlr.held != 0, Refusal::Empty)
}

// Of the operations in Asked but Sync; `sized`: the lent part, if any, has the length named.
#[tactic(auto, unfolding(aka::specs::Vlr::asked_refusal, aka::specs::Vlr::refusal_or))]
pub fn asked_refusal(vlr: Vlr, sized: bool) -> Result<(), Refusal>
    ensures { refusal_in result ≡ spec.asked_refusal (vlr_of vlr) sized }
{
    check_valid(vlr)?;
    check(sized, Refusal::Length)?;
    check_named(vlr.state.is_asked())
}

// Of Answer.
pub fn answer_refusal(vlr: Vlr, size: usize) -> Result<(), Refusal>
    ensures { refusal_in result ≡ spec.asked_refusal (vlr_of vlr) (spec.response_fits (vlr_of vlr) size) }
{
    asked_refusal(vlr, response_fits(vlr, size))
}

// Of Sync.
#[tactic(auto, unfolding(aka::specs::Vlr::sync_refusal, aka::specs::Vlr::refusal_or))]
pub fn sync_refusal(vlr: Vlr, auts: &[u8]) -> Result<(), Refusal>
    ensures { refusal_in result ≡ spec.sync_refusal (vlr_of vlr) auts.now }
{
    check_valid(vlr)?;
    check(auts.len() == aka::AUTS_SIZE, Refusal::Length)?;
    check_named(sync_named(vlr))
}

// Of Renew.
#[tactic(auto, unfolding(aka::specs::Vlr::renew_refusal))]
pub fn renew_refusal(vlr: Vlr, batch: Batch) -> Result<(), Refusal>
    ensures { refusal_in result ≡ spec.renew_refusal (vlr_of vlr) (kind_of batch.entry.kind) batch.entry.count batch.entry.octets.now }
{
    batch_refusal(vlr, batch, vlr.state.is_resyncing())
}

// Of Timeout.
#[tactic(auto, unfolding(aka::specs::Vlr::timeout_refusal, aka::specs::Vlr::refusal_or))]
pub fn timeout_refusal(vlr: Vlr) -> Result<(), Refusal>
    ensures { refusal_in result ≡ spec.timeout_refusal (vlr_of vlr) }
{
    check_valid(vlr)?;
    check_named(vlr.state.is_resyncing())
}
