// One place of the serving node (document 01: node place), and what its run gives: the octet of its kind, then a vector, or a triplet and
// zeros behind it.
#![tactic(auto)]

ghost use Rattle.std.specs.Prelude.{cond, ◌≡◌, ◌*◌, ◌+◌, ◌≤◌, length};
ghost use Rattle.octets.specs.Octets.{equal, part, zeros};
ghost use Rattle.aka.specs.Layout.{item_size, kind_octet, kind_size};
ghost use Rattle.aka.specs.Vlr.{all_zero, good_place, item_of, kind_in, most_held, place_size, placed, res_size_of, run_in};
ghost use Rattle.vlr_places.specs.Views.{is_kind, kind_of};

// A place, held or outstanding.
pub type Place = [u8; aka::PLACE_SIZE];

// ---- the kinds

// What a place holds: an authentication vector, or a triplet for a GSM phone.
#[derive(Clone, Copy, PartialEq, Eq)]
pub enum Kind {
    Vector = aka::VECTOR_KIND as isize,
    Triplet = aka::TRIPLET_KIND as isize,
}

impl Kind {
    fn octet(self) -> u8
        ensures { result ≡ kind_octet (kind_of self) }
    {
        self as u8
    }

    // By cases, as the size of a response below: the discriminant is the octet of the kind.
    pub fn item_size(self) -> usize
        ensures { result ≡ item_size (kind_of self) }
    {
        match self {
            Kind::Vector => aka::VECTOR_SIZE,
            Kind::Triplet => aka::TRIPLET_SIZE,
        }
    }

    // The octets of the response that passes: XRES or SRES.
    pub fn response_size(self) -> usize
        ensures { result ≡ res_size_of (kind_of self) }
    {
        match self {
            Kind::Vector => aka::RES_SIZE,
            Kind::Triplet => aka::SRES_SIZE,
        }
    }
}

// The kind of what the place has. One without an item counts as a vector's. No TryFrom: any other octet counts as a triplet's.
pub fn kind_in(place: Place) -> Kind
    ensures { kind_of result ≡ kind_in place }
{
    if place[0] == aka::VECTOR_KIND {
        Kind::Vector
    } else {
        Kind::Triplet
    }
}

// ---- tests

// All octets are looked at, whatever they are: without an early end the compiler takes many at a time.
pub fn all_zero(x: &[u8]) -> bool
    ensures { result ≡ all_zero x.now }
{
    x.iter().fold(0, |found, octet| found | octet) == 0
}

// Whether a place in use is as it should be: kind 0 or 1, and zeros behind a triplet. By the octet and not by `Kind`, since it may be any.
#[tactic(auto, using(crate::proofs::Items::good_vector, crate::proofs::Items::good_triplet, crate::proofs::Items::bad_kind))]
pub fn is_good(place: &[u8]) -> bool
    requires { length place.now ≡ place_size }
    ensures { result ≡ good_place place.now }
{
    match place[0] {
        aka::VECTOR_KIND => true,
        aka::TRIPLET_KIND => all_zero(&place[aka::KIND_SIZE + aka::TRIPLET_SIZE..]),
        _ => false,
    }
}

// ---- an item in its place

fn placed_item(kind: Kind, item: &[u8]) -> Place
    requires { length item.now ≡ item_size (kind_of kind) }
    ensures { result ≡ placed (kind_of kind) item.now }
{
    let mut place = [0u8; aka::PLACE_SIZE];
    place[0] = kind.octet();
    octets::put(&mut place, aka::KIND_SIZE, item);
    place
}

// A batch: `count` items of one kind, one behind the other. It may have any octets: vlr_refusals has the tests.
#[derive(Clone, Copy)]
pub struct Batch<'a> {
    pub kind: Kind,
    pub count: u64,
    pub octets: &'a [u8],
}

impl Batch<'_> {
    // Item k, in its place.
    pub fn placed(self, k: usize) -> Place
        requires few { k ≤ most_held }
        requires inside { item_size (kind_of self.kind) * k + item_size (kind_of self.kind) ≤ length self.octets.now }
        ensures { result ≡ placed (kind_of self.entry.kind) (item_of (kind_of self.entry.kind) self.entry.octets.now k) }
    {
        let size = self.kind.item_size();
        let at = size * k;
        placed_item(self.kind, &self.octets[at..at + size])
    }
}

// ---- the run with a place (specs/Vlr): what is asked, the response that passes, and the keys

// N octets of the item, from `at` on, where it is of this kind; else zeros, for the other kind has no such part.
fn of_kind<const N: usize>(place: Place, kind: Kind, at: usize) -> [u8; N]
    requires { kind_size + at + N ≤ place_size }
    ensures { result ≡ cond (is_kind kind (kind_in place)) (part (kind_size + at) N place) (zeros N) }
{
    if kind_in(place) != kind {
        return [0; N];
    }
    let at = aka::KIND_SIZE + at;
    octets::array(&place[at..at + N])
}

// It stands first in either item.
#[tactic(auto, using(crate::proofs::Items::rand_is))]
pub fn rand(place: Place) -> [u8; aka::RAND_SIZE]
    ensures { result ≡ (run_in place).rand }
{
    octets::array(&place[aka::KIND_SIZE..aka::KIND_SIZE + aka::RAND_SIZE])
}

#[tactic(auto, using(crate::proofs::Items::autn_is))]
pub fn autn(place: Place) -> [u8; aka::AUTN_SIZE]
    ensures { result ≡ (run_in place).autn }
{
    of_kind(place, Kind::Vector, aka::AUTN_AT)
}

#[tactic(auto, using(crate::proofs::Items::ck_is))]
pub fn ck(place: Place) -> [u8; aka::CK_SIZE]
    ensures { result ≡ (run_in place).ck }
{
    of_kind(place, Kind::Vector, aka::CK_AT)
}

#[tactic(auto, using(crate::proofs::Items::ik_is))]
pub fn ik(place: Place) -> [u8; aka::IK_SIZE]
    ensures { result ≡ (run_in place).ik }
{
    of_kind(place, Kind::Vector, aka::IK_AT)
}

#[tactic(auto, using(crate::proofs::Items::kc_is))]
pub fn kc(place: Place) -> [u8; aka::KC_SIZE]
    ensures { result ≡ (run_in place).kc }
{
    of_kind(place, Kind::Triplet, aka::KC_AT)
}

// Whether a response passes. XRES and SRES stand at one place of their items.
#[tactic(auto, using(crate::proofs::Items::response_is))]
pub fn is_response(place: Place, res: &[u8]) -> bool
    requires { length res.now ≡ res_size_of (kind_in place) }
    ensures { result ≡ equal res.now (run_in place).response }
{
    let at = aka::KIND_SIZE + aka::XRES_AT;
    octets::equal_without_early_end(res, &place[at..at + kind_in(place).response_size()])
}
