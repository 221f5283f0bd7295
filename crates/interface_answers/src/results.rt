// The number that a call returns.
ghost use Rattle.std.specs.Prelude.{◌≡◌, ◌<◌, ◌^◌};
ghost use Rattle.interface_answers.specs.Results.{both as both_of, returned_of};

use aka::Refusal;

// The causes of TS 24.008. They are numbers, and no enum, since the C calls return them.
pub const MAC_FAILURE: u64 = 20;

pub const SYNCH_FAILURE: u64 = 21;

// Two numbers in one: the first in the low 8 bits, the second above them.
pub fn both(low: u64, high: u64) -> u64
    requires { (low < 2 ^ 8) × (high < 2 ^ 56) }
    ensures { result ≡ both_of low high }
{
    low + 256 * high
}

// What a call returns: the number that it answers, or its refusal's.
pub fn returned(answer: Result<u64, Refusal>) -> u64
    ensures { result ≡ returned_of answer }
{
    answer.unwrap_or_else(|refusal| refusal.number() as u64)
}
