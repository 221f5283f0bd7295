// An order or a resync: `order N R1 .. RN`, `resync N R1 .. RN`.
ghost use Rattle.std.specs.Prelude.{Some, None, cond, ltb, ◌≡◌, ◌+◌, ◌≤◌, length};
ghost use Rattle.aka.specs.Layout.{most_vectors};
ghost use Rattle.bench_reader.specs.Commands.{Word, alone, bad_line, batch_command, count_at, rand_fields, read_batch, resync_word};
ghost use Rattle.bench_reader.specs.Views.{batch_of};

use crate::rands::{RANDS_SIZE, Rands};

// The length of a RAND's field: a space and two digits for each octet.
const RAND_FIELD: usize = 1 + 2 * aka::RAND_SIZE;

// The count at a place of the line, 1 to 5.
#[tactic(auto, using(std::proofs::lemmas::Bool::Decides::nat_tests), unfolding(crate::specs::Commands::count_at))]
fn count_at(line: &[u8], at: usize) -> Option<u8>
    ensures { result ≡ cond (ltb 0 (count_at at line.now)) (Some (count_at at line.now)) None }
{
    match line.get(at) {
        Some(c @ b'1'..=b'5') => Some(*c - b'0'),
        _ => None,
    }
}

// Reads as many RANDs from a place of the line on.
fn read_rands(count: u8, line: &[u8], from: usize) -> Option<Rands>
    requires { (count ≤ most_vectors) × (from ≤ length resync_word + 1) }
    ensures { (word : Word) → batch_of word result
        ≡ cond (rand_fields count from line.now) (batch_command word count from line.now) (alone bad_line) }
{
    let mut octets = [0u8; RANDS_SIZE];
    for i in 0..count as usize {
        let start = aka::RAND_SIZE * i;
        let end = start + aka::RAND_SIZE;
        if !fields::hex_field(line, from + RAND_FIELD * i, &mut octets[start..end]) {
            return None;
        }
    }
    Some(Rands { count, octets })
}

// The count stands at a place of the line.
#[tactic(auto, using(crate::proofs::BatchForms::batch_forms))]
pub fn read_batch(line: &[u8], at: usize) -> Option<Rands>
    requires { at ≤ length resync_word }
    ensures { (word : Word) → batch_of word result ≡ read_batch word at line.now }
{
    let count = count_at(line, at)?;
    let from = at + 1;
    if line.len() != from + RAND_FIELD * count as usize {
        return None;
    }
    read_rands(count, line, from)
}
