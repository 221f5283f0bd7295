// A put line: `put SEQHE NEXT`.
ghost use Rattle.std.specs.Prelude.{Some, None, cond, ◌≡◌, ◌≤◌, length};
ghost use Rattle.fields.specs.Fields.{decimal};
ghost use Rattle.bench_reader.specs.Commands.{is_number, read_put, seqhe_at};
ghost use Rattle.bench_reader.specs.Views.{command_of};

use crate::Command;

// The place of SEQHE, and the most digits of the two numbers.
const SEQHE: usize = 4;

const SEQHE_DIGITS: usize = 13;

const NEXT_DIGITS: usize = 2;

// Reads a decimal number of at most so many digits.
#[tactic(auto, using(crate::proofs::PutForms::numbers), unfolding(fields::specs::Fields::number_in))]
fn number(text: &[u8], most: usize) -> Option<u64>
    ensures { result ≡ cond (is_number most text.now) (Some (decimal text.now)) None }
{
    if most < text.len() {
        return None;
    }
    fields::read_number(text)
}

// Reads a line that begins with "put ".
#[tactic(auto, using(crate::proofs::PutForms::put_forms))]
pub fn read_put(line: &[u8]) -> Option<Command>
    requires { seqhe_at ≤ length line.now }
    ensures { command_of result ≡ read_put line.now }
{
    let end = fields::field_end(line, SEQHE);
    if end == line.len() {
        return None;
    }
    let seqhe = number(&line[SEQHE..end], SEQHE_DIGITS)?;
    let next = number(&line[end + 1..], NEXT_DIGITS)?;
    Some(Command::Put { seqhe, next })
}
