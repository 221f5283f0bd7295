// The lines of the bench: what they can ask for, and how any line is read.
#![tactic(auto)]

mod batch_form;
mod key_form;
mod put_form;
mod rands;

ghost use Rattle.std.specs.Prelude.{◌≡◌};
ghost use Rattle.bench_reader.specs.Commands.{is_word as is_word_of, read as read_line, read_form};
ghost use Rattle.bench_reader.specs.Views.{command_of};

use functions::Keys;
pub use rands::{RANDS_SIZE, Rands};

// The longest line that is no bad line, in bytes.
pub const LONGEST: usize = 512;

// What a line asks for, with what its word names.
#[derive(Clone, Copy, Drop)]
pub enum Command {
    Key {
        keys: Keys,
        amf: [u8; aka::AMF_SIZE],
    },
    Order(Rands),
    Ask,
    Put {
        seqhe: u64,
        next: u64,
    },
    Resync(Rands),
    Show,
}

// Whether the line is the word and nothing else. A `match` on the bytes of the line was tried: its proof did not close.
#[tactic(auto, unfolding(crate::specs::Commands::is_word))]
fn is_word(line: &[u8], word: &[u8]) -> bool
    ensures { result ≡ is_word_of word.now line.now }
{
    line.len() == word.len() && fields::begins(line, word)
}

// Reads a line by its word.
#[tactic(auto, using(crate::proofs::Choices::begins_length), unfolding(crate::specs::Commands::read_form))]
fn read_form(line: &[u8]) -> Option<Command>
    ensures { command_of result ≡ read_form line.now }
{
    if fields::begins(line, b"key ") {
        return key_form::read_key(line);
    }
    if fields::begins(line, b"order ") {
        return Some(Command::Order(batch_form::read_batch(line, 6)?));
    }
    if fields::begins(line, b"resync ") {
        return Some(Command::Resync(batch_form::read_batch(line, 7)?));
    }
    if fields::begins(line, b"put ") {
        return put_form::read_put(line);
    }
    if is_word(line, b"ask") {
        return Some(Command::Ask);
    }
    if is_word(line, b"show") {
        return Some(Command::Show);
    }
    None
}

// Reads a line of any bytes and any length; none is a bad line.
#[tactic(auto, unfolding(crate::specs::Commands::read))]
pub fn read(line: &[u8]) -> Option<Command>
    ensures { command_of result ≡ read_line line.now }
{
    if LONGEST < line.len() {
        return None;
    }
    read_form(line)
}
