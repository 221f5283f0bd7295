// AES-128 of vectors: each line of the standard input is `KEY PLAINTEXT` in lower-case hex, and its answer is the ciphertext, or `bad
// line`.
#![tactic(auto)]

ghost use Rattle.std.specs.Prelude.{ℕ, ◌*◌, ◌≤◌, ◌<◌, List, ◌≡◌, length, take};
ghost use Rattle.aes.specs.Cipher.{aes};
ghost use Rattle.console.specs.Turns.{Gives, Ran, standing_of};
ghost use Rattle.aes_vectors.specs.Answer.{answered, answer_text, line_answer, line_size, room, well_formed};

use aes::Cipher;
use console::{Console, Program, Progress};
use std::io::{Read, Write};

// The bytes of a line that is well formed.
const LINE_SIZE: usize = 65;

// Room for every answer.
const ROOM: usize = 33;

// One block under a key, as octets. It is not shared with `milenage: opc`, which has blocks: a public one would serve this program alone.
fn encrypted(key: [u8; 16], block: [u8; 16]) -> [u8; 16]
    ensures { result ≡ aes key block }
{
    Cipher::new(key.into()).encrypt(block.into()).into()
}

// Whether the line is well formed: then `out`, of 32 bytes, is the ciphertext in hex, and else as it was.
fn ciphertext(line: &[u8], out: &mut [u8]) -> bool
    requires { length out.old ≡ 32 }
    ensures answer { result ≡ well_formed line.now }
    ensures text { out.new ≡ answered out.old line.now }
{
    if line.len() != LINE_SIZE {
        return false;
    }
    let mut key = [0u8; 16];
    let mut block = [0u8; 16];
    if hex_digits::read(&line[..32], &mut key) & fields::hex_field(line, 32, &mut block) {
        return hex_digits::write(&encrypted(key, block), out);
    }
    false
}

// Writes the answer to a line to the front of `text`, which has room for it, and returns its length. The fact on the room stays in
// the contract: `text` is a lent buffer, whose size the caller of `console: answer_all` chooses, and a type for it would be no plainer.
fn write_answer(line: &[u8], text: &mut [u8]) -> usize
    requires { room ≤ length text.old }
    ensures { take result text.new ≡ answer_text line.now }
{
    let mut digits = [0u8; 32];
    if !ciphertext(line, &mut digits) {
        return console::append(text, 0, b"bad line\n");
    }
    let n = console::append(text, 0, &digits);
    console::append(text, n, b"\n")
}

// ---- the program

// The program has no state: no line changes the answers to others.
#[derive(Drop)]
pub struct Vectors;

impl Program for Vectors {
    ghost State = { Unit {0} };

    ghost state = { λ _. tt };

    ghost answers = { Gives line_answer };

    ghost room = { room };

    #[tactic(auto, unfolding(crate::specs::Answer::line_answer))]
    fn answer(&mut self, line: &[u8], text: &mut [u8]) -> usize {
        write_answer(line, text)
    }
}

// Answers every line of the input. The buffer of answers has room for two.
fn answer_all<R: Read, W: Write, E: Write>(
    console: &mut Console<R, W, E>,
    piece: &mut [u8],
    line: &mut [u8],
    out: &mut [u8],
) -> Progress
    requires line { line_size < length line.old }
    requires out { 2 * room ≤ length out.old }
    ensures { Ran (Gives line_answer) tt (length line.old) (length out.old)
        tt (standing_of piece.new line.new out.new result) }
{
    console::answer_all(&mut Vectors, console, piece, line, &mut [0u8; ROOM], out)
}

// Each program has its own length of a line and its own `answer_all`, with what it promises: so each has this and that.
// A line is held up to one byte more than a good line has, so that a longer one is seen to be longer.
fn main(rt: HostRuntime) {
    let mut console = Console {
        input: rt.stdin(),
        output: rt.stdout(),
        errors: rt.stderr(),
    };
    let mut piece = io::large_buffer();
    let mut line = [0u8; LINE_SIZE + 1];
    let mut out = io::large_buffer();
    answer_all(&mut console, &mut piece, &mut line, &mut out);
}
