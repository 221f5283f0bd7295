// What programs that answer lines share: one piece of the input at a time, a buffer for the line, and one in which answers wait until
// they are written out. A program's loop is `advance`, then its own answer where the line is whole, until `is_ended`. All that no
// contract can say lies in `write_due` and `fetch`: what a read brought, whether a write arrived, and that it was of the bytes due.
#![tactic(auto)]

ghost use Rattle.std.specs.Prelude.{ℕ, ◌*◌, ◌/◌, ◌≤◌, Bool, true, false, ◌&&◌, ◌||◌, not, cond, List, ◌≡◌};
ghost use Rattle.std.specs.Prelude.{eqb, ltb, length, take, drop, IfOk};
ghost use Rattle.io.specs.Counts.{IsPrefixLen};
ghost use Rattle.console.specs.Buffers.{appended, buffer_of};
ghost use Rattle.console.specs.Lines.{up_to_newline};
ghost use Rattle.console.specs.Turns.{AnsweredIf, Answering, Ran};
ghost use Rattle.console.specs.Turns.{advanced, due, ended_at, exchanged, standing_of, stopped, part_taken};

use std::io::{self, Read, Write};

const NEWLINE: u8 = 10;

// ---- parts of buffers

// The first `n` bytes; all, where there are fewer.
pub fn first_bytes<'a>(bytes: &'a [u8], n: usize) -> &'a [u8]
    ensures { result.now ≡ take n bytes.now }
{
    &bytes[..n.min(bytes.len())]
}

// Puts `part` behind the first `used` bytes of `buffer`, as far as there is room, and returns how many are used then.
pub fn append(buffer: &mut [u8], used: usize, part: &[u8]) -> usize
    ensures { buffer_of result buffer.new ≡ appended buffer.old used part.now }
{
    let from = used.min(buffer.len());
    let n = part.len().min(buffer.len() - from);
    from + octets::copy(&part[..n], &mut buffer[from..])
}

// How many bytes stand before the first newline; all, where there is none.
fn up_to_newline(bytes: &[u8]) -> usize
    ensures { result ≡ length (up_to_newline bytes.now) }
{
    bytes
        .iter()
        .position(|c| *c == NEWLINE)
        .unwrap_or(bytes.len())
}

// ---- how far a program is

// The part of the piece from `at` up to `size` is not taken yet, `held` counts the bytes of the line, and `used` those that wait to be
// written out. `ready` says that the line is whole, `over` that the input has ended, and `failed` that a write failed.
// The three marks are no enum, since any of them may hold beside another.
// The three buffers stay slices beside it: each function below is lent those that it reads or writes, and a program chooses their sizes.
#[derive(Clone, Copy, Drop)]
pub struct Progress {
    at: usize,
    size: usize,
    pub held: usize,
    used: usize,
    pub ready: bool,
    over: bool,
    failed: bool,
}

// Before the first read.
pub fn begin() -> Progress
    ensures { result ≡ record { at = 0; size = 0; held = 0; used = 0; ready = false; over = false; failed = false } }
{
    Progress {
        at: 0,
        size: 0,
        held: 0,
        used: 0,
        ready: false,
        over: false,
        failed: false,
    }
}

// Whether the program is at its end: a write failed, or the input is over and all is answered and written out.
pub fn is_ended(p: Progress) -> bool
    ensures { result ≡ ended_at p }
{
    p.failed || (p.over && !p.ready && p.used == 0)
}

// What is not taken yet of the piece.
fn untaken<'a>(piece: &'a [u8], p: Progress) -> &'a [u8]
    ensures { result.now ≡ drop p.at (take p.size piece.now) }
{
    let came = first_bytes(piece, p.size);
    &came[p.at.min(came.len())..]
}

// ---- what is written out

// How many of the `waiting` bytes in a buffer of `room` are due, where `left` bytes of the piece are not taken yet: all where it is used
// up, so that a person who types is answered before the next read, and where more than half of the buffer is used, so that the next
// answer has room.
fn count_due(left: usize, waiting: usize, room: usize) -> usize
    ensures { result ≡ cond (eqb left 0 || ltb (room / 2) waiting) waiting 0 }
{
    if left == 0 || room / 2 < waiting {
        waiting
    } else {
        0
    }
}

// The answers that are due: of those that wait in `out` all or none.
fn due_part<'a>(piece: &[u8], out: &'a [u8], p: Progress) -> &'a [u8]
    ensures { (line : List ℕ) → result.now
        ≡ due (length out.now) (standing_of piece.now line out.now p) }
{
    let left = untaken(piece, p).len();
    let waiting = first_bytes(out, p.used);
    first_bytes(waiting, count_due(left, waiting.len(), out.len()))
}

// ---- outside

// The reader and the two writers of a program.
#[derive(Drop)]
pub struct Console<R, W, E> {
    pub input: R,
    pub output: W,
    pub errors: E,
}

// Hands what is due to the writer, and answers how many bytes that is where they arrived. Where it is nothing, no call is made.
fn write_due<W: Write>(output: &mut W, piece: &[u8], out: &[u8], p: Progress) -> io::Result<usize>
    ensures { (line : List ℕ) → IfOk result (λ n. n
        ≡ length (due (length out.now) (standing_of piece.now line out.now p))) }
{
    let bytes = due_part(piece, out, p);
    output.write_all(bytes)?;
    Ok(bytes.len())
}

// One read, so that a line that is typed is answered at once. How many bytes came to the front of `piece`: none at the end of the input, or
// where the read fails.
fn fetch<R: Read>(input: &mut R, piece: &mut [u8]) -> usize
    ensures { IsPrefixLen result piece.new }
{
    input.read(piece).unwrap_or(0)
}

// ---- a turn

// Writes out what is due, and reads the next piece where the last one is used up. What was written out no longer waits. A write that
// fails is told on the writer for errors, and nothing is read.
fn exchange<R: Read, W: Write, E: Write>(
    console: &mut Console<R, W, E>,
    piece: &mut [u8],
    out: &[u8],
    p: Progress,
) -> Progress
    ensures { (line : List ℕ) → standing_of piece.new line out.now result
        ≡ cond result.failed (stopped (standing_of piece.old line out.now p))
        (exchanged (length out.now) (standing_of piece.old line out.now p)
        (take result.size piece.new)) }
{
    let left = untaken(piece, p).len();
    let waiting = first_bytes(out, p.used).len();
    let Ok(written) = write_due(&mut console.output, piece, out, p) else {
        let _ = console.errors.write_all(b"the answers cannot be written\n");
        return Progress { failed: true, ..p };
    };
    let used = waiting - written;
    if left != 0 || p.over {
        return Progress {
            used,
            failed: false,
            ..p
        };
    }
    let size = fetch(&mut console.input, piece);
    Progress {
        at: 0,
        size,
        used,
        over: size == 0,
        failed: false,
        ..p
    }
}

// Takes the rest of the line, as far as the piece has it. At the end of the input, bytes that no newline ended are a line.
fn take_part(piece: &[u8], line: &mut [u8], p: Progress) -> Progress
    ensures standing { (out : List ℕ) → standing_of piece.now line.new out result
        ≡ part_taken (length line.old) (standing_of piece.now line.old out p) }
    ensures size { result.size ≡ p.size }
{
    let rest = untaken(piece, p);
    let n = up_to_newline(rest);
    let held = append(line, p.held, &rest[..n]);
    let last = first_bytes(piece, p.size).len();
    Progress {
        at: p.at.min(last) + n + 1,
        held,
        ready: n < rest.len() || (p.over && 0 < held),
        ..p
    }
}

// A turn, up to the answer: writes out, reads and takes what is next. Where the line is whole after it, the line buffer begins with
// `held` bytes of it: all, or as many as the buffer has. What stands behind them, and in the piece outside what is not taken yet, is free.
pub fn advance<R: Read, W: Write, E: Write>(
    console: &mut Console<R, W, E>,
    piece: &mut [u8],
    line: &mut [u8],
    out: &[u8],
    p: Progress,
) -> Progress
    ensures { standing_of piece.new line.new out.now result
        ≡ advanced (length line.old) (length out.now)
        (standing_of piece.old line.old out.now p) result.failed (take result.size piece.new) }
{
    let met = exchange(console, piece, out, p);
    if met.failed {
        return met;
    }
    take_part(piece, line, met)
}

// The text of an answer goes behind those that wait, as far as there is room, and the next line begins.
pub fn put_answer(out: &mut [u8], p: Progress, text: &[u8]) -> Progress
    ensures bytes { buffer_of result.used out.new ≡ appended out.old p.used text.now }
    ensures progress { result
        ≡ record { at = p.at; size = p.size; held = 0; used = result.used; ready = false; over = p.over; failed = p.failed } }
{
    let used = append(out, p.used, text);
    Progress {
        held: 0,
        used,
        ready: false,
        ..p
    }
}

// ---- the loop

// A program's own part: its state, and the answer to a line.
pub trait Program {
    ghost State: { Type 0 };

    ghost state: { Self → State };

    // which text and which next state a line may have
    ghost answers: { Answering State };

    // the bytes that an answer has room in
    ghost room: { ℕ };

    // Writes the answer to a line to the front of `text`, and returns its length.
    fn answer(&mut self, line: &[u8], text: &mut [u8]) -> usize
        requires { room ≤ length text.old }
        ensures { answers (state self.old) line.now (take result text.new) (state self.new) };
}

// Answers the line where it is whole. The buffer of answers has room for two.
fn answer<P: Program>(
    program: &mut P,
    line: &[u8],
    text: &mut [u8],
    out: &mut [u8],
    p: Progress,
) -> Progress
    requires text { P.room ≤ length text.old }
    requires out { 2 * length text.old ≤ length out.old }
    ensures { (piece : List ℕ) → AnsweredIf p.ready P.answers (length out.old)
        (P.state program.old) (standing_of piece line.now out.old p)
        (P.state program.new) (standing_of piece line.now out.new result) }
{
    if !p.ready {
        return p;
    }
    let size = program.answer(first_bytes(line, p.held), text);
    put_answer(out, p, first_bytes(text, size))
}

// Answers every line of the input. A proved loop has to end, so this one has a last turn, which no run comes to.
pub fn answer_all<P: Program, R: Read, W: Write, E: Write>(
    program: &mut P,
    console: &mut Console<R, W, E>,
    piece: &mut [u8],
    line: &mut [u8],
    text: &mut [u8],
    out: &mut [u8],
) -> Progress
    requires text { P.room ≤ length text.old }
    requires out { 2 * length text.old ≤ length out.old }
    ensures { Ran P.answers (P.state program.old) (length line.old) (length out.old)
        (P.state program.new) (standing_of piece.new line.new out.new result) }
{
    let mut p = begin();
    for _ in 0..u64::MAX {
        p = advance(console, piece, line, out, p);
        if is_ended(p) {
            return p;
        }
        p = answer(program, line, text, out, p);
    }
    p
}
