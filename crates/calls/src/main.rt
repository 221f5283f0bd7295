// The public calls, one a line: a word, then fields with one space between. docs/CALLS.md has the words.
#![tactic(auto)]

mod auc_calls;
mod handset_calls;
mod image_calls;
mod usim_calls;
mod vlr_calls;

ghost use Rattle.std.specs.Prelude.{ℕ, ◌+◌, ◌*◌, ◌≤◌, ◌≡◌, List, length};
ghost use Rattle.aka.specs.Vlr as spec;
ghost use Rattle.vlr_record.specs.Views.{vlr_of};
ghost use Rattle.console.specs.Turns.{Ran, standing_of};
ghost use Rattle.call_lines.specs.Limits.{longest_answer};
ghost use Rattle.calls.specs.Program.{AnyAnswer};

use call_lines::{answer, call, text};
use console::{Console, Program, Progress};
use std::io::{Read, Write};
use vlr::Vlr;
use vlr_calls::Answered;

// The answer to a line, and the node for the next one.
fn answer_line(node: Vlr, line: &[u8]) -> Answered {
    let text = answer::answer::<usim_calls::Word>(line)
        .or_else(|| answer::answer::<auc_calls::Word>(line))
        .or_else(|| answer::answer::<handset_calls::Word>(line));
    match text {
        Some(text) => Answered { vlr: node, text },
        None => vlr_calls::answer(node, line),
    }
}

// The node that the calls drive.
#[derive(Drop)]
pub struct Desk {
    pub node: Vlr,
}

impl Desk {
    // Writes the text of an answer and a newline. The node that it left is the next line's.
    fn hand_on(&mut self, answered: Answered, text: &mut [u8]) -> usize
        ensures { vlr_of self.new.node ≡ vlr_of answered.vlr }
    {
        self.node = answered.vlr;
        let n = console::append(text, 0, answered.text.bytes());
        console::append(text, n, b"\n")
    }
}

impl Program for Desk {
    ghost State = { spec.Vlr };

    ghost state = { λ desk. vlr_of desk.node };

    ghost answers = { AnyAnswer };

    ghost room = { longest_answer + 1 };

    fn answer(&mut self, line: &[u8], text: &mut [u8]) -> usize {
        let answered = answer_line(self.node, line);
        self.hand_on(answered, text)
    }
}

// The node, and how far the program is.
#[derive(Drop)]
pub struct Turn {
    pub node: Vlr,
    pub progress: Progress,
}

// Answers every line of the input. The buffer of answers has room for two: a fact of the contract, since a program lends the buffer.
fn answer_all<R: Read, W: Write, E: Write>(
    console: &mut Console<R, W, E>,
    piece: &mut [u8],
    line: &mut [u8],
    out: &mut [u8],
) -> Turn
    requires { 2 * (longest_answer + 1) ≤ length out.old }
    ensures { Ran AnyAnswer spec.new_vlr (length line.old) (length out.old)
        (vlr_of result.node) (standing_of piece.new line.new out.new result.progress) }
{
    let mut desk = Desk { node: vlr::new() };
    let mut text = [0u8; text::LONGEST_ANSWER + 1];
    let progress = console::answer_all(&mut desk, console, piece, line, &mut text, out);
    Turn {
        node: desk.node,
        progress,
    }
}

// Each program has its own length of a line, its own `answer_all` and its own turn, with what it promises: so each has these.
// A line is held up to one byte more than the longest that is answered, so that a longer one is seen to be longer.
fn main(rt: HostRuntime) {
    let mut console = Console {
        input: rt.stdin(),
        output: rt.stdout(),
        errors: rt.stderr(),
    };
    let mut piece = io::large_buffer();
    let mut line = [0u8; call::LONGEST + 1];
    let mut out = io::large_buffer();
    answer_all(&mut console, &mut piece, &mut line, &mut out);
}
