// The bench: a card, a centre record and a node, driven by the lines of the standard input. Each line is answered by one line.
#![tactic(auto)]

ghost use Rattle.std.specs.Prelude.{ℕ, ◌*◌, ◌≤◌, ◌<◌, List, length};
ghost use Rattle.console.specs.Turns.{Gives, Ran, standing_of};
ghost use Rattle.bench_reader.specs.Commands.{longest};
ghost use Rattle.bench_writer.specs.Replies.{room};
ghost use Rattle.bench_core.specs.Bench as spec;
ghost use Rattle.bench_core.specs.Views.{bench_of};
ghost use Rattle.bench.specs.Program.{line_answer};

use bench_core::Bench;
use console::{Console, Program, Progress};
use std::io::{Read, Write};

// The bench that answers the lines.
#[derive(Drop)]
pub struct Desk {
    pub bench: Bench,
}

impl Program for Desk {
    ghost State = { spec.Bench };

    ghost state = { λ desk. bench_of desk.bench };

    ghost answers = { Gives line_answer };

    ghost room = { room };

    fn answer(&mut self, line: &[u8], text: &mut [u8]) -> usize {
        let stepped = bench_core::step(self.bench, line, text);
        self.bench = stepped.bench;
        stepped.size
    }
}

// The bench, and how far the program is.
#[derive(Clone, Copy, Drop)]
pub struct Turn {
    pub bench: Bench,
    pub progress: Progress,
}

// Answers every line of the input. The buffer of answers has room for two: a fact of the contract, since a program lends the buffer.
fn answer_all<R: Read, W: Write, E: Write>(
    console: &mut Console<R, W, E>,
    piece: &mut [u8],
    line: &mut [u8],
    out: &mut [u8],
) -> Turn
    requires line { longest < length line.old }
    requires out { 2 * room ≤ length out.old }
    ensures { Ran (Gives line_answer) spec.new_bench (length line.old) (length out.old)
        (bench_of result.bench) (standing_of piece.new line.new out.new result.progress) }
{
    let mut desk = Desk {
        bench: bench_core::new(),
    };
    let mut text = [0u8; bench_writer::ROOM];
    let progress = console::answer_all(&mut desk, console, piece, line, &mut text, out);
    Turn {
        bench: desk.bench,
        progress,
    }
}

// Each program has its own length of a line, its own `answer_all` and its own turn, with what it promises: so each has these.
// A line is held up to one byte more than the longest, so that a longer one is seen to be longer.
fn main(rt: HostRuntime) {
    let mut console = Console {
        input: rt.stdin(),
        output: rt.stdout(),
        errors: rt.stderr(),
    };
    let mut piece = io::large_buffer();
    let mut line = [0u8; bench_reader::LONGEST + 1];
    let mut out = io::large_buffer();
    answer_all(&mut console, &mut piece, &mut line, &mut out);
}
