// The bench line by line (document 01: 'The bench program').
#![tactic(auto)]

ghost use Rattle.std.specs.Prelude.{◌≡◌};
ghost use Rattle.functions.specs.Challenge.{keys_of};
ghost use Rattle.bench_reader.specs.Views.{command_of};
ghost use Rattle.bench_desk.specs.Desk as desks;
ghost use Rattle.bench_desk.specs.Views.{desk_answer_of, desk_of};
ghost use Rattle.bench_core.specs.Bench as spec;
ghost use Rattle.bench_core.specs.Views.{bench_answer_of, bench_of, stepped_of};

use bench_desk::Desk;
use bench_reader::{Command, Rands};
use bench_writer::Reply;
use functions::Keys;

// The octets of a batch of the most vectors.
const BATCH_SIZE: usize = aka::VECTOR_SIZE * (aka::MOST_VECTORS as usize);

// `keyed`: a key was taken. `failed`: since then a synchronisation failure brought an AUTS; the desk has it. The desk is no Option, since
// `step` takes a bench with any desk, before the first key too.
#[derive(Clone, Copy, Drop)]
pub struct Bench {
    pub keyed: bool,
    pub failed: bool,
    pub desk: Desk,
}

// The bench after a line, and the length of its answer.
#[derive(Clone, Copy, Drop)]
pub struct Stepped {
    pub bench: Bench,
    pub size: usize,
}

// Before the first line: no key was taken.
pub fn new() -> Bench
    ensures { bench_of result ≡ spec.new_bench }
{
    let keys = Keys {
        set: 0,
        k: [0; aka::KEY_SIZE],
        opc: [0; aka::KEY_SIZE],
    };
    Bench {
        keyed: false,
        failed: false,
        desk: bench_desk::new(keys, [0; aka::AMF_SIZE]),
    }
}

#[tactic(auto, unfolding(crate::specs::Bench::bad_line))]
fn bad_line(bench: Bench) -> (Bench, Reply)
    ensures { bench_answer_of result ≡ spec.bad_line (bench_of bench) }
{
    (bench, Reply::BadLine)
}

// A key that is taken makes everything new.
#[tactic(auto, unfolding(crate::specs::Bench::key))]
fn key(bench: Bench, keys: Keys, amf: [u8; aka::AMF_SIZE]) -> (Bench, Reply)
    ensures { bench_answer_of result ≡ spec.key (bench_of bench) (keys_of keys) amf }
{
    if !functions::admits(bench_desk::EDITION, keys) {
        return (bench, Reply::Refused(aka::Refusal::Invalid.number() as u64));
    }
    let next = Bench {
        keyed: true,
        failed: false,
        desk: bench_desk::new(keys, amf),
    };
    (next, Reply::KeyOk)
}

// The bench after a step of the desk: there is an AUTS if there was one before, or if the step that answered so brought one.
#[tactic(auto, unfolding(crate::specs::Bench::on_desk, crate::specs::Bench::is_sync))]
fn on_desk(bench: Bench, a: (Desk, Reply)) -> (Bench, Reply)
    ensures { bench_answer_of result ≡ spec.on_desk (bench_of bench) (desk_answer_of a) }
{
    let (desk, reply) = a;
    let failed = bench.failed || matches!(reply, Reply::Sync);
    let next = Bench {
        failed,
        desk,
        ..bench
    };
    (next, reply)
}

// An order, and a resync with the last AUTS. They differ in the call; to pass that as a closure would take more lines than it saves.
fn order(desk: Desk, rands: Rands) -> (Desk, Reply)
    ensures { desk_answer_of result
        ≡ desks.order (desk_of desk) rands.count (spec.rands_for rands.count rands.octets) (spec.room_for rands.count) }
{
    let mut batch = [0u8; BATCH_SIZE];
    let room = &mut batch[..aka::VECTOR_SIZE * rands.count as usize];
    bench_supply::order(desk, rands.count, rands.given(), room)
}

fn resync(desk: Desk, rands: Rands) -> (Desk, Reply)
    ensures { desk_answer_of result
        ≡ desks.resync (desk_of desk) rands.count (spec.rands_for rands.count rands.octets) (spec.room_for rands.count) }
{
    let mut batch = [0u8; BATCH_SIZE];
    let room = &mut batch[..aka::VECTOR_SIZE * rands.count as usize];
    bench_supply::resync(desk, rands.count, rands.given(), room)
}

// What a command does. Before the first key taken, key alone does anything; a resync wants an AUTS since then.
#[tactic(auto, unfolding(crate::specs::Bench::answer_to, bench_reader::specs::Commands::alone, bench_reader::specs::Commands::put_command))]
fn answer_to(bench: Bench, command: Option<Command>) -> (Bench, Reply)
    ensures { bench_answer_of result ≡ spec.answer_to (bench_of bench) (command_of command) (command_of command).word }
{
    match command {
        None => bad_line(bench),
        Some(Command::Key { keys, amf }) => key(bench, keys, amf),
        Some(_) if !bench.keyed => bad_line(bench),
        Some(Command::Order(rands)) => on_desk(bench, order(bench.desk, rands)),
        Some(Command::Ask) => on_desk(bench, bench_ask::ask(bench.desk)),
        Some(Command::Put { seqhe, next }) => on_desk(
            bench,
            bench_desk::put(bench.desk, seqhe, next),
        ),
        Some(Command::Resync(_)) if !bench.failed => bad_line(bench),
        Some(Command::Resync(rands)) => on_desk(bench, resync(bench.desk, rands)),
        Some(Command::Show) => on_desk(bench, bench_desk::show(bench.desk)),
    }
}

// One line of any bytes and any length: the bench after it, its answer at the front of `out`, and the length of the answer. Where `out` has
// less than `bench_writer::ROOM` bytes, nothing is done.
#[tactic(auto, using(crate::proofs::Answers::step_is, crate::proofs::Answers::stepped_is), unfolding(crate::specs::Bench::stepped))]
pub fn step(bench: Bench, line: &[u8], out: &mut [u8]) -> Stepped
    ensures { stepped_of result out.new ≡ spec.stepped (bench_of bench) line.now out.old }
{
    if out.len() < bench_writer::ROOM {
        return Stepped { bench, size: 0 };
    }
    let (next, reply) = answer_to(bench, bench_reader::read(line));
    Stepped {
        bench: next,
        size: bench_writer::write(reply, out),
    }
}
