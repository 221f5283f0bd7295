// The functions f1 to f5* of vectors: each line of the standard input is `SET K OPC RAND SQN AMF`, one digit and then lower-case hex, and
// its answer is `MAC MACS RES CK IK AK AKS`, `refused 1` for a set that is not known, or `bad line`.
#![tactic(auto)]

ghost use Rattle.std.specs.Prelude.{ℕ, ◌+◌, ◌*◌, ◌≤◌, ◌<◌, true, false, MatchOption, List, [], ◌∷◌, ◌++◌, ◌≡◌, length, take};
ghost use Rattle.octets.specs.Ascii.{ascii};
ghost use Rattle.hex_digits.specs.Hex.{hex};
ghost use Rattle.functions.specs.Sets.{sets};
ghost use Rattle.functions.specs.Challenge.{keys_of};
ghost use Rattle.console.specs.Turns.{Gives, Ran, standing_of};
ghost use Rattle.function_vectors.specs.Outputs.{Answers};
ghost use Rattle.function_vectors.specs.Answer.{line_answer, line_size, macs_size, room};
ghost use Rattle.function_vectors.specs.Answer.{answer_text, challenge_formed, keys_formed, keys_on, outputs_text, well_formed};
ghost use Rattle.function_vectors.specs.Challenge.{challenge_on};

use console::{Console, Program, Progress};
use functions::{Keys, PreparedKeys, ResAk};
use std::io::{Read, Write};

// Where the fields of a line begin, each with the space before it, and the bytes of a line that is well formed.
const K_AT: usize = 1;

const OPC_AT: usize = K_AT + 1 + 2 * aka::KEY_SIZE;

const RAND_AT: usize = OPC_AT + 1 + 2 * aka::KEY_SIZE;

const SQN_AT: usize = RAND_AT + 1 + 2 * aka::RAND_SIZE;

const AMF_AT: usize = SQN_AT + 1 + 2 * aka::SQN_SIZE;

const LINE_SIZE: usize = AMF_AT + 1 + 2 * aka::AMF_SIZE;

// The bytes of MAC, MAC-S and RES in an answer, each with the space behind it.
const MACS_SIZE: usize = 3 + 2 * (aka::MAC_SIZE + aka::MAC_SIZE + aka::RES_SIZE);

// Room for every answer.
const ROOM: usize = MACS_SIZE
    + 4
    + 2 * (aka::CK_SIZE + aka::IK_SIZE + aka::SQN_SIZE + aka::SQN_SIZE);

// ---- the outputs

#[derive(Drop)]
pub struct Outputs {
    pub mac: [u8; aka::MAC_SIZE],
    pub macs: [u8; aka::MAC_SIZE],
    pub res: [u8; aka::RES_SIZE],
    pub ck: [u8; aka::CK_SIZE],
    pub ik: [u8; aka::IK_SIZE],
    pub ak: [u8; aka::SQN_SIZE],
    pub aks: [u8; aka::SQN_SIZE],
}

#[derive(Drop)]
pub struct Challenge {
    pub rand: [u8; aka::RAND_SIZE],
    pub sqn: [u8; aka::SQN_SIZE],
    pub amf: [u8; aka::AMF_SIZE],
}

// The seven outputs under one subscriber's keys, with one key schedule and one T.
fn seven(keys: Keys, challenge: Challenge) -> Outputs
    ensures { Answers (sets.under (keys_of keys)) challenge.rand challenge.sqn challenge.amf result }
{
    let Challenge { rand, sqn, amf } = challenge;
    let keys = PreparedKeys::new(keys);
    let prepared = keys.prepare(rand);
    let mac = prepared.f1(sqn, amf);
    let macs = prepared.f1s(sqn, amf);
    let ResAk { res, ak } = prepared.f2_f5();
    let ck = prepared.f3();
    let ik = prepared.f4();
    let aks = prepared.f5s();
    Outputs {
        mac,
        macs,
        res,
        ck,
        ik,
        ak,
        aks,
    }
}

// Writes octets in hex, and the byte `end` behind them, to `text` from `used` on, and returns where they end.
fn put_hex(text: &mut [u8], used: usize, octets: &[u8], end: u8) -> usize
    requires { used + 2 * length octets.now + 1 ≤ length text.old }
    ensures end { result ≡ used + 2 * length octets.now + 1 }
    ensures text { take result text.new ≡ take used text.old ++ (hex octets.now ++ (end ∷ [])) }
{
    let last = used + 2 * octets.len();
    hex_digits::write(octets, &mut text[used..last]);
    text[last] = end;
    last + 1
}

// Writes MAC, MAC-S and RES to the front of the text.
fn put_macs(text: &mut [u8], o: &Outputs)
    requires { macs_size ≤ length text.old }
    ensures { take macs_size text.new
        ≡ (hex o.now.mac ++ ascii " ") ++ (hex o.now.macs ++ ascii " ") ++ (hex o.now.res ++ ascii " ") }
{
    let n = put_hex(text, 0, &o.mac, b' ');
    let n = put_hex(text, n, &o.macs, b' ');
    put_hex(text, n, &o.res, b' ');
}

// Writes CK, IK, AK and AK* behind them.
fn put_keys(text: &mut [u8], o: &Outputs) -> usize
    requires { room ≤ length text.old }
    ensures { take result text.new ≡ take macs_size text.old ++ (hex o.now.ck ++ ascii " ") ++ (hex o.now.ik ++ ascii " ")
        ++ (hex o.now.ak ++ ascii " ") ++ (hex o.now.aks ++ ascii "\n") }
{
    let n = put_hex(text, MACS_SIZE, &o.ck, b' ');
    let n = put_hex(text, n, &o.ik, b' ');
    let n = put_hex(text, n, &o.ak, b' ');
    put_hex(text, n, &o.aks, b'\n')
}

// Writes the outputs on one line to the front of the text, and returns its length.
fn put_outputs(text: &mut [u8], o: &Outputs) -> usize
    requires { room ≤ length text.old }
    ensures { take result text.new ≡ outputs_text o.now.mac o.now.macs o.now.res o.now.ck o.now.ik o.now.ak o.now.aks }
{
    put_macs(text, o);
    put_keys(text, o)
}

// ---- the line

// The keys on a line, where they are well formed.
#[tactic(auto, using(crate::proofs::Texts::keys_forms))]
fn read_keys(line: &[u8]) -> Option<Keys>
    requires { length line.now ≡ line_size }
    ensures { MatchOption result (keys_formed line.now ≡ false) (λ keys. (keys_formed line.now ≡ true)
        × (keys_of keys ≡ keys_on line.now)) }
{
    let digit @ b'0'..=b'9' = line[0] else {
        return None;
    };
    let mut k = [0u8; aka::KEY_SIZE];
    let mut opc = [0u8; aka::KEY_SIZE];
    let fields = fields::hex_field(line, K_AT, &mut k) & fields::hex_field(line, OPC_AT, &mut opc);
    if !fields {
        return None;
    }
    let set = digit - b'0';
    Some(Keys { set, k, opc })
}

// The challenge on a line, where it is well formed.
#[tactic(auto, using(crate::proofs::Texts::challenge_forms))]
fn read_challenge(line: &[u8]) -> Option<Challenge>
    ensures { MatchOption result (challenge_formed line.now ≡ false) (λ challenge. (challenge_formed line.now ≡ true)
        × (challenge ≡ challenge_on line.now)) }
{
    let mut rand = [0u8; aka::RAND_SIZE];
    let mut sqn = [0u8; aka::SQN_SIZE];
    let mut amf = [0u8; aka::AMF_SIZE];
    let fields = fields::hex_field(line, RAND_AT, &mut rand)
        & fields::hex_field(line, SQN_AT, &mut sqn)
        & fields::hex_field(line, AMF_AT, &mut amf);
    if !fields {
        return None;
    }
    Some(Challenge { rand, sqn, amf })
}

// What is on a line that is well formed.
#[tactic(auto, using(crate::proofs::Texts::forms))]
fn read_line(line: &[u8]) -> Option<(Keys, Challenge)>
    ensures { MatchOption result (well_formed line.now ≡ false)
        (λ on. (well_formed line.now ≡ true) × (keys_of on.0 ≡ keys_on line.now) × (on.1 ≡ challenge_on line.now)) }
{
    if line.len() != LINE_SIZE {
        return None;
    }
    Some((read_keys(line)?, read_challenge(line)?))
}

// Writes the answer to a line to the front of `text`, which has room for it, and returns its length. The form of a line comes before its
// set. The fact on the room stays in this contract and those above: `text` is a lent buffer, whose size the caller of `console: answer_all`
// chooses, and a type for it would be no plainer.
fn write_answer(line: &[u8], text: &mut [u8]) -> usize
    requires { room ≤ length text.old }
    ensures { take result text.new ≡ answer_text line.now }
{
    let Some((keys, challenge)) = read_line(line) else {
        return console::append(text, 0, b"bad line\n");
    };
    if !functions::is_known(keys.set) {
        return console::append(text, 0, b"refused 1\n");
    }
    put_outputs(text, &seven(keys, challenge))
}

// ---- the program

// The program has no state: no line changes the answers to others.
#[derive(Drop)]
pub struct Vectors;

impl Program for Vectors {
    ghost State = { Unit {0} };

    ghost state = { λ _. tt };

    ghost answers = { Gives line_answer };

    ghost room = { room };

    #[tactic(auto, unfolding(crate::specs::Answer::line_answer))]
    fn answer(&mut self, line: &[u8], text: &mut [u8]) -> usize {
        write_answer(line, text)
    }
}

// Answers every line of the input. The buffer of answers has room for two.
fn answer_all<R: Read, W: Write, E: Write>(
    console: &mut Console<R, W, E>,
    piece: &mut [u8],
    line: &mut [u8],
    out: &mut [u8],
) -> Progress
    requires line { line_size < length line.old }
    requires out { 2 * room ≤ length out.old }
    ensures { Ran (Gives line_answer) tt (length line.old) (length out.old)
        tt (standing_of piece.new line.new out.new result) }
{
    console::answer_all(&mut Vectors, console, piece, line, &mut [0u8; ROOM], out)
}

// Each program has its own length of a line and its own `answer_all`, with what it promises: so each has this and that.
// A line is held up to one byte more than a good line has, so that a longer one is seen to be longer.
fn main(rt: HostRuntime) {
    let mut console = Console {
        input: rt.stdin(),
        output: rt.stdout(),
        errors: rt.stderr(),
    };
    let mut piece = io::large_buffer();
    let mut line = [0u8; LINE_SIZE + 1];
    let mut out = io::large_buffer();
    answer_all(&mut console, &mut piece, &mut line, &mut out);
}
