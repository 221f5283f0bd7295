// A key line: `key S K OPC AMF`.
ghost use Rattle.std.specs.Prelude.{Some, None, cond, ◌≡◌};
ghost use Rattle.fields.specs.Fields.{is_hex_field, octets_in};
ghost use Rattle.bench_reader.specs.Commands.{read_key};
ghost use Rattle.bench_reader.specs.Views.{command_of};

use crate::Command;
use functions::Keys;

// The length of a field of K or OPc: a space and two digits for each octet; and of AMF.
const KEY_FIELD: usize = 1 + 2 * aka::KEY_SIZE;

const AMF_FIELD: usize = 1 + 2 * aka::AMF_SIZE;

// The place of the set, of the spaces before K, OPc and AMF, and the length of the line.
const SET: usize = 4;

const K: usize = SET + 1;

const OPC: usize = K + KEY_FIELD;

const AMF: usize = OPC + KEY_FIELD;

const KEY_LINE: usize = AMF + AMF_FIELD;

// The octets of the hex field at a place of the line.
#[tactic(auto, using(crate::proofs::KeyForms::octets_read))]
fn octets<const N: usize>(line: &[u8], at: usize) -> Option<[u8; N]>
    ensures { result ≡ cond (is_hex_field N at line.now) (Some (octets_in N at line.now)) None }
{
    let mut out = [0u8; N];
    if !fields::hex_field(line, at, &mut out) {
        return None;
    }
    Some(out)
}

#[tactic(auto, using(crate::proofs::KeyForms::key_forms))]
pub fn read_key(line: &[u8]) -> Option<Command>
    ensures { command_of result ≡ read_key line.now }
{
    if line.len() != KEY_LINE {
        return None;
    }
    let digit @ b'0'..=b'9' = line[SET] else {
        return None;
    };
    let k = octets(line, K)?;
    let opc = octets(line, OPC)?;
    let amf = octets(line, AMF)?;
    let keys = Keys {
        set: digit - b'0',
        k,
        opc,
    };
    Some(Command::Key { keys, amf })
}
