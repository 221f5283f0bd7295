// The octets of AUTN and AUTS, and the SQN in them: what USIM and AuC share.
#![tactic(auto)]

ghost use Rattle.std.specs.Prelude.{◌≡◌, ◌<◌};
ghost use Rattle.octets.specs.Octets.{xor, equal, encode, decode};
ghost use Rattle.aka.specs.Layout.{sqn_size, read_autn, write_autn, read_auts, write_auts};
ghost use Rattle.aka.specs.Sequence.{FitsSqn};

// The number that the octets of an SQN spell.
pub fn sqn_number(x: [u8; aka::SQN_SIZE]) -> u64
    ensures { (result ≡ decode x) × FitsSqn result }
{
    let [a, b, c, d, e, f] = x;
    u64::from_be_bytes([0, 0, a, b, c, d, e, f])
}

// A number as the octets of an SQN.
pub fn sqn_octets(x: u64) -> [u8; aka::SQN_SIZE]
    ensures { result ≡ encode sqn_size x }
{
    let [_, _, a, b, c, d, e, f] = x.to_be_bytes();
    [a, b, c, d, e, f]
}

// SQN, which AUTN conceals with AK.
pub fn sqn_in(autn: [u8; aka::AUTN_SIZE], ak: [u8; aka::SQN_SIZE]) -> [u8; aka::SQN_SIZE]
    ensures { result ≡ xor (read_autn autn).concealed ak }
{
    octets::xor(octets::piece(autn, 0), ak)
}

// The AMF of AUTN.
pub fn amf_in(autn: [u8; aka::AUTN_SIZE]) -> [u8; aka::AMF_SIZE]
    ensures { result ≡ (read_autn autn).amf }
{
    octets::piece(autn, aka::AMF_AT)
}

// AUTS: SQN_MS concealed with AK*, then MAC-S.
pub fn auts(
    sqnms: [u8; aka::SQN_SIZE],
    akstar: [u8; aka::SQN_SIZE],
    macs: [u8; aka::MAC_SIZE],
) -> [u8; aka::AUTS_SIZE]
    ensures { result ≡ write_auts (record { concealed = xor sqnms akstar; mac = macs }) }
{
    let mut auts = [0; aka::AUTS_SIZE];
    octets::put(&mut auts, 0, &octets::xor(sqnms, akstar));
    octets::put(&mut auts, aka::MAC_S_AT, &macs);
    auts
}

// AUTN: SQN concealed with AK, then AMF and MAC.
pub fn autn(
    sqn: [u8; aka::SQN_SIZE],
    ak: [u8; aka::SQN_SIZE],
    amf: [u8; aka::AMF_SIZE],
    mac: [u8; aka::MAC_SIZE],
) -> [u8; aka::AUTN_SIZE]
    ensures { result ≡ write_autn (record { concealed = xor sqn ak; amf = amf; mac = mac }) }
{
    let mut autn = [0; aka::AUTN_SIZE];
    octets::put(&mut autn, 0, &octets::xor(sqn, ak));
    octets::put(&mut autn, aka::AMF_AT, &amf);
    octets::put(&mut autn, aka::MAC_AT, &mac);
    autn
}

// SQN_MS, which AUTS conceals with AK*. As in AUTN, but each token has a type and a layout of its own.
pub fn sqn_ms_in(auts: [u8; aka::AUTS_SIZE], akstar: [u8; aka::SQN_SIZE]) -> [u8; aka::SQN_SIZE]
    ensures { result ≡ xor (read_auts auts).concealed akstar }
{
    octets::xor(octets::array(&auts[..aka::SQN_SIZE]), akstar)
}

// The MAC-S of AUTS: what stands behind SQN_MS.
pub fn mac_s_in(auts: [u8; aka::AUTS_SIZE]) -> [u8; aka::MAC_SIZE]
    ensures { result ≡ (read_auts auts).mac }
{
    octets::array(&auts[aka::MAC_S_AT..])
}
