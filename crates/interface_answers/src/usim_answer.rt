// The card's answer as the call hands it on: the buffers for RES, CK, IK and AUTS, the image, and the number that is returned.
ghost use Rattle.std.specs.Prelude.{true, ◌≡◌, length};
ghost use Rattle.functions.specs.Sets.{sets};
ghost use Rattle.aka.specs.Usim.{valid_usim};
ghost use Rattle.aka.specs.Sequence.{FitsSqn, width_of};
ghost use Rattle.aka.specs.Editions.{editions};
ghost use Rattle.usim_record.specs.Views.{usim_of, verdict_of, sqn_given};
ghost use Rattle.usim_image.specs.Image.{image as usim_image, image_size as usim_image_size};
ghost use Rattle.interface_answers.specs.Results.{verdict_result};
ghost use Rattle.interface_answers.specs.Answers.{answer_sized, usim_image_after};

use crate::results;
use images::ImageFormat;
use usim::Verdict;
use usim_image::UsimFormat;

// Whether the buffers for RES, CK, IK and AUTS have their sizes. The four stay apart here, as `vetrhoss_challenge` has them in C.
pub fn are_sized(res: &[u8], ck: &[u8], ik: &[u8], auts: &[u8]) -> bool
    ensures { result ≡ answer_sized res.now ck.now ik.now auts.now }
{
    res.len() == aka::RES_SIZE
        && ck.len() == aka::CK_SIZE
        && ik.len() == aka::IK_SIZE
        && auts.len() == aka::AUTS_SIZE
}

// Fills the buffers for RES, CK, IK and AUTS.
pub fn fill_all(a: usim::Answer, res: &mut [u8], ck: &mut [u8], ik: &mut [u8], auts: &mut [u8])
    requires { answer_sized res.old ck.old ik.old auts.old ≡ true }
    ensures { (res.new ≡ a.res) × (ck.new ≡ a.ck) × (ik.new ≡ a.ik) × (auts.new ≡ a.auts) }
{
    res.copy_from_slice(&a.res);
    ck.copy_from_slice(&a.ck);
    ik.copy_from_slice(&a.ik);
    auts.copy_from_slice(&a.auts);
}

// The image changes with an acceptance. By cases, since C has a number for each.
pub fn hand_on(a: usim::Answer, image: &mut [u8]) -> u64
    requires next { (valid_usim editions sets (usim_of a.usim) ≡ true) × FitsSqn (sqn_given a.verdict) }
    requires size { length image.old ≡ usim_image_size (width_of editions a.usim.edition) }
    ensures { (result ≡ verdict_result (verdict_of a.verdict) (sqn_given a.verdict))
        × (image.new ≡ usim_image_after (verdict_of a.verdict) image.old (usim_image editions (usim_of a.usim))) }
{
    match a.verdict {
        Verdict::Accepted(sqn) => {
            UsimFormat::fill(a.usim, image);
            results::both(0, sqn)
        }
        Verdict::Sync => results::SYNCH_FAILURE,
        Verdict::Mac => results::MAC_FAILURE,
        Verdict::Refused(number) => number as u64,
    }
}
