// The centre's answer as the call hands it on: the number that is returned, and the image.
ghost use Rattle.std.specs.Prelude.{true, ◌≡◌, length};
ghost use Rattle.functions.specs.Sets.{sets};
ghost use Rattle.aka.specs.Auc.{valid_auc};
ghost use Rattle.aka.specs.Editions.{editions};
ghost use Rattle.auc_record.specs.Views.{auc_of, outcome_of};
ghost use Rattle.auc_image.specs.Image.{image as auc_image, image_size as auc_image_size};
ghost use Rattle.interface_answers.specs.Results.{outcome_result};
ghost use Rattle.interface_answers.specs.Answers.{auc_image_after};

use crate::results;
use auc::Outcome;
use auc_image::AucFormat;
use images::ImageFormat;

// The image changes where a batch is given.
pub fn hand_on(a: auc::Answer, image: &mut [u8]) -> u64
    requires { (valid_auc editions sets (auc_of a.auc) ≡ true) × (length image.old ≡ auc_image_size) }
    ensures { (result ≡ outcome_result (outcome_of a.outcome))
        × (image.new ≡ auc_image_after (outcome_of a.outcome) image.old (auc_image editions (auc_of a.auc))) }
{
    match a.outcome {
        Outcome::Given | Outcome::Kept => {
            AucFormat::fill(a.auc, image);
            0
        }
        Outcome::Reset => {
            AucFormat::fill(a.auc, image);
            results::both(0, 1)
        }
        Outcome::Refused(number) => number as u64,
        Outcome::Repeated(i, j) => results::both(4, results::both(i as u64, j as u64)),
    }
}
