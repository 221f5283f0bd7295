// Writing a record's image, for card and centre.
ghost use Rattle.std.specs.Prelude.{◌≤◌};
ghost use Rattle.call_lines.specs.Limits.{most_lent};

use aka::Refusal;
use call_lines::call::MOST_LENT;
use call_lines::text::Text;
use images::ImageFormat;

// Lends the first `size` bytes of a buffer for the image.
pub fn write<F: ImageFormat>(held: F::Record, size: usize) -> Result<Text, Refusal>
    requires { size ≤ most_lent }
{
    let mut buffer = [0u8; MOST_LENT];
    let image = &mut buffer[..size];
    images::write::<F>(held, image)?;
    Ok(Text::with_octets(b"image", image))
}
