// Whether a pixel line has a width that its format allows, and pixels that fit it.
ghost use Rattle.std.specs.Prelude.{◌≡◌};
ghost use Rattle.packing.specs.Raw.{pixel_limit, width_allowed};
ghost use Rattle.packing.specs.Packing.{pixel_refusal_number, check_of};
ghost use Rattle.packing.specs.Checking.{or_all};

use formats::Format;
use refusals::Refusal;

// Why a pixel line is refused.
#[derive(Clone, Copy)]
pub enum PixelRefusal {
    WidthNotAllowed,
    PixelTooLarge,
}

impl Refusal for PixelRefusal {
    ghost number = { pixel_refusal_number };

    fn number(self) -> u8 {
        match self {
            PixelRefusal::WidthNotAllowed => 5,
            PixelRefusal::PixelTooLarge => 6,
        }
    }
}

// What every pixel of the format is below.
fn pixel_limit(format: Format) -> u16
    ensures { result ≡ pixel_limit format }
{
    match format {
        Format::Raw10 => 1024,
        Format::Raw12 => 4096,
    }
}

// The bits that are set in any pixel.
fn or_all(pixels: &[u16]) -> u16
    ensures { result ≡ or_all pixels.now }
{
    pixels.iter().fold(0, |all, pixel| all | *pixel)
}

// Whether a pixel line may have that width.
pub fn width_allowed(format: Format, width: usize) -> bool
    ensures { result ≡ width_allowed format width }
{
    if width < 1 {
        return false;
    }
    if 4096 < width {
        return false;
    }
    match format {
        Format::Raw10 => width % 4 == 0,
        Format::Raw12 => width % 2 == 0,
    }
}

// Tests the width, then the pixels.
pub fn check_pixels(format: Format, pixels: &[u16]) -> Result<(), PixelRefusal>
    ensures { result ≡ check_of format pixels.now }
{
    if !width_allowed(format, pixels.len()) {
        return Err(PixelRefusal::WidthNotAllowed);
    }
    if pixel_limit(format) <= or_all(pixels) {
        return Err(PixelRefusal::PixelTooLarge);
    }
    Ok(())
}
