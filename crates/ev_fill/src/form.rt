// What stands in a row for a sample: the sample itself, or the pixel that is blended for it.
ghost use Rattle.std.specs.Prelude.{◌≡◌, Option, Some, None, length, map};
ghost use Rattle.ev_argb.specs.Argb.{Argb};

use ev_argb::Pixel;

pub(crate) trait Form: Copy {
    ghost form: { Option Argb → Self };

    // For a pixel.
    fn of(pixel: Pixel) -> Self
        ensures { result ≡ form (Some pixel) };

    // For nothing.
    fn nothing() -> Self
        ensures { result ≡ form None };

    // For each of these pixels.
    fn copy(into: &mut [Self], from: &[Pixel])
        requires { length into.old ≡ length from.now }
        ensures { into.new ≡ map (λ pixel. form (Some pixel)) from.now };
}

impl Form for Option<Pixel> {
    ghost form = { λ sample. sample };

    #[inline(always)]
    fn of(pixel: Pixel) -> Option<Pixel> {
        Some(pixel)
    }

    #[inline(always)]
    fn nothing() -> Option<Pixel> {
        None
    }

    fn copy(into: &mut [Option<Pixel>], from: &[Pixel]) {
        for k in 0..into.len() {
            into[k] = Some(from[k]);
        }
    }
}

impl Form for Pixel {
    ghost use Rattle.ev_fill.specs.Rows.{blended};

    ghost form = { blended };

    #[inline(always)]
    fn of(pixel: Pixel) -> Pixel {
        pixel
    }

    #[inline(always)]
    fn nothing() -> Pixel {
        Pixel::CLEAR
    }

    fn copy(into: &mut [Pixel], from: &[Pixel]) {
        into.copy_from_slice(from);
    }
}
