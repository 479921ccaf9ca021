// What stands in a row for a bit of a text: whether it is set, or the pixel that is drawn for it.
ghost use Rattle.std.specs.Prelude.{◌≡◌, Option, is_some};
ghost use Rattle.ev_argb.specs.Argb.{Argb};
ghost use Rattle.ev_text.specs.TextRows.{bit_sample, drawn};

use ev_argb::Pixel;

pub(crate) trait Form: Copy {
    ghost form: { Option Argb → Self };

    fn of(bit: bool) -> Self
        ensures { result ≡ form (bit_sample bit) };
}

impl Form for bool {
    ghost use Rattle.std.specs.Prelude.{is_some};

    ghost form = { is_some };

    #[inline(always)]
    fn of(bit: bool) -> bool {
        bit
    }
}

impl Form for Pixel {
    ghost use Rattle.ev_text.specs.TextRows.{drawn};

    ghost form = { drawn };

    #[inline(always)]
    fn of(bit: bool) -> Pixel {
        if bit {
            Pixel::new(255, 255, 255, 255)
        } else {
            Pixel::CLEAR
        }
    }
}
