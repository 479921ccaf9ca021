// The words that tell why a line, a command or a load came to nothing.
ghost use Rattle.std.specs.Prelude.{◌≡◌, ◌≤◌, length};
ghost use Rattle.ev_model.specs.Text.{bad_word, refusal_word, image_word, font_word};

use ev_model::{BadLine, FontFault, ImageFault, Refusal};

/// Why a line is bad.
pub fn bad_word(fault: BadLine) -> &'static [u8]
    ensures word { result.now ≡ bad_word fault }
    ensures short { length result.now ≤ 10 }
{
    match fault {
        BadLine::Long => b"long",
        BadLine::Byte => b"byte",
        BadLine::Word => b"word",
        BadLine::Count => b"count",
        BadLine::Number => b"number",
        BadLine::Name => b"name",
    }
}

/// Why a command was refused.
pub fn refusal_word(cause: Refusal) -> &'static [u8]
    ensures word { result.now ≡ refusal_word cause }
    ensures short { length result.now ≤ 10 }
{
    match cause {
        Refusal::Exists => b"exists",
        Refusal::Unknown => b"unknown",
        Refusal::Kind => b"kind",
        Refusal::Range => b"range",
        Refusal::Itself => b"itself",
        Refusal::Layer => b"layer",
        Refusal::Sibling => b"sibling",
        Refusal::Cycle => b"cycle",
        Refusal::Clipping => b"clipping",
        Refusal::Full => b"full",
        Refusal::NoFile => b"nofile",
        Refusal::Loading => b"loading",
        Refusal::NotLoading => b"notloading",
        Refusal::Busy => b"busy",
        Refusal::NoFrame => b"none",
        Refusal::NoMemory => b"memory",
    }
}

/// What is wrong with an image.
pub fn image_word(fault: ImageFault) -> &'static [u8]
    ensures word { result.now ≡ image_word fault }
    ensures short { length result.now ≤ 10 }
{
    match fault {
        ImageFault::Magic => b"magic",
        ImageFault::Kind => b"kind",
        ImageFault::Short => b"short",
        ImageFault::Size => b"size",
        ImageFault::Long => b"long",
        ImageFault::Premul => b"premul",
    }
}

/// What is wrong with a font.
pub fn font_word(fault: FontFault) -> &'static [u8]
    ensures word { result.now ≡ font_word fault }
    ensures short { length result.now ≤ 10 }
{
    match fault {
        FontFault::Magic => b"magic",
        FontFault::Short => b"short",
        FontFault::Height => b"height",
        FontFault::Width => b"width",
        FontFault::Long => b"long",
        FontFault::Bits => b"bits",
    }
}
