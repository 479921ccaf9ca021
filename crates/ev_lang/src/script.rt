// Scripts, line by line.
ghost use Rattle.std.specs.Prelude.{◌≡◌, ◌<◌, length};
ghost use Rattle.ev_lang.specs.Lines.{first_line, after_line};

/// The first line of a script without its byte 10, and what stands behind that (docs/SCRIPT.md,
/// "Lines"). A script without bytes has no line.
pub fn first_line(script: &[u8]) -> (&[u8], &[u8])
    ensures line { result.0.now ≡ first_line script.now }
    ensures rest { result.1.now ≡ after_line script.now }
    ensures shorter { 0 < length script.now → length result.1.now < length script.now }
{
    for (i, byte) in script.iter().enumerate() {
        if *byte == b'\n' {
            return (&script[..i], &script[i + 1..]);
        }
    }
    (script, &[])
}
