// Words of a line, one after another.
ghost use Rattle.std.specs.Prelude.{◌≡◌, ◌==◌, length, option_map};
ghost use Rattle.ev_model.specs.Glyphs.{IsText};
ghost use Rattle.ev_lang.specs.Words.{words, skipped, first_word, after_word, after_one, uncons};

/// A line from its first word on.
#[tactic(auto, using(crate::proofs::Texts::dropped))]
pub fn skip_spaces(line: &[u8]) -> &[u8]
    ensures line { result.now ≡ skipped line.now }
    ensures within { IsText line.now → IsText result.now }
{
    for (i, c) in line.iter().enumerate() {
        if *c != b' ' {
            return &line[i..];
        }
    }
    &[]
}

/// The characters up to a space, and what stands from there on.
#[tactic(auto, using(crate::proofs::Texts::dropped))]
pub fn split_word(line: &[u8]) -> (&[u8], &[u8])
    ensures word { result.0.now ≡ first_word line.now }
    ensures rest { result.1.now ≡ after_word line.now }
    ensures within { IsText line.now → IsText result.1.now }
{
    for (i, c) in line.iter().enumerate() {
        if *c == b' ' {
            return line.split_at(i);
        }
    }
    (line, &[])
}

/// All but one character.
#[tactic(auto, using(crate::proofs::Texts::dropped))]
pub fn skip_one(line: &[u8]) -> &[u8]
    ensures line { result.now ≡ after_one line.now }
    ensures within { IsText line.now → IsText result.now }
{
    match line {
        [] => line,
        [_, rest @ ..] => rest,
    }
}

/// The first word of a line, and what follows it. None where there is no word.
pub fn next_word(line: &[u8]) -> Option<(&[u8], &[u8])>
    ensures { option_map (λ found. (found.0.now, words found.1.now)) result ≡ uncons (words line.now) }
{
    let line = skip_spaces(line);
    if line.is_empty() {
        None
    } else {
        Some(split_word(line))
    }
}

/// Whether a line has so many words.
pub fn has_words(line: &[u8], count: usize) -> bool
    ensures { result ≡ (length (words line.now) == count) }
{
    let mut rest = line;
    for _ in 0..count {
        let Some((_, behind)) = next_word(rest) else {
            return false;
        };
        rest = behind;
    }
    next_word(rest).is_none()
}
