//! The words of a line.
ghost use Rattle.std.specs.Prelude.{◌≡◌};
ghost use Rattle.script.specs.Words.{after_word, first_word, is_blank, said};

fn is_blank(b: u8) -> bool
    ensures { result ≡ is_blank b }
{
    matches!(b, b' ' | b'\t' | b'\r')
}

/// What a line says before a `#`.
pub(crate) fn without_comment(line: &[u8]) -> &[u8]
    ensures { result.now ≡ said line.now }
{
    let end = line.iter().position(|b| *b == b'#').unwrap_or(line.len());
    &line[..end]
}

/// The first word of a text, empty where it has none, and what follows it.
pub fn split_word(text: &[u8]) -> (&[u8], &[u8])
    ensures word { result.0.now ≡ first_word text.now }
    ensures rest { result.1.now ≡ after_word text.now }
{
    let start = text
        .iter()
        .position(|b| !is_blank(*b))
        .unwrap_or(text.len());
    let front = &text[start..];
    let end = front
        .iter()
        .position(|b| is_blank(*b))
        .unwrap_or(front.len());
    front.split_at(end)
}
