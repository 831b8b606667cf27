//! A text, parted at a byte.
ghost use Rattle.std.specs.Prelude.{◌≡◌, ◌≤◌, length, MatchOption};
ghost use Rattle.reader.specs.Bytes.{Parted, before, leading};

/// How many bytes stand before the first `stop`, or before the end.
pub(crate) fn count_before(text: &[u8], stop: u8) -> usize
    ensures value { result ≡ before stop text.now }
    ensures within { result ≤ length text.now }
{
    text.iter().position(|b| *b == stop).unwrap_or(text.len())
}

/// How many bytes `skipped` stand at the front.
pub(crate) fn count_leading(text: &[u8], skipped: u8) -> usize
    ensures value { result ≡ leading skipped text.now }
    ensures within { result ≤ length text.now }
{
    text.iter()
        .position(|b| *b != skipped)
        .unwrap_or(text.len())
}

/// What stands before the first byte `stop` and what follows it, if the text has that byte.
pub(crate) fn split_once(text: &[u8], stop: u8) -> Option<(&[u8], &[u8])>
    ensures { MatchOption result (before stop text.now ≡ length text.now) (λ parts. Parted stop text.now parts.0.now parts.1.now) }
{
    let at = text.iter().position(|b| *b == stop)?;
    Some((&text[..at], &text[at + 1..]))
}
