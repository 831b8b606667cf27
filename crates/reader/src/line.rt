//! The lines of an input.
ghost use Rattle.std.specs.Prelude.{◌≡◌, ◌+◌, ◌<◌, ◌∷◌, length, take, drop};
ghost use Rattle.reader.specs.Bytes.{before, newline};
ghost use Rattle.reader.specs.Lines.{Cut, lines_of};

use crate::split::split_once;

/// The first line of an input, and what follows the end of that line; both are parts of the input.
pub fn cut_line(input: &[u8]) -> (&[u8], &[u8])
    ensures line { result.0.now ≡ take (before newline input.now) input.now }
    ensures rest { result.1.now ≡ drop (before newline input.now + 1) input.now }
    ensures lines { 0 < length input.now → lines_of input.now ≡ result.0.now ∷ lines_of result.1.now }
    ensures shorter { 0 < length input.now → length result.1.now < length input.now }
    ensures cut { Cut input.now result.0.now result.1.now }
{
    split_once(input, b'\n').unwrap_or((input, &input[input.len()..]))
}
