//! Appending to a transcript.
ghost use Rattle.std.specs.Prelude.{◌≡◌, ◌++◌, IfSome, string_bytes, OnOk};

use std::alloc::AllocError;
use std::fmt;

/// Appends what a value writes. The only way to fail is that memory runs out.
pub(crate) fn append<D: fmt::Display + Drop>(
    transcript: &mut String,
    value: D,
) -> Result<(), AllocError>
    ensures { OnOk result (IfSome (D.Display.output value) (λ bs. string_bytes transcript.new ≡ string_bytes transcript.old ++ bs)) }
{
    write!(transcript, "{value}")
}
