// A value's text: a column pads only a text, and not what a `Display` of ours writes.
ghost use Rattle.std.specs.Prelude.{◌≡◌, IfOk, IfSome};

use arrayvec::ArrayString;
use std::fmt;
use std::fmt::Write;

// What `{}` writes of a value, where that is at most N bytes.
pub(crate) fn text<const N: usize, D: fmt::Display + Drop>(
    value: D,
) -> Result<ArrayString<N>, fmt::Error>
    ensures { IfOk result (λ t. IfSome (D.output value) (λ bytes. t.bytes ≡ bytes)) }
{
    let mut text = ArrayString::<N>::new();
    write!(text, "{value}")?;
    Ok(text)
}
