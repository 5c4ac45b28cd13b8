// Lines that a library writes.
use fields::fault::LineFault;

// The bytes that `write` puts at the front of a buffer. No library allocates, so it takes the caller's buffer, and answers how
// many bytes of it a line has.
pub(crate) fn written<'a, F: FnOnce(&mut [u8]) -> Result<usize, LineFault>>(
    buffer: &'a mut [u8],
    write: F,
) -> Result<&'a [u8], LineFault>
    requires { F.IsAlwaysCallable write }
{
    let len = write(buffer)?;
    // A closure's promise is not known here, so the length is tested once more.
    buffer.get(0..len).ok_or(LineFault::BufferTooShort)
}
