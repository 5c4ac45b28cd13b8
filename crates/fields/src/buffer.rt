// Handing a finished line to the caller.
ghost use Rattle.std.specs.Prelude.{◌≡◌, length, is_ok, if◌then◌else◌};
ghost use Rattle.fields.specs.Buffers.{copied, at_front};

use crate::fault::LineFault;

// Copies a line to the front of a buffer, and answers how many bytes that were. A buffer that is too short is left as it was.
// The buffer is the caller's by a rule of the project, as no library allocates; so its used part is a number.
pub fn copy_line(line: &[u8], out: &mut [u8]) -> Result<usize, LineFault>
    ensures value { result ≡ copied (length line.now) (length out.old) }
    ensures after { out.new ≡ (if is_ok result then at_front line.now out.old else out.old) }
{
    let len = line.len();
    if out.len() < len {
        return Err(LineFault::BufferTooShort);
    }
    out[0..len].copy_from_slice(line);
    Ok(len)
}
