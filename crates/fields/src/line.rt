// A line while it is put together.
ghost use Rattle.std.specs.Prelude.{IsTrue};
ghost use Rattle.fields.specs.Buffers.{fits};

use arrayvec::ArrayVec;

// At most N bytes, or none at all once what was added did not fit. No plainer as an `impl Model`: callers would see the list
// alone, and whatever adds no byte would have to promise that N is kept.
#[derive(Drop)]
pub struct LineBuffer<const N: usize> {
    pub(crate) bytes: Option<ArrayVec<u8, N>>,
    ghost within: { IsTrue (fits N bytes) },
}
