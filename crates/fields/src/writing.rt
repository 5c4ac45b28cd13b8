// Writing a line field by field.
ghost use Rattle.std.specs.Prelude.{◌≡◌, ◌+◌, ◌*◌, ◌≤◌, [], ◌∷◌, length, map, Some};
ghost use Rattle.std.specs.Option.{option_map};
ghost use Rattle.fields.specs.LineBuffers.{held, Extends};
ghost use Rattle.fields.specs.Lines.{with_commas};

use crate::line::LineBuffer;
use arrayvec::ArrayVec;
use itoa::{Buffer, Integer};

impl<const N: usize> LineBuffer<N> {
    pub fn new() -> Self
        ensures { held N result ≡ Some [] }
    {
        LineBuffer {
            bytes: Some(ArrayVec::new()),
        }
    }

    // What was written, unless it was more than N bytes.
    pub fn line(&self) -> Option<&[u8]>
        ensures { option_map (λ x. x.now) result ≡ held N self.now }
    {
        Some(self.bytes.as_ref()?.as_slice())
    }

    // These bytes, as they are.
    #[tactic(auto, unfolding(crate::specs::LineBuffers::extended))]
    pub fn append(&mut self, bytes: &[u8])
        ensures { Extends N self.old self.new bytes.now }
    {
        if let Some(line) = &mut self.bytes
            && line.try_extend_from_slice(bytes).is_err()
        {
            self.bytes = None;
        }
    }

    fn comma(&mut self)
        ensures { Extends N self.old self.new (44 ∷ []) }
    {
        self.append(b",");
    }

    // A comma, and then these bytes.
    pub fn field(&mut self, bytes: &[u8])
        ensures { Extends N self.old self.new (44 ∷ bytes.now) }
    {
        self.comma();
        self.append(bytes);
    }

    // A comma, and then the number in digits, a minus before them where it is below 0.
    pub fn number<I: Integer>(&mut self, number: I)
        ensures value { Extends N self.old self.new (44 ∷ I.text number) }
        ensures bound { length (I.text number) ≤ I.MAX_STR_LEN }
    {
        self.field(Buffer::new().format(number).as_bytes());
    }

    // Each of the numbers so.
    pub fn numbers<I: Integer>(&mut self, numbers: &[I])
        ensures value { Extends N self.old self.new (with_commas (map I.text numbers.now)) }
        ensures bound { length (with_commas (map I.text numbers.now)) ≤ (I.MAX_STR_LEN + 1) * length numbers.now }
    {
        for number in numbers {
            self.number(*number);
        }
    }
}
