// Codes: the names that a line has for things.
ghost use Rattle.std.specs.Prelude.{◌≡◌, ℕ, List, bytes_eq};
ghost use Rattle.fields.specs.Codes.{coded};
ghost use Rattle.tariff.specs.Schedules.{code_of};

use tariff::schedule::Schedule;

// Has a code on a line, which may be any bytes.
pub trait Coded: Copy {
    ghost spelling: { Self → List ℕ };

    // The code's bytes.
    fn code_bytes(self) -> &'static [u8]
        ensures { result.now ≡ spelling self };
}

// Has a code that is text.
pub trait TextCoded: Copy {
    ghost spelling: { Self → List ℕ };

    // The code, as lines spell it.
    fn code(self) -> &'static str
        ensures { result.now ≡ spelling self };
}

impl<T: TextCoded> Coded for T {
    ghost spelling = { T.TextCoded.spelling };

    fn code_bytes(self) -> &'static [u8] {
        self.code().as_bytes()
    }
}

impl TextCoded for Schedule {
    ghost spelling = { code_of };

    fn code(self) -> &'static str {
        Schedule::code(self)
    }
}

// A rule of the project keeps the comparison a function, so that an edit of it is refused by its own fact.
fn same_bytes(a: &[u8], b: &[u8]) -> bool
    ensures { result ≡ bytes_eq a.now b.now }
{
    a == b
}

// The first of a list that has this code. A loop, and no `find` of an iterator: the compiler unrolls it, and so knows every code of
// a list that does not change.
pub fn find<T: Coded>(all: &[T], code: &[u8]) -> Option<T>
    ensures { result ≡ coded T.spelling all.now code.now }
{
    for item in all {
        if same_bytes(code, item.code_bytes()) {
            return Some(*item);
        }
    }
    None
}
