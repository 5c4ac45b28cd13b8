// The letter that a call line begins with.
ghost use Rattle.std.specs.Prelude.{◌≡◌, length};
ghost use Rattle.calls.specs.Letters.{letter_code, letters};
ghost use Rattle.calls.specs.LetterLaws.{letter_found};
ghost use Rattle.calls.specs.Formats.{format};

use fields::code::TextCoded;
use fields::value::Listed;

#[derive(Clone, Copy, PartialEq, Eq, Debug)]
pub(crate) enum Letter {
    Rate,
    Post,
    Void,
    File,
    Enter,
    Report,
}

const LETTERS: &[Letter] = &[
    Letter::Rate,
    Letter::Post,
    Letter::Void,
    Letter::File,
    Letter::Enter,
    Letter::Report,
];

impl Letter {
    // How many fields follow the letter.
    pub(crate) fn field_count(self) -> usize
        ensures { result ≡ length (format self) }
    {
        match self {
            Letter::Rate => 9,
            Letter::Post => 0,
            Letter::Void => 0,
            Letter::File => 3,
            Letter::Enter => 2,
            Letter::Report => 1,
        }
    }
}

impl TextCoded for Letter {
    ghost spelling = { letter_code };

    fn code(self) -> &'static str {
        match self {
            Letter::Rate => "R",
            Letter::Post => "P",
            Letter::Void => "V",
            Letter::File => "F",
            Letter::Enter => "C",
            Letter::Report => "Q",
        }
    }
}

impl Listed for Letter {
    ghost all = { letters };

    ghost found = { letter_found };

    fn all() -> &'static [Letter] {
        LETTERS
    }
}
