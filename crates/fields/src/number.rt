// Numbers, as a field spells them.
ghost use Rattle.std.specs.Prelude.{◌≡◌, ◌^◌, ◌<◌, length, IfSome, Some};
ghost use Rattle.fields.specs.Limits.{max_digits};
ghost use Rattle.fields.specs.Numbers.{read_on, leads_number, natural_of, minus, integer_of, spells_natural, spells_integer, SpellsNatural, SpellsInteger};

// The most digits of a number.
const MAX_DIGITS: usize = 16;

// The greatest number of so many digits; the two go together.
const MAX_NUMBER: u64 = 9_999_999_999_999_999;

// The number that the digits `rest` go on to from its first digit.
fn digits(first: u64, rest: &[u8]) -> Option<u64>
    requires digit { first < 10 }
    requires short { length rest.now < max_digits }
    ensures { result ≡ read_on first rest.now }
{
    let mut number = first;
    for byte in rest {
        if !byte.is_ascii_digit() {
            return None;
        }
        number = number * 10 + u64::from(*byte - b'0');
    }
    Some(number)
}

// A number may begin so: a digit, 0 only where no other follows, and not too many digits in all.
fn leads(first: u8, rest: &[u8]) -> bool
    ensures { result ≡ leads_number first rest.now }
{
    first.is_ascii_digit() && (first != b'0' || rest.is_empty()) && rest.len() < MAX_DIGITS
}

// The number that 1 to 16 digits with no needless zero in front spell.
pub fn natural(bytes: &[u8]) -> Option<u64>
    ensures value { result ≡ natural_of bytes.now }
    ensures law { SpellsNatural bytes.now result }
{
    let [first, rest @ ..] = bytes else {
        return None;
    };
    if !leads(*first, rest) {
        return None;
    }
    digits(u64::from(*first - b'0'), rest)
}

// The number of this size below 0; there is no -0.
fn negative(size: u64) -> Option<i64>
    requires { size < 10 ^ max_digits }
    ensures { result ≡ minus (Some size) }
{
    if size == 0 {
        return None;
    }
    Some(-size.cast_signed())
}

// As `natural`, or a minus and then such a number other than 0.
pub fn integer(bytes: &[u8]) -> Option<i64>
    ensures value { result ≡ integer_of bytes.now }
    ensures law { SpellsInteger bytes.now result }
{
    let [first, rest @ ..] = bytes else {
        return None;
    };
    if *first == b'-' {
        negative(natural(rest)?)
    } else {
        Some(natural(bytes)?.cast_signed())
    }
}

// A field can spell the number: it has at most 16 digits.
pub fn spells_natural(number: u64) -> bool
    ensures { result ≡ spells_natural number }
{
    number <= MAX_NUMBER
}

// The same, its sign aside.
pub fn spells_integer(number: i64) -> bool
    ensures { result ≡ spells_integer number }
{
    spells_natural(number.unsigned_abs())
}
