// What a caller may do with the libraries' types where no clause says so: code a thing by bytes that are no text, copy what holds a
// divisor, and take a field for its index in the list of all.
ghost use Rattle.std.specs.Prelude.{[], ◌∷◌};

use fields::code::{Coded, find};
use money::division::div_round;
use money::divisor::Divisor;
use std::test::Fail;
use tariff::fault::FIELDS;

#[derive(Clone, Copy, PartialEq, Eq, Debug)]
struct Sign;

impl Coded for Sign {
    ghost spelling = { λ _. 255 ∷ [] };

    fn code_bytes(self) -> &'static [u8] {
        &[255]
    }
}

#[test]
fn a_code_may_be_no_text(rt: HostRuntime) {
    assert_eq!(rt; find(&[Sign], &[255]), Some(Sign));
    assert_eq!(rt; find(&[Sign], b"A"), None);
}

#[derive(Clone, Copy)]
struct Share {
    by: Divisor,
}

fn shared(n: i64, share: Share) -> i64 {
    div_round(n, share.by)
}

#[test]
fn what_holds_a_divisor_is_copied(rt: HostRuntime) -> Result<(), Fail> {
    let Some(by) = Divisor::new(2) else {
        return Err(Fail::new("2 is no divisor"));
    };
    let share = Share { by };
    assert_eq!(rt; shared(5, share), 3);
    assert_eq!(rt; shared(-5, share), -3);
    Ok(())
}

#[test]
fn a_field_is_its_index_in_the_list_of_all(rt: HostRuntime) {
    for field in &FIELDS {
        assert_eq!(rt; FIELDS[*field as usize], *field);
    }
}
