// Answer lines: one of each letter, the longest of all, and what is refused.
use crate::told::{refused, written};
use answers::answer::{Answer, MAX_ANSWER};
use fields::rider::HouseRider;
use money::amount::{Cents, MicroDollars};
use std::process::Abort;
use std::test::Fail;
use tariff::bill::BaseLines;
use tariff::refusal::Refusal;

// The answer's line is this one.
fn check_line(rt: &impl Abort, answer: Answer, line: &[u8]) -> Result<(), Fail> {
    let mut buffer = [0u8; MAX_ANSWER];
    let Ok(len) = answer.write(&mut buffer) else {
        return Err(Fail::new("an answer is not written"));
    };
    assert!(rt; buffer.get(0..len) == Some(line));
    Ok(())
}

fn bill<'a>(
    number: u32,
    account: &'a [u8],
    base: [i64; 5],
    riders: [i64; 7],
    total: i64,
) -> Answer<'a> {
    let [customer, energy, demand, excess, lift] = base;
    Answer::Bill {
        number,
        account,
        base: BaseLines {
            customer: Cents(customer),
            energy: Cents(energy),
            demand: Cents(demand),
            excess: Cents(excess),
            lift: Cents(lift),
        },
        riders: riders.map(Cents),
        total: Cents(total),
    }
}

fn posted<'a>(number: u32) -> Answer<'a> {
    Answer::Posted { number }
}

fn voided<'a>(number: u32) -> Answer<'a> {
    Answer::Voided { number }
}

fn filed<'a>(factor: i64) -> Answer<'a> {
    Answer::Filed {
        rider: HouseRider::Fca,
        factor: MicroDollars(factor),
    }
}

fn entered<'a>(balance: i64) -> Answer<'a> {
    Answer::Entered {
        rider: HouseRider::SubaNhh,
        balance: MicroDollars(balance),
    }
}

fn report<'a>() -> Answer<'a> {
    Answer::Report {
        rider: HouseRider::Fca,
        balance: MicroDollars(670_000),
        factor: MicroDollars(333_333),
        forecast: 3,
        sold: 1,
        bills: 1,
        entered: MicroDollars(0),
    }
}

fn refusal<'a>(number: u8, layer: u8, field: u8) -> Answer<'a> {
    Answer::Refused(Refusal {
        number,
        layer,
        field,
    })
}

#[test]
fn answers_have_their_lines(rt: HostRuntime) -> Result<(), Fail> {
    let example = bill(1, b"A1", [400, 5, 0, 0, 0], [33, 0, 0, 0, 0, 0, 0], 438);
    check_line(&rt, example, b"D,1,A1,400,5,0,0,0,33,0,0,0,0,0,0,438")?;
    let order = bill(7, b"Z", [1, 2, 3, 4, 5], [-6, 7, -8, 9, 10, 11, 12], -13);
    check_line(&rt, order, b"D,7,Z,1,2,3,4,5,-6,7,-8,9,10,11,12,-13")?;
    check_line(&rt, posted(1), b"P,1")?;
    check_line(&rt, voided(100_000), b"V,100000")?;
    check_line(&rt, filed(333_333), b"F,FCA,333333")?;
    check_line(&rt, entered(-1), b"C,SUBA-NHH,-1")?;
    check_line(&rt, report(), b"Q,FCA,670000,333333,3,1,1,0")?;
    check_line(&rt, refusal(5, 2, 10), b"X,5,2,10")
}

// The longest bill, but for its account.
fn longest<'a>(account: &'a [u8]) -> Answer<'a> {
    bill(u32::MAX, account, [i64::MIN; 5], [i64::MIN; 7], i64::MIN)
}

#[test]
fn the_longest_answer_fits_and_refusals_leave_the_buffer(rt: HostRuntime) {
    assert_eq!(rt; MAX_ANSWER, 298);
    assert_eq!(rt;
        written(298, |out| longest(b"ABCDEFGHIJKL").write(out)),
        Some(Ok(298))
    );
    assert_eq!(rt;
        written(297, |out| longest(b"ABCDEFGHIJKL").write(out)),
        Some(refused!(6, 3, 0))
    );
    assert_eq!(rt;
        written(0, |out| longest(b"ABCDEFGHIJKLM").write(out)),
        Some(refused!(2, 1, 2))
    );
    assert_eq!(rt;
        written(298, |out| longest(b"").write(out)),
        Some(refused!(2, 1, 2))
    );
}

#[test]
fn places_beyond_the_answer_keep_their_values(rt: HostRuntime) -> Result<(), Fail> {
    let mut buffer = [b'.'; 6];
    let Ok(len) = posted(1).write(&mut buffer) else {
        return Err(Fail::new("an answer is not written"));
    };
    assert_eq!(rt; len, 3);
    assert!(rt; buffer == *b"P,1...");
    Ok(())
}
