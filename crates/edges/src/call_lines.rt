// Call lines read and written: each refusal with its field, the edges of lengths and numbers, and bytes that are no text.
// Buffers in the tests are arrays with a length beside them, since the libraries write into the caller's, with no heap.
use crate::tests::EMPTY;
use crate::told::{refused, written};
use calls::call::{Call, MAX_LINE};
use fields::rider::HouseRider;
use money::amount::MicroDollars;
use std::test::Fail;
use tariff::fault::{FIELDS, Field};
use tariff::reading::Reading;
use tariff::refusal::Refusal;
use tariff::schedule::Schedule;

// How a line stands that was read and written again.
#[derive(Clone, Copy, PartialEq, Eq, Debug)]
enum Again {
    Same,
    Another,
}

type Told = Result<Again, Refusal>;

const SAME: Told = Ok(Again::Same);

const SHAPE: Told = refused!(1, 1, 0);

// What becomes of a line that is read and written again.
fn read_and_written(line: &[u8]) -> Told {
    let call = Call::read(line)?;
    let mut buffer = [0u8; MAX_LINE];
    match call.write(&mut buffer) {
        Ok(len) if buffer.get(0..len) == Some(line) => Ok(Again::Same),
        _ => Ok(Again::Another),
    }
}

struct Case {
    line: &'static [u8],
    told: Told,
}

const CASES: &[Case] = &[
    Case {
        line: b"F,FCA,1000000,3",
        told: SAME,
    },
    Case {
        line: b"R,A1,GRS,0,1,0,0,0,0,0",
        told: SAME,
    },
    Case {
        line: b"P",
        told: SAME,
    },
    Case {
        line: b"V",
        told: SAME,
    },
    Case {
        line: b"Q,FCA",
        told: SAME,
    },
    Case {
        line: b"C,SUBA-NHH,-15",
        told: SAME,
    },
    Case {
        line: b"C,IMP,0",
        told: SAME,
    },
    Case {
        line: b"C,FOS,9999999999999999",
        told: SAME,
    },
    Case {
        line: b"C,FOS,-9999999999999999",
        told: SAME,
    },
    Case {
        line: b"R,Z9,LP-13,9999999999999999,1,20,300,4000,50000,600000",
        told: SAME,
    },
    Case {
        line: b"",
        told: SHAPE,
    },
    Case {
        line: b"p",
        told: SHAPE,
    },
    Case {
        line: b" P",
        told: SHAPE,
    },
    Case {
        line: b"PP",
        told: SHAPE,
    },
    Case {
        line: b"P,",
        told: SHAPE,
    },
    Case {
        line: b"V,0",
        told: SHAPE,
    },
    Case {
        line: b"X",
        told: SHAPE,
    },
    Case {
        line: b"Z,FCA",
        told: SHAPE,
    },
    Case {
        line: b"Q",
        told: SHAPE,
    },
    Case {
        line: b"Q,FCA,",
        told: SHAPE,
    },
    Case {
        line: b"F,FCA,1",
        told: SHAPE,
    },
    Case {
        line: b",",
        told: SHAPE,
    },
    Case {
        line: b"P\r",
        told: SHAPE,
    },
    Case {
        line: b"P\n",
        told: SHAPE,
    },
    Case {
        line: b"\0",
        told: SHAPE,
    },
    Case {
        line: b"\xff",
        told: SHAPE,
    },
    Case {
        line: b"R,,GRS,0,1,0,0,0,0,0",
        told: refused!(2, 1, 2),
    },
    Case {
        line: b"R,A-1,GRS,0,1,0,0,0,0,0",
        told: refused!(2, 1, 2),
    },
    Case {
        line: b"R,a1,GRX,0,1,0,0,0,0,0",
        told: refused!(2, 1, 2),
    },
    Case {
        line: b"R,ABCDEFGHIJKLM,GRS,0,1,0,0,0,0,0",
        told: refused!(2, 1, 2),
    },
    Case {
        line: b"R,A\xff,GRS,0,1,0,0,0,0,0",
        told: refused!(2, 1, 2),
    },
    Case {
        line: b"R,A1,grs,0,1,0,0,0,0,0",
        told: refused!(3, 1, 3),
    },
    Case {
        line: b"R,A1,,x,1,0,0,0,0,0",
        told: refused!(3, 1, 3),
    },
    Case {
        line: b"R,A1,GRS,00,1,0,0,0,0,0",
        told: refused!(2, 1, 4),
    },
    Case {
        line: b"R,A1,GRS,0,,0,0,0,0,0",
        told: refused!(2, 1, 5),
    },
    Case {
        line: b"R,A1,GRS,0,1,-1,0,0,0,0",
        told: refused!(2, 1, 6),
    },
    Case {
        line: b"R,A1,GRS,0,1,0,1a,0,0,0",
        told: refused!(2, 1, 7),
    },
    Case {
        line: b"R,A1,GRS,0,1,0,0,+1,0,0",
        told: refused!(2, 1, 8),
    },
    Case {
        line: b"R,A1,GRS,0,1,0,0,0,10000000000000000,0",
        told: refused!(2, 1, 9),
    },
    Case {
        line: b"R,A1,GRS,0,1,0,0,0,0,1\r",
        told: refused!(2, 1, 10),
    },
    Case {
        line: b"F,FCB,1,x",
        told: refused!(3, 1, 2),
    },
    Case {
        line: b"F,FCA,-0,x",
        told: refused!(2, 1, 3),
    },
    Case {
        line: b"F,FCA,-01,1",
        told: refused!(2, 1, 3),
    },
    Case {
        line: b"F,FCA,--1,1",
        told: refused!(2, 1, 3),
    },
    Case {
        line: b"F,FCA,1,-1",
        told: refused!(2, 1, 4),
    },
    Case {
        line: b"F,FCA,1,12345678901234567",
        told: refused!(2, 1, 4),
    },
    Case {
        line: b"C,FCA,-",
        told: refused!(2, 1, 3),
    },
    Case {
        line: b"C,FCA,-00",
        told: refused!(2, 1, 3),
    },
    Case {
        line: b"C,FCA,-10000000000000000",
        told: refused!(2, 1, 3),
    },
    Case {
        line: b"C,fca,1",
        told: refused!(3, 1, 2),
    },
    Case {
        line: b"Q,",
        told: refused!(3, 1, 2),
    },
    Case {
        line: b"Q,FCA\r",
        told: refused!(3, 1, 2),
    },
    Case {
        line: b"Q,FCA\0",
        told: refused!(3, 1, 2),
    },
    Case {
        line: b"Q,FC",
        told: refused!(3, 1, 2),
    },
    Case {
        line: b"R,A1,GRX,x,1,0,0,0,0,0",
        told: refused!(3, 1, 3),
    },
    Case {
        line: b"R,A1,GRS,0,01,0,0,0,0,0",
        told: refused!(2, 1, 5),
    },
    Case {
        line: b"F,FCA,-0,1",
        told: refused!(2, 1, 3),
    },
    Case {
        line: b"C,FCA,-9999999999999999",
        told: SAME,
    },
    Case {
        line: b"C,FCA,10000000000000000",
        told: refused!(2, 1, 3),
    },
    Case {
        line: b"Q,AAAAAAAAAAAAAAAAAAAAAAAAAAAAAAAAAAAAAAAAAAAAAAAAAAAAAAAAAAAAAAAAAAAAAAAAAAAAAAAAAAAAAAAAAAAAAAAAAAAAAAAAAAAAAAAAAAAAAA",
        told: refused!(3, 1, 2),
    },
    Case {
        line: b"R,AAAAAAAAAAAAAAAAAAAAAAAAAAAAAAAAAAAAAAAAAAAAAAAAAAAAAAAAAAAAAAAAAAAAAAAAAAAAAAAAAAAAAAAAAAAAAAAAAAAA,GRS,0,1,0,0,0,0",
        told: refused!(1, 1, 0),
    },
];

#[test]
fn lines_read_or_are_refused(rt: HostRuntime) {
    for case in CASES {
        assert_eq!(rt; read_and_written(case.line), case.told);
    }
}

// The longest line that is read, and one byte more; without a line feed, as an input's last line may be.
#[test]
fn lines_have_120_bytes_at_most(rt: HostRuntime) {
    let longest =
        b"R,ABCDEFGHIJKL,TOU-P,9999999999999999,9999999999999999,9999999999999999,9999999999999999,9999999999999999,111111111111,7";
    assert_eq!(rt; longest.len(), 120);
    assert_eq!(rt; read_and_written(longest), SAME);
    let too_long =
        b"R,ABCDEFGHIJKL,TOU-P,9999999999999999,9999999999999999,9999999999999999,9999999999999999,9999999999999999,111111111111,77";
    assert_eq!(rt; too_long.len(), 121);
    assert_eq!(rt; read_and_written(too_long), SHAPE);
}

#[test]
fn readings_have_their_fields(rt: HostRuntime) -> Result<(), Fail> {
    let Ok(Call::Rate { account, reading }) = Call::read(
        b"R,Z9,LP-13,1,20,300,4000,50000,600000,7000000",
    ) else {
        return Err(Fail::new("a reading is not read"));
    };
    assert!(rt; account == b"Z9".as_slice());
    assert!(rt; reading.schedule.code() == "LP-13");
    assert_eq!(rt; reading.rooms, 1);
    assert_eq!(rt; reading.kwh, 20);
    assert_eq!(rt; reading.off_peak_kwh, 300);
    assert_eq!(rt; reading.kw, 4_000);
    assert_eq!(rt; reading.kva, 50_000);
    assert_eq!(rt; reading.off_peak_kva, 600_000);
    assert_eq!(rt; reading.contracted_load, 7_000_000);
    Ok(())
}

#[test]
fn other_calls_have_their_fields(rt: HostRuntime) -> Result<(), Fail> {
    let Ok(
        Call::File {
            rider,
            cost,
            forecast,
        },
    ) = Call::read(b"F,CILTA,-12,34")
    else {
        return Err(Fail::new("a filing is not read"));
    };
    assert!(rt; rider.code() == "CILTA");
    assert_eq!(rt; cost.0, -12);
    assert_eq!(rt; forecast, 34);
    let Ok(Call::Enter { rider, amount }) = Call::read(b"C,SUBA-HH,56") else {
        return Err(Fail::new("an entry is not read"));
    };
    assert!(rt; rider.code() == "SUBA-HH");
    assert_eq!(rt; amount.0, 56);
    Ok(())
}

const MOST: u64 = 9_999_999_999_999_999;

fn rate<'a>(account: &'a [u8], reading: Reading) -> Call<'a> {
    Call::Rate { account, reading }
}

fn filing<'a>(cost: i64, forecast: u64) -> Call<'a> {
    Call::File {
        rider: HouseRider::Fca,
        cost: MicroDollars(cost),
        forecast,
    }
}

fn entry<'a>(amount: i64) -> Call<'a> {
    Call::Enter {
        rider: HouseRider::Imp,
        amount: MicroDollars(amount),
    }
}

// A reading of nothing but this number, in this field.
fn only(field: Field, number: u64) -> Reading {
    let mut reading = EMPTY;
    match field {
        Field::Rooms => reading.rooms = number,
        Field::Kwh => reading.kwh = number,
        Field::OffPeakKwh => reading.off_peak_kwh = number,
        Field::Kw => reading.kw = number,
        Field::Kva => reading.kva = number,
        Field::OffPeakKva => reading.off_peak_kva = number,
        Field::ContractedLoad => reading.contracted_load = number,
    }
    reading
}

#[test]
fn numbers_of_17_digits_are_refused_at_their_place(rt: HostRuntime) {
    for field in &FIELDS {
        let fits = written(120, |out| rate(b"A1", only(*field, MOST)).write(out));
        assert_eq!(rt; fits, Some(Ok(37)));
        let beyond = written(120, |out| rate(b"A1", only(*field, MOST + 1)).write(out));
        assert_eq!(rt; beyond, Some(refused!(2, 1, field.number())));
    }
}

#[test]
fn refused_calls_leave_the_buffer(rt: HostRuntime) {
    let wrong = Reading {
        kva: MOST + 1,
        contracted_load: MOST + 1,
        ..EMPTY
    };
    assert_eq!(rt;
        written(120, |out| rate(b"A1", wrong).write(out)),
        Some(refused!(2, 1, 8))
    );
    assert_eq!(rt;
        written(0, |out| rate(b"a1", wrong).write(out)),
        Some(refused!(2, 1, 2))
    );
    assert_eq!(rt;
        written(120, |out| filing(i64::MIN, 1).write(out)),
        Some(refused!(2, 1, 3))
    );
    assert_eq!(rt;
        written(120, |out| filing(-1, MOST + 1).write(out)),
        Some(refused!(2, 1, 4))
    );
    assert_eq!(rt;
        written(120, |out| entry(10_000_000_000_000_000).write(out)),
        Some(refused!(2, 1, 3))
    );
    assert_eq!(rt;
        written(9, |out| filing(-1, 1).write(out)),
        Some(refused!(6, 3, 0))
    );
    assert_eq!(rt; written(10, |out| filing(-1, 1).write(out)), Some(Ok(10)));
}

// 120 bytes are written where there is room for them; 121 are not, though every field is spelt right.
#[test]
fn written_lines_have_120_bytes_at_most(rt: HostRuntime) {
    let longest = Reading {
        schedule: Schedule::TouP,
        rooms: MOST,
        kwh: MOST,
        off_peak_kwh: MOST,
        kw: MOST,
        kva: MOST,
        off_peak_kva: 111_111_111_111,
        contracted_load: 7,
    };
    let too_long = Reading {
        contracted_load: 77,
        ..longest
    };
    let account = b"ABCDEFGHIJKL";
    assert_eq!(rt;
        written(120, |out| rate(account, longest).write(out)),
        Some(Ok(120))
    );
    assert_eq!(rt;
        written(119, |out| rate(account, longest).write(out)),
        Some(refused!(6, 3, 0))
    );
    assert_eq!(rt;
        written(200, |out| rate(account, too_long).write(out)),
        Some(refused!(1, 1, 0))
    );
    assert_eq!(rt;
        written(0, |out| rate(account, too_long).write(out)),
        Some(refused!(1, 1, 0))
    );
    assert_eq!(rt;
        written(0, |out| rate(&[b'a'; 120], EMPTY).write(out)),
        Some(refused!(1, 1, 0))
    );
}

#[test]
fn places_beyond_the_line_keep_their_values(rt: HostRuntime) -> Result<(), Fail> {
    let mut buffer = [b'.'; 14];
    let Ok(len) = filing(-1, 1).write(&mut buffer) else {
        return Err(Fail::new("a filing is not written"));
    };
    assert_eq!(rt; len, 10);
    assert!(rt; buffer == *b"F,FCA,-1,1....");
    Ok(())
}
