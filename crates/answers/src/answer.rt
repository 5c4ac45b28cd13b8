// An answer to a call.
use fields::rider::{HOUSE_RIDERS, HouseRider};
use money::amount::{Cents, MicroDollars};
use tariff::bill::BaseLines;
use tariff::refusal::Refusal;

// Every rider of the house bank has a line on every bill.
pub const RIDER_LINES: usize = HOUSE_RIDERS.len();

// The most bytes of an answer line, its line feed aside: a bill whose every number is as long as its type allows.
pub const MAX_ANSWER: usize = 298;

#[derive(Clone, Copy, PartialEq, Eq, Debug)]
pub enum Answer<'a> {
    // a bill, with the account of the call and the riders' lines in the order of the bank
    Bill {
        number: u32,
        account: &'a [u8],
        base: BaseLines,
        riders: [Cents; RIDER_LINES],
        total: Cents,
    },
    // the bill was posted
    Posted {
        number: u32,
    },
    // the bill was voided
    Voided {
        number: u32,
    },
    // the cost was filed; the rider's new factor
    Filed {
        rider: HouseRider,
        factor: MicroDollars,
    },
    // the amount was entered; the rider's new balance
    Entered {
        rider: HouseRider,
        balance: MicroDollars,
    },
    // the rider's balance and factor, and since its last filing the units forecast and sold, the bills posted and the money
    // entered
    Report {
        rider: HouseRider,
        balance: MicroDollars,
        factor: MicroDollars,
        forecast: u64,
        sold: u64,
        bills: u32,
        entered: MicroDollars,
    },
    Refused(Refusal),
}
