// A call, as its line says it.
use fields::rider::HouseRider;
use money::amount::MicroDollars;
use tariff::reading::Reading;

// The most bytes of a call line, its line feed aside.
pub const MAX_LINE: usize = 120;

#[derive(Clone, Copy, PartialEq, Eq, Debug)]
pub enum Call<'a> {
    // rate a reading; the account is the part of the line that spells it
    Rate {
        account: &'a [u8],
        reading: Reading,
    },
    // post the bill that is not posted yet
    Post,
    // void it
    Void,
    // file a rider's cost and the units that are expected to carry it
    File {
        rider: HouseRider,
        cost: MicroDollars,
        forecast: u64,
    },
    // enter an amount into a rider's balance
    Enter {
        rider: HouseRider,
        amount: MicroDollars,
    },
    // report a rider's numbers
    Report {
        rider: HouseRider,
    },
}
