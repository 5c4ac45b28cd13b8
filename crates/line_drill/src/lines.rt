// The lines: readings of each schedule, the edges where a price, a floor or a verdict changes, one for each refusal of rating,
// the other calls, and one for each refusal of a line.

// A call line without its line feed, and what it is there to show.
#[derive(Clone, Copy)]
pub(crate) struct Noted {
    pub(crate) note: &'static str,
    pub(crate) line: &'static str,
}

pub(crate) const LINES: &[Noted] = &[
    Noted {
        note: "no kWh: the customer charge is the floor",
        line: "R,A1,GRS,0,0,0,0,0,0,0",
    },
    Noted {
        note: "the last kWh at the first price",
        line: "R,HALL7,GRS,0,425,0,0,0,0,0",
    },
    Noted {
        note: "one kWh at the further price",
        line: "R,Z,GRS,0,426,0,0,0,0,0",
    },
    Noted {
        note: "lifeline service, both prices",
        line: "R,SHOP12,LRS,0,500,0,0,0,0,0",
    },
    Noted {
        note: "public housing, both prices",
        line: "R,0,RH3,0,500,0,0,0,0,0",
    },
    Noted {
        note: "one room, one kWh beyond those covered",
        line: "R,MILL,RFR,1,601,0,0,0,0,0",
    },
    Noted {
        note: "two rooms, all kWh covered",
        line: "R,B2,RFR,2,800,0,0,0,0,0",
    },
    Noted {
        note: "two rooms, one kWh beyond",
        line: "R,UNIT4,RFR,2,801,0,0,0,0,0",
    },
    Noted {
        note: "three rooms, one kWh beyond",
        line: "R,CAMPUS123456,RFR,3,801,0,0,0,0,0",
    },
    Noted {
        note: "four rooms, one kWh beyond",
        line: "R,77,RFR,4,1001,0,0,0,0,0",
    },
    Noted {
        note: "five rooms, one kWh beyond",
        line: "R,A1,RFR,5,1001,0,0,0,0,0",
    },
    Noted {
        note: "one price, half a cent rounded up",
        line: "R,HALL7,GSS,0,500,0,0,0,0,0",
    },
    Noted {
        note: "demand above the contracted load is charged besides",
        line: "R,Z,GSP,0,30001,0,100,120,0,100",
    },
    Noted {
        note: "a small plant is lifted to the floor",
        line: "R,SHOP12,GSP,0,1000,0,10,10,0,10",
    },
    Noted {
        note: "0 kW: every kWh at the further price",
        line: "R,0,GSP,0,1000,0,0,60,0,60",
    },
    Noted {
        note: "the greatest base of all",
        line: "R,MILL,GSP,0,9999999,0,99999,99999,0,0",
    },
    Noted {
        note: "transmission voltage, both prices",
        line: "R,B2,GST,0,100000,0,250,300,0,300",
    },
    Noted {
        note: "nothing drawn: all of the floor but the customer charge is lifted",
        line: "R,UNIT4,GST,0,0,0,0,0,0,0",
    },
    Noted {
        note: "demand above the contracted load, transmission voltage",
        line: "R,CAMPUS123456,GST,0,0,0,0,110,0,100",
    },
    Noted {
        note: "energy is left out of the floor",
        line: "R,77,TOU-P,0,1000,2000,0,100,200,1000",
    },
    Noted {
        note: "the smaller floor",
        line: "R,A1,TOU-P,0,0,0,0,0,0,2999",
    },
    Noted {
        note: "the larger floor",
        line: "R,HALL7,TOU-P,0,0,0,0,0,0,3000",
    },
    Noted {
        note: "both periods are summed before the cent is rounded",
        line: "R,Z,TOU-T,0,1,1,0,1,1,1000",
    },
    Noted {
        note: "the larger floor, transmission voltage",
        line: "R,SHOP12,TOU-T,0,0,0,0,0,0,3000",
    },
    Noted {
        note: "agricultural service, one price",
        line: "R,0,GAS,0,1000,0,0,0,0,0",
    },
    Noted {
        note: "the last kWh at the first price",
        line: "R,MILL,LP-13,0,50000,0,500,0,0,0",
    },
    Noted {
        note: "one kWh at the further price",
        line: "R,B2,LP-13,0,50001,0,500,0,0,0",
    },
    Noted {
        note: "nothing drawn: the whole floor is lifted",
        line: "R,UNIT4,LP-13,0,0,0,0,0,0,0",
    },
    Noted {
        note: "the fixed rate has at least one room",
        line: "R,CAMPUS123456,RFR,0,1,0,0,0,0,0",
    },
    Noted {
        note: "the fixed rate has at most five rooms",
        line: "R,77,RFR,6,1,0,0,0,0,0",
    },
    Noted {
        note: "the most kWh",
        line: "R,A1,GSS,0,9999999,0,0,0,0,0",
    },
    Noted {
        note: "one kWh too many",
        line: "R,HALL7,GSS,0,10000000,0,0,0,0,0",
    },
    Noted {
        note: "too many off-peak kWh",
        line: "R,Z,TOU-P,0,0,10000000,0,0,0,1000",
    },
    Noted {
        note: "a limit holds where the field is not used",
        line: "R,SHOP12,GRS,0,0,0,100000,0,0,0",
    },
    Noted {
        note: "within the limit, but not used",
        line: "R,0,GRS,0,0,0,99999,0,0,0",
    },
    Noted {
        note: "too many kVA",
        line: "R,MILL,GST,0,0,0,0,100000,0,0",
    },
    Noted {
        note: "too many off-peak kVA",
        line: "R,B2,TOU-T,0,0,0,0,0,100000,1000",
    },
    Noted {
        note: "too great a load",
        line: "R,UNIT4,GSP,0,0,0,0,0,0,100000",
    },
    Noted {
        note: "of two ranges the leftmost is told",
        line: "R,CAMPUS123456,GRS,0,0,0,100000,100000,0,0",
    },
    Noted {
        note: "rooms belong to the fixed rate",
        line: "R,77,GRS,1,1,0,0,0,0,0",
    },
    Noted {
        note: "off-peak kWh belong to time of use",
        line: "R,A1,GSP,0,0,1,0,0,0,0",
    },
    Noted {
        note: "kVA are not read here",
        line: "R,HALL7,LP-13,0,0,0,1,1,0,0",
    },
    Noted {
        note: "off-peak kVA belong to time of use",
        line: "R,Z,GST,0,0,0,0,1,1,0",
    },
    Noted {
        note: "a load is not contracted here",
        line: "R,SHOP12,GAS,0,0,0,0,0,0,1",
    },
    Noted {
        note: "a range comes before any unused field",
        line: "R,0,GRS,1,0,0,0,0,0,100000",
    },
    Noted {
        note: "an unused field comes before a contradiction",
        line: "R,MILL,GSP,0,0,0,11,10,1,10",
    },
    Noted {
        note: "as many kW as kVA",
        line: "R,B2,GSP,0,0,0,10,10,0,10",
    },
    Noted {
        note: "more kW than kVA",
        line: "R,UNIT4,GSP,0,0,0,11,10,0,10",
    },
    Noted {
        note: "the most kWh in both periods",
        line: "R,CAMPUS123456,TOU-P,0,5000000,4999999,0,0,0,1000",
    },
    Noted {
        note: "one kWh too many in both periods",
        line: "R,77,TOU-P,0,5000000,5000000,0,0,0,1000",
    },
    Noted {
        note: "too many kWh come before too small a load",
        line: "R,A1,TOU-T,0,5000000,5000000,0,0,0,999",
    },
    Noted {
        note: "one kVA below the least load",
        line: "R,HALL7,TOU-P,0,1000,2000,0,100,200,999",
    },
    Noted {
        note: "six numbers of 16 digits: read, and then out of range",
        line: "R,A1,GRS,0,9999999999999999,9999999999999999,9999999999999999,9999999999999999,9999999999999999,9999999999999999",
    },
    Noted {
        note: "a filing",
        line: "F,FCA,1000000,3",
    },
    Noted {
        note: "a filing of money that is given back",
        line: "F,IMP,-1000000000000000,1000000000000",
    },
    Noted {
        note: "an entry",
        line: "C,SUBA-HH,15",
    },
    Noted {
        note: "an entry below 0, the longest rider's code and the longest number",
        line: "C,SUBA-NHH,-9999999999999999",
    },
    Noted {
        note: "a report",
        line: "Q,PPCA",
    },
    Noted {
        note: "the other riders' codes",
        line: "Q,FOS",
    },
    Noted {
        note: "the other riders' codes",
        line: "Q,CILTA",
    },
    Noted {
        note: "a posting",
        line: "P",
    },
    Noted {
        note: "a voiding",
        line: "V",
    },
    Noted {
        note: "no letter at all",
        line: "",
    },
    Noted {
        note: "a letter is a capital letter",
        line: "p",
    },
    Noted {
        note: "a letter is one byte",
        line: "PP",
    },
    Noted {
        note: "no call has this letter",
        line: "X,1,1,0",
    },
    Noted {
        note: "nothing follows this letter",
        line: "P,",
    },
    Noted {
        note: "a field too few",
        line: "Q",
    },
    Noted {
        note: "a field too few",
        line: "R,A1,GRS,0,1,0,0,0,0",
    },
    Noted {
        note: "a field too many",
        line: "R,A1,GRS,0,1,0,0,0,0,0,0",
    },
    Noted {
        note: "a carriage return is a byte like any other",
        line: "P\r",
    },
    Noted {
        note: "no account",
        line: "R,,GRS,0,1,0,0,0,0,0",
    },
    Noted {
        note: "a small letter in the account",
        line: "R,a1,GRS,0,1,0,0,0,0,0",
    },
    Noted {
        note: "13 bytes of account",
        line: "R,CAMPUS1234567,GRS,0,1,0,0,0,0,0",
    },
    Noted {
        note: "no such schedule",
        line: "R,A1,GRX,0,1,0,0,0,0,0",
    },
    Noted {
        note: "of two faults the leftmost is told",
        line: "R,A1,GRX,x,1,0,0,0,0,0",
    },
    Noted {
        note: "no number",
        line: "R,A1,GRS,,1,0,0,0,0,0",
    },
    Noted {
        note: "a needless zero",
        line: "R,A1,GRS,0,01,0,0,0,0,0",
    },
    Noted {
        note: "two zeros",
        line: "R,A1,GRS,0,1,00,0,0,0,0",
    },
    Noted {
        note: "a minus where none may be",
        line: "R,A1,GRS,0,1,0,-1,0,0,0",
    },
    Noted {
        note: "a plus",
        line: "R,A1,GRS,0,1,0,0,+1,0,0",
    },
    Noted {
        note: "17 digits",
        line: "R,A1,GRS,0,1,0,0,0,10000000000000000,0",
    },
    Noted {
        note: "a blank",
        line: "R,A1,GRS,0,1,0,0,0,0, 1",
    },
    Noted {
        note: "no such rider",
        line: "F,FCB,1,x",
    },
    Noted {
        note: "no cost",
        line: "F,FCA,,1",
    },
    Noted {
        note: "no -0",
        line: "F,FCA,-0,1",
    },
    Noted {
        note: "a forecast has no sign",
        line: "F,FCA,1,-1",
    },
    Noted {
        note: "17 digits after the minus",
        line: "C,FCA,-10000000000000000",
    },
    Noted {
        note: "only a minus",
        line: "C,FCA,-",
    },
    Noted {
        note: "no rider",
        line: "Q,",
    },
    Noted {
        note: "the carriage return is part of the code",
        line: "Q,FCA\r",
    },
    Noted {
        note: "120 bytes: not too long to be read",
        line: "Q,AAAAAAAAAAAAAAAAAAAAAAAAAAAAAAAAAAAAAAAAAAAAAAAAAAAAAAAAAAAAAAAAAAAAAAAAAAAAAAAAAAAAAAAAAAAAAAAAAAAAAAAAAAAAAAAAAAAAAA",
    },
    Noted {
        note: "121 bytes: too long to be read",
        line: "Q,AAAAAAAAAAAAAAAAAAAAAAAAAAAAAAAAAAAAAAAAAAAAAAAAAAAAAAAAAAAAAAAAAAAAAAAAAAAAAAAAAAAAAAAAAAAAAAAAAAAAAAAAAAAAAAAAAAAAAAA",
    },
];
