// Writing an answer line.
ghost use Rattle.std.specs.Prelude.{◌≡◌, ◌<◌, ◌≤◌, [], ◌∷◌, length, is_ok, if◌then◌else◌, Ok};
ghost use Rattle.std.specs.Fmt.{signed_decimal};
ghost use Rattle.fields.specs.Buffers.{at_front};
ghost use Rattle.fields.specs.Lines.{with_commas};
ghost use Rattle.fields.specs.Riders.{rider_code};
ghost use Rattle.fields.specs.LineBuffers.{Extends};
ghost use Rattle.tariff.specs.Orders.{decision, verdict};
ghost use Rattle.answers.specs.Limits.{max_answer};
ghost use Rattle.answers.specs.Lines.{reply_letter, field_bytes, reply_line, misspellings, answered};
ghost use Rattle.answers.specs.Replies.{amounts, base_lines, meaning};

use crate::answer::{Answer, MAX_ANSWER, RIDER_LINES};
use fields::account::is_account;
use fields::buffer::copy_line;
use fields::code::Coded;
use fields::fault::{LineFault, LineField};
use fields::line::LineBuffer;
use fields::rider::HouseRider;
use money::amount::{Cents, MicroDollars};
use tariff::bill::BaseLines;

// The base lines in the order of the answer.
fn base_lines(base: &BaseLines) -> [i64; 5]
    ensures { result ≡ amounts (base_lines base.now) }
{
    [
        base.customer.0,
        base.energy.0,
        base.demand.0,
        base.excess.0,
        base.lift.0,
    ]
}

fn rider_lines(lines: &[Cents; RIDER_LINES]) -> [i64; RIDER_LINES]
    ensures { result ≡ amounts lines.now }
{
    lines.map(|line| line.0)
}

// A rider's code, and an amount of its money.
fn put_money(buffer: &mut LineBuffer<MAX_ANSWER>, rider: HouseRider, money: MicroDollars)
    ensures value { Extends max_answer buffer.old buffer.new (with_commas (rider_code rider ∷ signed_decimal money.0 ∷ [])) }
    ensures bound { length (with_commas (rider_code rider ∷ signed_decimal money.0 ∷ [])) < 32 }
{
    buffer.field(rider.code_bytes());
    buffer.number(money.0);
}

impl<'a> Answer<'a> {
    // A bill with a misspelt account is refused.
    fn check_spelling(self) -> Result<(), LineFault>
        ensures { verdict result ≡ decision (misspellings (meaning self.entry)) }
    {
        if let Answer::Bill { account, .. } = self
            && !is_account(account)
        {
            return Err(LineFault::Misspelt(LineField::Account));
        }
        Ok(())
    }

    fn letter(self) -> &'static [u8]
        ensures { result.now ≡ reply_letter (meaning self.entry) }
    {
        match self {
            Answer::Bill { .. } => b"D",
            Answer::Posted { .. } => b"P",
            Answer::Voided { .. } => b"V",
            Answer::Filed { .. } => b"F",
            Answer::Entered { .. } => b"C",
            Answer::Report { .. } => b"Q",
            Answer::Refused(_) => b"X",
        }
    }

    // The answer's fields, each after a comma.
    fn put_fields(self, buffer: &mut LineBuffer<MAX_ANSWER>)
        ensures value { Extends max_answer buffer.old buffer.new (field_bytes (meaning self.entry)) }
        ensures bound { decision (misspellings (meaning self.entry)) ≡ Ok tt → length (field_bytes (meaning self.entry)) < max_answer }
    {
        match self {
            Answer::Bill {
                number,
                account,
                base,
                riders,
                total,
            } => {
                buffer.number(number);
                buffer.field(account);
                buffer.numbers(&base_lines(&base));
                buffer.numbers(&rider_lines(&riders));
                buffer.number(total.0);
            }
            // One arm for both is no plainer: its proof would have to cite names that the toolchain makes.
            Answer::Posted { number } => buffer.number(number),
            Answer::Voided { number } => buffer.number(number),
            Answer::Filed { rider, factor } => put_money(buffer, rider, factor),
            Answer::Entered { rider, balance } => put_money(buffer, rider, balance),
            Answer::Report {
                rider,
                balance,
                factor,
                forecast,
                sold,
                bills,
                entered,
            } => {
                buffer.field(rider.code_bytes());
                buffer.number(balance.0);
                buffer.number(factor.0);
                buffer.number(forecast);
                buffer.number(sold);
                buffer.number(bills);
                buffer.number(entered.0);
            }
            Answer::Refused(refusal) => {
                buffer.number(refusal.number);
                buffer.number(refusal.layer);
                buffer.number(refusal.field);
            }
        }
    }

    // Writes the answer's line, without a line feed, to the front of a buffer, and answers how many bytes it has. A refusal
    // leaves the buffer as it was.
    pub fn write(self, out: &mut [u8]) -> Result<usize, LineFault>
        ensures value { result ≡ answered (meaning self.entry) (length out.old) }
        ensures after { out.new ≡ (if is_ok result then at_front (reply_line (meaning self.entry)) out.old else out.old) }
        ensures suffices { max_answer ≤ length out.old → verdict result ≡ decision (misspellings (meaning self.entry)) }
    {
        self.check_spelling()?;
        let mut buffer = LineBuffer::<MAX_ANSWER>::new();
        buffer.append(self.letter());
        self.put_fields(&mut buffer);
        let Some(line) = buffer.line() else {
            unreachable()
        };
        copy_line(line, out)
    }
}
