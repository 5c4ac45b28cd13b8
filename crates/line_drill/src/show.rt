// A call line, what it says and what is answered to it, as a person reads it.
use crate::lines::Noted;
use crate::written::written;
use answers::answer::{Answer, MAX_ANSWER};
use calls::call::{Call, MAX_LINE};
use money::amount::MicroDollars;
use statement::statement::Statement;
use std::fmt;
use std::str::from_utf8;
use tariff::reading::Reading;
use tariff::refusal::Refusal;

pub(crate) fn show_noted(rt: &impl Print, noted: &Noted) -> anyhow::Result<()> {
    let Noted { note, line } = noted;
    println!(rt; "{line:?}\n  {note}")?;
    match Call::read(line.as_bytes()) {
        Ok(call) => {
            show_call(rt, call)?;
            show_again(rt, line.as_bytes(), call)?;
        }
        Err(fault) => show_refusal(rt, fault)?,
    }
    println!(rt; "")?;
    Ok(())
}

fn show_call(rt: &impl Print, call: Call) -> anyhow::Result<()> {
    match call {
        Call::Rate { account, reading } => show_rate(rt, account, &reading)?,
        Call::Post => println!(rt; "  post")?,
        Call::Void => println!(rt; "  void")?,
        Call::File {
            rider,
            cost: MicroDollars(cost),
            forecast,
        } => println!(rt; "  file {rider}: cost {cost} micro-dollars, forecast {forecast} units")?,
        Call::Enter {
            rider,
            amount: MicroDollars(amount),
        } => println!(rt; "  enter {rider}: {amount} micro-dollars")?,
        Call::Report { rider } => println!(rt; "  report {rider}")?,
    }
    Ok(())
}

fn show_rate(rt: &impl Print, account: &[u8], reading: &Reading) -> anyhow::Result<()> {
    let account = from_utf8(account)?;
    let schedule = reading.schedule;
    println!(rt; "  account {account}, schedule {schedule}\n  {reading}")?;
    match reading.rate() {
        Ok(rated) => println!(rt; "{}", Statement { rated: &rated })?,
        Err(fault) => show_refusal(rt, fault)?,
    }
    Ok(())
}

// Writes the call, and says whether that is the line it was read from.
fn show_again(rt: &impl Print, line: &[u8], call: Call) -> anyhow::Result<()> {
    let mut buffer = [0; MAX_LINE];
    match written(&mut buffer, |buffer| call.write(buffer)) {
        Ok(again) => {
            let which = if again == line {
                "the same"
            } else {
                "another line"
            };
            println!(rt; "  written again, {which}: {}", from_utf8(again)?)?;
        }
        Err(fault) => show_refusal(rt, fault)?,
    }
    Ok(())
}

// The line that answers a refusal, and the reason.
fn show_refusal<F: fmt::Display + Copy>(rt: &impl Print, fault: F) -> anyhow::Result<()>
where
    Refusal: From<F>,
{
    let answer = Answer::Refused(Refusal::from(fault));
    let mut buffer = [0; MAX_ANSWER];
    let line = written(&mut buffer, |buffer| answer.write(buffer))?;
    println!(rt; "  answer {}: {fault}", from_utf8(line)?)?;
    Ok(())
}
