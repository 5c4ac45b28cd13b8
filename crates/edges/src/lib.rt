// Tests on worked examples: the edges where an amount, a verdict or a line changes.
#![tactic(auto)]

#[cfg(test)]
mod answer_lines;
#[cfg(test)]
mod call_lines;
#[cfg(test)]
mod callers;
#[cfg(test)]
mod tests;
#[cfg(test)]
mod told;
