// What a line begins with.
ghost use Rattle.std.specs.Prelude.{◌≤◌, length, Some};
ghost use Rattle.statement.specs.Layout.{label};

use std::fmt;

// The width of the column that names stand in.
pub(crate) const WIDTH: usize = 20;

// A name that its column has room for.
#[derive(Clone, Copy)]
pub(crate) struct Label<'a> {
    pub(crate) name: &'a str,
    ghost short: { length name.now ≤ 20 },
}

impl<'a> fmt::Display for Label<'a> {
    ghost output = { λ l. Some (label l.name.now) };

    fn fmt<W: fmt::Write>(&self, f: &mut fmt::Formatter<W>) -> fmt::Result {
        write!(f, "  {:<WIDTH$}", self.name)
    }
}
