use crate::stop::RowStop;
use std::alloc::Global;
use std::fmt;
use std::fmt::Display;

/// The lines that a row prints.
#[derive(Drop)]
pub(crate) struct Lines {
    text: String,
}

impl Lines {
    pub(crate) fn new(alloc: Global) -> Lines {
        Lines {
            text: String::new(alloc),
        }
    }

    /// Adds a line, or several that are divided by line ends.
    pub(crate) fn add<T: Display + Drop>(&mut self, line: T) -> Result<(), RowStop> {
        Ok(writeln!(self.text, "{line}")?)
    }

    /// All of them, each with its line end.
    pub(crate) fn text(&self) -> &str {
        self.text.as_str()
    }
}

/// Bytes as lower-case hexadecimal digits.
#[derive(Clone, Copy)]
pub(crate) struct Hex<'a>(pub &'a [u8]);

impl Display for Hex<'_> {
    fn fmt<W: fmt::Write>(&self, f: &mut fmt::Formatter<W>) -> fmt::Result {
        for byte in self.0 {
            write!(f, "{byte:02x}")?;
        }
        Ok(())
    }
}
