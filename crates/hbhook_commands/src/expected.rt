//! What was expected of a rejected line.
use thiserror::Error;

/// A number that one byte holds.
pub(crate) const BYTE: Expected = Expected::Number(0xFF);

/// A number that two bytes hold.
pub(crate) const TWO_BYTES: Expected = Expected::Number(0xFFFF);

/// A number that four bytes hold.
pub(crate) const FOUR_BYTES: Expected = Expected::Number(0xFFFF_FFFF);

/// A place or a length.
pub(crate) const COUNT: Expected = Expected::Number(usize::MAX);

/// What was expected of a line, or of a field of it.
#[derive(Clone, Copy, Debug, Error)]
pub enum Expected {
    #[error("bytes of UTF-8")]
    Text,
    #[error("no byte order mark")]
    NoByteOrderMark,
    #[error("a line feed alone at the end, without a carriage return")]
    LineFeed,
    #[error("a line that does something; only a named file may have comments, which begin with #")]
    Command,
    #[error("one space between two fields, and none at either end")]
    OneSpace,
    /// The fields that such a line has.
    #[error("these fields: {0}")]
    Fields(&'static str),
    /// One of some words.
    #[error("one of these words: {0}")]
    Word(&'static str),
    /// A number up to the greatest.
    #[error("a decimal number from 0 to {0}")]
    Number(usize),
    #[error("a decimal number of 32 bits, with a minus where it is negative")]
    Signed,
    #[error("a hexadecimal number of 32 bits, without a prefix")]
    Hexadecimal,
    #[error("a character: hexadecimal, to 10FFFF, and none of D800 to DFFF")]
    Character,
    #[error("four ASCII characters, none of them a space")]
    FourCharacters,
    /// A condition of the line's call.
    #[error("{0}")]
    Condition(&'static str),
}

impl Expected {
    /// What was expected of a rejected line as a whole: what holds of every line comes first.
    pub(crate) fn of_line(self, line: &str) -> Self {
        if line.starts_with('\u{FEFF}') {
            Expected::NoByteOrderMark
        } else if line.ends_with('\r') {
            Expected::LineFeed
        } else if line.is_empty() || line.starts_with('#') || line.starts_with("//") {
            Expected::Command
        } else if line.contains('\t') || line.split(' ').any(|field| field.is_empty()) {
            Expected::OneSpace
        } else {
            self
        }
    }
}
