//! Why the words of a command line may ask for nothing.

use thiserror::Error;

/// Why words ask for nothing. Its text is what is said of it.
#[derive(Debug, Drop, Error)]
pub enum ArgsFault {
    /// They are refused; the text has all that is said of them.
    #[error("{0}")]
    CommandLine(String),
    /// One of them is no text.
    #[error("a word of the command line is not UTF-8")]
    NotText,
    /// There is not enough memory.
    #[error("out of memory")]
    OutOfMemory,
}
