// Why no script was made of a text.
ghost use Rattle.std.specs.Prelude.{◌≡◌};
ghost use Rattle.assembly.specs.declared.failure.Failure.TheVariants.{NoMemory};

use parser::Misread;
use std::alloc::AllocError;
use std::fmt;

#[derive(Clone, Copy)]
pub enum Failure<'a> {
    NoMemory,
    // A line, counted from 1, that says no call.
    BadLine { number: usize, misread: Misread<'a> },
}

impl<'a> From<AllocError> for Failure<'a> {
    ghost from_gives = { λ _ failure. failure ≡ NoMemory };

    fn from(_: AllocError) -> Failure<'a> {
        Self::NoMemory
    }
}

// A word as it is quoted; the end of the line has none.
fn quoted(word: &[u8]) -> &str {
    if word.is_empty() {
        return "the end of the line";
    }
    std::str::from_utf8(word).unwrap_or("bytes that are no text")
}

impl<'a> fmt::Display for Failure<'a> {
    fn fmt<W: fmt::Write>(&self, f: &mut fmt::Formatter<W>) -> fmt::Result {
        match self {
            Failure::NoMemory => write!(f, "not enough memory"),
            Failure::BadLine { number, misread } => {
                let word = quoted(misread.word);
                let wanted = misread.wanted;
                write!(f, "line {number}: {word}: expected {wanted}")
            }
        }
    }
}
