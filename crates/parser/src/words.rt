// The words of a line, one after another.
ghost use Rattle.std.specs.Prelude.{◌≡◌, ◌≤◌, ℕ, Bool, length, Some};
ghost use Rattle.std.specs.List.{prefix_len};
ghost use Rattle.parser.specs.Wants.{wanted_words};
ghost use Rattle.parser.specs.Words.{blank, rest_of, solid, word_of};

use super::field::Field;
use std::fmt;

// What should have stood in place of a word.
#[derive(Clone, Copy)]
pub enum Wanted {
    Call,
    Name(Field),
    Number(Field),
    End,
}

impl fmt::Display for Wanted {
    ghost output = { λ w. Some (wanted_words w) };

    fn fmt<W: fmt::Write>(&self, f: &mut fmt::Formatter<W>) -> fmt::Result {
        match self {
            Wanted::Call => write!(f, "the name of a call"),
            Wanted::Name(field) => write!(f, "{field}"),
            Wanted::Number(field) => {
                let most = field.most();
                write!(f, "a number up to {most} ({field})")
            }
            Wanted::End => write!(f, "the end of the line"),
        }
    }
}

// The word at fault, empty at the end of the line, and what should have stood there.
#[derive(Clone, Copy)]
pub struct Misread<'a> {
    pub word: &'a [u8],
    pub wanted: Wanted,
}

fn is_blank(byte: u8) -> bool
    ensures { result ≡ blank byte }
{
    byte <= 32
}

fn is_solid(byte: u8) -> bool
    ensures { result ≡ solid byte }
{
    byte > 32 && byte != b'#'
}

// How many bytes at the front pass a test.
fn front<F: Fn(u8) -> bool>(text: &[u8], passes: F) -> usize
    requires { F.IsAlwaysCallable passes }
    ensures value { (p : ℕ → Bool) → ((b : ℕ) (r : Bool) → F.post passes b r → r ≡ p b) → result ≡ prefix_len p text.now }
    ensures within { result ≤ length text.now }
{
    let other = text.iter().position(|byte| !passes(*byte));
    other.unwrap_or(text.len())
}

// The first word of a text, empty if there is none, and what stands after it.
pub fn first_word(text: &[u8]) -> (&[u8], &[u8])
    ensures word { result.0.now ≡ word_of text.now }
    ensures rest { result.1.now ≡ rest_of text.now }
{
    let (_, text) = text.split_at(front(text, is_blank));
    text.split_at(front(text, is_solid))
}
