// What is left of a line, and the numbers that are taken from it.
ghost use Rattle.std.specs.Prelude.{◌≡◌, ◌≤◌, IfOk};
ghost use Rattle.parser.specs.Fields.{most_of};
ghost use Rattle.parser.specs.Left.{left};
ghost use Rattle.parser.specs.Parsed.{named_from, took, value_from};
ghost use Rattle.parser.specs.Words.{rest_of, word_of};

use super::field::Field;
use super::numeral::numeral;
use super::words::{Misread, Wanted, first_word};

#[derive(Drop)]
pub struct Words<'a> {
    pub rest: &'a [u8],
}

impl<'a> Words<'a> {
    // The next word, empty if there is none.
    pub fn word(&mut self) -> &'a [u8]
        ensures word { result.now ≡ word_of (left self.old) }
        ensures rest { left self.new ≡ rest_of (left self.old) }
    {
        let (word, rest) = first_word(self.rest);
        self.rest = rest;
        word
    }

    // A number.
    pub fn value(&mut self, field: Field) -> Result<u32, Misread<'a>>
        ensures takes { took result (left self.new) ≡ value_from field (left self.old) }
        ensures fits { IfOk result (λ n. n ≤ most_of field) }
    {
        let word = self.word();
        numeral(word, field.most()).ok_or(Misread {
            word,
            wanted: Wanted::Number(field),
        })
    }

    // The field's name and a number.
    pub fn named(&mut self, field: Field) -> Result<u32, Misread<'a>>
        ensures takes { took result (left self.new) ≡ named_from field (left self.old) }
        ensures fits { IfOk result (λ n. n ≤ most_of field) }
    {
        let word = self.word();
        if word != field.name().as_bytes() {
            return Err(Misread {
                word,
                wanted: Wanted::Name(field),
            });
        }
        self.value(field)
    }
}
