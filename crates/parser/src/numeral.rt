// The number that a word of decimal digits writes, if it is at most so large.
ghost use Rattle.std.specs.Prelude.{◌≡◌, ◌≤◌, IfSome};
ghost use Rattle.parser.specs.Numerals.{number_of};

// A loop, since the library's `parse` also takes a sign, and no word is a `str`.
pub fn numeral(word: &[u8], most: u32) -> Option<u32>
    ensures value { result ≡ number_of most word.now }
    ensures within { IfSome result (λ n. n ≤ most) }
{
    if word.is_empty() {
        return None;
    }
    let mut number = 0u64;
    for byte in word {
        if !byte.is_ascii_digit() {
            return None;
        }
        number = number * 10 + u64::from(*byte - b'0');
        if number > u64::from(most) {
            return None;
        }
    }
    Some(number as u32)
}
