// The numbers of a text. They saturate: every number above the most that any call takes is the same number, one above it.
ghost use Rattle.std.specs.Prelude.{◌≡◌, ◌≤◌, min};
ghost use Rattle.spelling.specs.Text.{words};
ghost use Rattle.spelling.specs.Number.{grown, number_of, numbers, byte_of};
ghost use Rattle.spelling.specs.Steps.{most, numeral, exactly, count_of};

use crate::words::{at_end, next_word};

// The most bytes of history that a game can be lent: the largest number that any call takes.
pub const MAX_LENT: usize = 1048576;

// The number that stands for every number above the most bytes of history.
const MOST: usize = MAX_LENT + 1;

// The byte that stands for a number.
#[tactic(auto, unfolding(crate::specs::Number::byte_of))]
pub fn byte_of(number: usize) -> u8
    ensures { result ≡ byte_of number }
{
    u8::try_from(number).unwrap_or(u8::MAX)
}

// A number with one digit more.
#[tactic(auto, unfolding(crate::specs::Number::grown))]
fn grow(number: usize, digit: u8) -> usize
    requires { (number ≤ most) × (48 ≤ digit) × (digit ≤ 57) }
    ensures { result ≡ min (grown number digit) most }
{
    (10 * number + usize::from(digit - b'0')).min(MOST)
}

// The number that a word writes.
pub fn number_of(word: &[u8]) -> Option<usize>
    ensures { result ≡ numeral (number_of word.now) }
{
    let mut number = 0;
    for &digit in word {
        if !digit.is_ascii_digit() {
            return None;
        }
        number = grow(number, digit);
    }
    Some(number)
}

// The numbers that the words of a text write, where they are as many as the caller takes.
pub fn numbers<const N: usize>(text: &[u8]) -> Option<[usize; N]>
    ensures { result ≡ exactly N (numbers (words text.now)) }
{
    let mut found = [0; N];
    let mut rest = text;
    for i in 0..N {
        let word = next_word(rest)?;
        found[i] = number_of(word.bytes)?;
        rest = word.behind;
    }
    if at_end(rest) { Some(found) } else { None }
}

// How many numbers the words of a text write.
pub fn count_numbers(text: &[u8]) -> Option<usize>
    ensures { result ≡ count_of (numbers (words text.now)) }
{
    let mut count = 0;
    let mut rest = text;
    while let Some(word) = next_word(rest) {
        number_of(word.bytes)?;
        rest = word.behind;
        count += 1;
    }
    Some(count)
}
