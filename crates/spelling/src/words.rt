// The words of a text: runs of bytes between blanks.
ghost use Rattle.std.specs.Prelude.{◌≡◌, ◌++◌, ◌≤◌, ◌<◌, length, drop, IfSome};
ghost use Rattle.spelling.specs.Text.{text_of, blank, words};
ghost use Rattle.spelling.specs.Steps.{blanks, letters, ended, spelled};

// A word, and the text behind it.
#[derive(Clone, Copy)]
pub struct Word<'a> {
    pub bytes: &'a [u8],
    pub behind: &'a [u8],
}

// The text of a line: a carriage return at its end is none of it.
pub fn text_of(line: &[u8]) -> &[u8]
    ensures { result.now ≡ text_of line.now }
{
    line.strip_suffix(b"\r").unwrap_or(line)
}

#[tactic(auto, unfolding(crate::specs::Text::blank))]
fn is_blank(byte: u8) -> bool
    ensures { result ≡ blank byte }
{
    matches!(byte, b' ' | b'\t')
}

// How many blanks a text begins with.
fn blanks(text: &[u8]) -> usize
    ensures counted { result ≡ blanks text.now }
    ensures within { result ≤ length text.now }
{
    text.iter().take_while(|byte| is_blank(**byte)).count()
}

// How many bytes that are no blanks a text begins with.
fn letters(text: &[u8]) -> usize
    ensures counted { result ≡ letters text.now }
    ensures within { result ≤ length text.now }
{
    text.iter().take_while(|byte| !is_blank(**byte)).count()
}

// The first word of a text, if it has one.
pub fn next_word(text: &[u8]) -> Option<Word>
    ensures parted { words text.now ≡ spelled result }
    ensures shorter { IfSome result (λ word. length word.behind.now < length text.now) }
    ensures cut { IfSome result (λ word. word.bytes.now ++ word.behind.now ≡ drop (blanks text.now) text.now) }
{
    let word = &text[blanks(text)..];
    let end = letters(word);
    if end == 0 {
        return None;
    }
    let (bytes, behind) = word.split_at(end);
    Some(Word { bytes, behind })
}

// No word is left.
#[tactic(auto, unfolding(crate::specs::Steps::ended))]
pub fn at_end(text: &[u8]) -> bool
    ensures { result ≡ ended (words text.now) }
{
    next_word(text).is_none()
}
