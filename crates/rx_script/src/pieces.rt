//! Splits text into lines and words.

ghost use Rattle.std.specs.Prelude.{◌≡◌, ℕ, ◌+◌, ◌<◌, [], ◌∷◌, ◌==◌, length, true, option_map, MatchOption, IfSome};
ghost use Rattle.std.specs.List.{slice_split, position};
ghost use Rattle.rx_script.specs.Pieces.{cut, pieces_left, bytes_left, words_left, line_left, lines_of, is_spaced};

use memchr::memchr;

/// Where the first separator stands.
fn place_of(separator: u8, text: &[u8]) -> Option<usize>
    ensures { result ≡ position (λ b. b == separator) text.now }
{
    memchr(separator, text)
}

/// The text before the first separator, and the text after it, or `None` if there is no separator.
pub fn cut(separator: u8, text: &[u8]) -> (&[u8], Option<&[u8]>)
    ensures parts { (result.0.now, option_map (λ t. t.now) result.1) ≡ cut separator text.now }
    ensures pieces { slice_split (λ b. b == separator) text.now
        ≡ result.0.now ∷ pieces_left separator (option_map (λ t. t.now) result.1) }
    ensures fewer { length result.0.now + 1 + bytes_left (option_map (λ t. t.now) result.1) ≡ length text.now + 1 }
{
    match place_of(separator, text) {
        Some(at) => (&text[..at], Some(&text[at + 1..])),
        None => (text, None),
    }
}

/// The first line and the lines after it, or `None` if no byte is left.
pub fn next_line(text: &[u8]) -> Option<(&[u8], &[u8])>
    ensures lines { MatchOption result
        (lines_of text.now ≡ [])
        (λ next. lines_of text.now ≡ next.0.now ∷ lines_of next.1.now) }
    ensures fewer { IfSome result (λ next. length next.1.now < length text.now) }
{
    if text.is_empty() {
        return None;
    }
    let (line, after) = cut(b'\n', text);
    match after {
        Some(after) => Some((line, after)),
        None => Some((line, &[])),
    }
}

/// The next word of a line and the rest of the line, or `None` if nothing is left.
pub fn next_word(rest: Option<&[u8]>) -> Option<(&[u8], Option<&[u8]>)>
    ensures words { MatchOption result
        (words_left rest.entry ≡ [])
        (λ next. words_left rest.entry ≡ next.0.now ∷ words_left next.1) }
    ensures fewer { IfSome result (λ next. line_left next.1 < line_left rest.entry) }
{
    match rest {
        Some(text) => Some(cut(b' ', text)),
        None => None,
    }
}

/// Whether a line is words with one space between two.
pub fn is_spaced(line: &[u8]) -> bool
    ensures { result ≡ is_spaced true line.now }
{
    let mut gap = true;
    'bytes: for byte in line {
        if *byte == b' ' {
            if gap {
                return false;
            }
            gap = true;
        } else {
            if !byte.is_ascii_graphic() {
                return false;
            }
            gap = false;
        }
    }
    !gap
}
