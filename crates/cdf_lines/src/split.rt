//! Where a piece of a script is split.

ghost use Rattle.std.specs.Prelude.{◌≡◌, ◌==◌, ◌≤◌, [], length, take, position, IfNone, IfSome};
ghost use Rattle.cdf_model.specs.Lines.{split};
ghost use Rattle.cdf_lines.specs.Parts.{FirstLine, LeadingLines};

use cdf_model::limits::LINE_LIMIT;

/// The first line that a newline ends, and the bytes after that newline.
pub fn first_line(text: &[u8]) -> Option<(&[u8], &[u8])>
    ensures none { IfNone result (split text.now ≡ ([], text.now)) }
    ensures first { IfSome result (λ parts. FirstLine text.now parts.0.now parts.1.now) }
{
    match newline_in(text) {
        None => None,
        Some(end) => Some((&text[..end], &text[end + 1..])),
    }
}

/// Where the first newline stands.
#[inline(always)]
pub fn newline_in(text: &[u8]) -> Option<usize>
    ensures { result ≡ position (λ b. b == 10) text.now }
{
    text.iter().position(|b| *b == b'\n')
}

/// Whole lines that a text begins with, 16,777,216 bytes of them at most, and the bytes after them.
pub fn leading_lines(text: &[u8]) -> (&[u8], &[u8])
    ensures { LeadingLines text.now result.0.now result.1.now }
{
    let size = size_of_lines(&text[..text.len().min(LINE_LIMIT)]);
    (&text[..size], &text[size..])
}

/// How many bytes the whole lines of a text have.
fn size_of_lines(text: &[u8]) -> usize
    ensures inside { result ≤ length text.now }
    ensures whole { (split (take result text.now)).1 ≡ [] }
{
    let mut size = text.len();
    while size > 0 && text[size - 1] != b'\n' {
        size -= 1;
    }
    size
}
