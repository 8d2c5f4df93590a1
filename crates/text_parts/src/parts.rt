//! A text in two parts, with a line between them whose only word is a given one.
ghost use Rattle.std.specs.Prelude.{◌≡◌, ◌==◌, [], None, IfSome, IfNone};
ghost use Rattle.text_words.specs.Words.{lines_of, words_of};
ghost use Rattle.text_parts.specs.Parts.{is_only, parted, before_line, lines_after, IsParting};

use crate::words::word;

/// What stands before the first line whose only word is this one, with the line feed that ends the line before it; all of
/// the text where there is no such line.
pub fn part_before<'a>(text: &'a [u8], name: &[u8]) -> &'a [u8]
    ensures { result.now ≡ before_line name.now text.now }
{
    match parting_line(text, name) {
        Some((start, _)) => &text[..start],
        None => text,
    }
}

/// What stands after that line and its line feed. There is nothing where it is the last line, or where there is no such line.
pub fn part_after<'a>(text: &'a [u8], name: &[u8]) -> Option<&'a [u8]>
    ensures some { IfSome result (λ part. lines_of part.now ≡ lines_after name.now text.now) }
    ensures none { IfNone result (lines_after name.now text.now ≡ []) }
{
    let (_, end) = parting_line(text, name)?;
    if end < text.len() {
        Some(&text[end + 1..])
    } else {
        None
    }
}

/// Where that line begins, and where it ends.
fn parting_line(text: &[u8], name: &[u8]) -> Option<(usize, usize)>
    ensures some { IfSome result (λ (start, end). IsParting name.now text.now start end) }
    ensures none { IfNone result (parted name.now (lines_of text.now) ≡ None) }
{
    let mut start = 0;
    for line in text.split(|b| *b == b'\n') {
        let end = start + line.len();
        if is_only_word(line, name) {
            return Some((start, end));
        }
        start = end + 1;
    }
    None
}

/// Whether this is the only word of the line.
fn is_only_word(line: &[u8], name: &[u8]) -> bool
    ensures { result ≡ is_only name.now (words_of line.now) }
{
    match word(line, 0) {
        Some(first) if first == name => word(line, 1).is_none(),
        _ => false,
    }
}
