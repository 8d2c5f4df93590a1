//! The words of a line, without a list of them.
ghost use Rattle.std.specs.Prelude.{◌≡◌, slice_get};
ghost use Rattle.std.specs.Option.{option_map};
ghost use Rattle.text_words.specs.Words.{words_of};

use text_words::{before_comment, is_blank};

/// The word at a place, counted from 0. What stands from the first `#` on is a comment.
pub fn word(line: &[u8], place: usize) -> Option<&[u8]>
    ensures { option_map (λ word. word.now) result ≡ slice_get (words_of line.now) place }
{
    let mut before = 0;
    for part in before_comment(line).split(|b| is_blank(*b)) {
        if part.is_empty() {
            continue;
        }
        if before == place {
            return Some(part);
        }
        before += 1;
    }
    None
}
