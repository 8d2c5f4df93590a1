//! The words of a line, without taking memory.
ghost use Rattle.std.specs.Prelude.{◌≡◌, map, take};
ghost use Rattle.text_words.specs.Words.{words_of};

use arrayvec::ArrayVec;
use text_words::{before_comment, is_blank};

/// One word more than any line of a session has.
pub(crate) const MOST_WORDS: usize = 9;

/// The first words of a line, up to so many.
pub(crate) fn first_words(line: &[u8]) -> ArrayVec<&[u8], MOST_WORDS>
    ensures { map (λ w. w.now) result.items ≡ take 9 (words_of line.now) }
{
    let mut words = ArrayVec::new();
    for part in before_comment(line).split(|b| is_blank(*b)) {
        if words.len() == MOST_WORDS {
            break;
        }
        if part.is_empty() {
            continue;
        }
        words.push(part);
    }
    words
}
