ghost use Rattle.std.specs.Prelude.{◌≡◌, ◌==◌, ℕ, map, take, OnOk, OnErr};
ghost use Rattle.std.specs.List.{before_first};
ghost use Rattle.text_words.specs.Words.{is_blank, words_of};

use no_memory::NoMemory;

/// Puts the words of a line into the list in place of what it has: the first `most` of them, where there are more. What
/// stands from the first `#` on is a comment.
pub fn split_words<'a>(
    line: &'a [u8],
    words: &mut Vec<&'a [u8]>,
    most: usize,
) -> Result<(), NoMemory>
    ensures ok { OnOk result (map (λ w. w.now) words.new.items ≡ take most (words_of line.now)) }
    ensures err { OnErr result ((n : ℕ) × (map (λ w. w.now) words.new.items ≡ take n (words_of line.now))) }
{
    words.clear();
    for part in before_comment(line).split(|b| is_blank(*b)) {
        if words.len() == most {
            break;
        }
        if part.is_empty() {
            continue;
        }
        words.push(part)?;
    }
    Ok(())
}

/// What stands before the first `#`, from which on a line is a comment.
pub fn before_comment(line: &[u8]) -> &[u8]
    ensures { result.now ≡ before_first (λ b. b == 35) line.now }
{
    match line.iter().position(|b| *b == b'#') {
        Some(start) => &line[..start],
        None => line,
    }
}

/// Whether the byte parts words: a space, a tab or a carriage return.
pub fn is_blank(b: u8) -> bool
    ensures { result ≡ is_blank b }
{
    matches!(b, b' ' | b'\t' | b'\r')
}
