//! The line of one answer.
ghost use Rattle.std.specs.Prelude.{◌≡◌, ◌++◌, OnOk};
ghost use Rattle.policy_text.specs.Answers.{answer};

use no_memory::NoMemory;
use ternary_bits::Header;
use text_lines::{put, put_line, put_next_number};

/// Puts the answer to the policy with this number at the end of the text: whether it holds, or the header that breaks it.
pub(crate) fn put_answer(
    text: &mut Vec<u8>,
    number: usize,
    found: &Option<Header>,
) -> Result<(), NoMemory>
    ensures { OnOk result (text.new.items ≡ text.old.items ++ answer number found.now) }
{
    match found {
        None => put_line(text, b"ok", &[number]),
        Some(header) => {
            put(text, b"broken")?;
            put_next_number(text, number)?;
            put(text, b" ")?;
            header.put(text)?;
            put(text, b"\n")
        }
    }
}
