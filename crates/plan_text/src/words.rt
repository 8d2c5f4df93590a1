//! Words at the end of a text.
ghost use Rattle.std.specs.Prelude.{◌≡◌, ◌++◌, OnOk};
ghost use Rattle.text_lines.specs.Lines.{number_list};

use net_types::RuleList;
use no_memory::NoMemory;
use text_lines::{put, put_number, put_number_after};

/// The numbers joined by commas, `-` where there is none.
pub(crate) fn put_rules(text: &mut Vec<u8>, rules: &RuleList) -> Result<(), NoMemory>
    ensures { OnOk result (text.new.items ≡ text.old.items ++ number_list rules.now) }
{
    let Some((first, rest)) = rules.as_slice().split_first() else {
        return put(text, b"-");
    };
    put_number(text, first.get() as usize)?;
    for rule in rest {
        put_number_after(text, b',', rule.get() as usize)?;
    }
    Ok(())
}
