//! The lines of the entries.
ghost use Rattle.std.specs.Prelude.{◌≡◌, ◌++◌, OnOk};
ghost use Rattle.path_table.specs.Entries.{entry_of};
ghost use Rattle.plan_text.specs.Parts.{entry_ends, entry_headers};
ghost use Rattle.plan_text.specs.PlanText.{entry_line, entry_lines};

use crate::words::put_rules;
use no_memory::NoMemory;
use path_table::{Entry, Table};
use text_lines::{put, put_next_number};

fn put_ends(text: &mut Vec<u8>, number: u32, entry: &Entry) -> Result<(), NoMemory>
    ensures { OnOk result (text.new.items ≡ text.old.items ++ entry_ends number (entry_of entry.now)) }
{
    put(text, b"entry")?;
    put_next_number(text, number as usize)?;
    put_next_number(text, entry.from.get() as usize)?;
    put_next_number(text, entry.to.get() as usize)?;
    put(text, b" ")
}

fn put_headers(text: &mut Vec<u8>, entry: &Entry) -> Result<(), NoMemory>
    ensures { OnOk result (text.new.items ≡ text.old.items ++ entry_headers (entry_of entry.now)) }
{
    entry.least.put(text)?;
    put(text, b" ")?;
    entry.greatest.put(text)?;
    put(text, b" ")?;
    entry.arrives.put(text)?;
    put(text, b" ")
}

fn put_entry(text: &mut Vec<u8>, number: u32, entry: &Entry) -> Result<(), NoMemory>
    ensures { OnOk result (text.new.items ≡ text.old.items ++ entry_line number (entry_of entry.now)) }
{
    put_ends(text, number, entry)?;
    put_headers(text, entry)?;
    put_rules(text, &entry.rules)?;
    put(text, b"\n")
}

pub(crate) fn put_entries(text: &mut Vec<u8>, table: &Table) -> Result<(), NoMemory>
    ensures { OnOk result (text.new.items ≡ text.old.items ++ entry_lines 1 table.now) }
{
    for place in 0..table.len() {
        let number = place + 1;
        let entry = table.entry(number).unwrap();
        put_entry(text, number, entry)?;
    }
    Ok(())
}
