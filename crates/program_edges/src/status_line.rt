//! Lines that tell how a program ended. They take no memory, so that want of memory can be told too.
ghost use Rattle.std.specs.Prelude.{◌≡◌, ◌+◌, ◌<◌, ◌≤◌, ◌∷◌, [], ◌++◌, length, decimal};
ghost use Rattle.arrayvec.specs.ArrayVec.{array_vec_len};
ghost use Rattle.program_edges.specs.StatusLines as lines;
ghost use Rattle.program_edges.specs.StatusLines.{fault_word};

use arrayvec::ArrayVec;
use itoa::Buffer;
use net_text::TextFault;
use net_types::NetFault;

/// How many bytes the longest line may have. The texts beside a number are short, and a number has 20 digits at most.
const LINE_BYTES: usize = 128;

/// A line, with its line feed.
pub type StatusLine = ArrayVec<u8, LINE_BYTES>;

/// The line of a text.
pub fn line(text: &str) -> StatusLine
    requires { length text.now ≤ 80 }
    ensures { result.items ≡ text.now ++ 10 ∷ [] }
{
    let mut bytes = ArrayVec::new();
    put(&mut bytes, text.as_bytes());
    ended(bytes)
}

/// The line of a number between two texts.
pub fn numbered_line(before: &str, number: u64, after: &str) -> StatusLine
    requires { length before.now + length after.now ≤ 80 }
    ensures { result.items ≡ before.now ++ decimal number ++ after.now ++ 10 ∷ [] }
{
    let mut digits = Buffer::new();
    let mut bytes = ArrayVec::new();
    put(&mut bytes, before.as_bytes());
    put(&mut bytes, digits.format(number).as_bytes());
    put(&mut bytes, after.as_bytes());
    ended(bytes)
}

/// The line of a network text that is none, by this fault of the line of this number.
pub fn bad_net_line(number: u64, fault: TextFault) -> StatusLine
    ensures { result.items ≡ lines.bad_net_line number fault }
{
    let mut digits = Buffer::new();
    let mut bytes = ArrayVec::new();
    put(&mut bytes, b"bad network at line ");
    put(&mut bytes, digits.format(number).as_bytes());
    put(&mut bytes, b": ");
    put(&mut bytes, fault_word(fault).as_bytes());
    ended(bytes)
}

/// The line with its line feed.
fn ended(mut line: StatusLine) -> StatusLine
    requires { array_vec_len line < 128 }
    ensures { result.items ≡ line.items ++ 10 ∷ [] }
{
    put(&mut line, b"\n");
    line
}

/// Puts bytes at the end of a line that has room for them.
fn put(line: &mut StatusLine, bytes: &[u8])
    requires { array_vec_len line.old + length bytes.now ≤ 128 }
    ensures items { line.new.items ≡ line.old.items ++ bytes.now }
    ensures len { array_vec_len line.new ≡ array_vec_len line.old + length bytes.now }
{
    let _fits = line.try_extend_from_slice(bytes);
}

/// The word for a fault of a network text.
pub fn fault_word(fault: TextFault) -> &'static str
    ensures word { result.now ≡ fault_word fault }
    ensures short { length result.now ≤ 11 }
{
    match fault {
        TextFault::NoHead => "no-head",
        TextFault::Version => "version",
        TextFault::Words => "words",
        TextFault::Number => "number",
        TextFault::Letters => "letters",
        TextFault::Net(NetFault::Twice) => "twice",
        TextFault::Net(NetFault::Unknown) => "unknown",
        TextFault::Net(NetFault::Limit) => "limit",
        TextFault::Net(NetFault::Width) => "width",
        TextFault::Net(NetFault::PortTaken) => "port-taken",
        TextFault::Net(NetFault::LinkTaken) => "link-taken",
        TextFault::Net(NetFault::EdgeLinked) => "edge-linked",
        TextFault::Net(NetFault::NoMemory) => "no-memory",
    }
}
