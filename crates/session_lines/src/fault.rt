ghost use Rattle.std.specs.Prelude.{◌≡◌};
ghost use Rattle.session_lines.specs.Commands.{line_fault};

use net_text::TextFault;

/// Why a line says no command.
#[derive(Clone, Copy, Debug, PartialEq, Eq)]
pub enum LineFault {
    /// The first word is none of the commands, the number of words is wrong, or a verdict is none.
    Words,
    /// A word is no number, and should be one.
    Number,
    /// A word is no pattern or rewrite, and should be one.
    Letters,
}

/// The fault of a line whose words after the first are no rule for this reason.
pub(crate) fn fault_of_rule(fault: TextFault) -> LineFault
    ensures { result ≡ line_fault fault }
{
    match fault {
        TextFault::Number => LineFault::Number,
        TextFault::Letters => LineFault::Letters,
        _ => LineFault::Words,
    }
}
