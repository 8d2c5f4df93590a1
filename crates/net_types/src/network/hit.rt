//! Which of the rules of a box takes a packet.

ghost use Rattle.std.specs.Prelude.{◌≡◌, length, All};
ghost use Rattle.std.specs.List.{find};
ghost use Rattle.std.specs.Option.{option_copied};
ghost use Rattle.net_types.specs.Tables.{takes_packet};

use crate::ids::PortId;
use crate::rule::{InPort, Rule};
use ternary_bits::Header;

/// The first rule of the list that takes the packet.
pub fn first_taking<'a>(rules: &'a [Rule], port: PortId, header: &Header) -> Option<&'a Rule>
    requires { All (λ rule. length rule.pattern ≡ length header.now) rules.now }
    ensures { option_copied result ≡ find (takes_packet port header.now) rules.now }
{
    for rule in rules {
        if takes(rule, port, header) {
            return Some(rule);
        }
    }
    None
}

fn takes(rule: &Rule, port: PortId, header: &Header) -> bool
    requires { length rule.now.pattern ≡ length header.now }
    ensures { result ≡ takes_packet port header.now rule.now }
{
    let fits = match rule.inp {
        InPort::Any => true,
        InPort::One(own) => own == port,
    };
    fits && rule.pattern.matches(header)
}
