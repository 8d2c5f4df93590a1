ghost use Rattle.std.specs.Prelude.{◌≡◌, map, IfErr, ◌≢◌};
ghost use Rattle.net_types.specs.Terminals.{role_of};
ghost use Rattle.net_text.specs.Declarations.{declaration, box_of, two_numbers, DeclarePort, DeclareLink, terminal_of, terminal_and_pattern, permit_of, forbid_of, role};
ghost use Rattle.net_text.specs.Outcomes.{outcome_of, declaration_of};

use super::fault::TextFault;
use super::rule_words::{numeral, pattern, read_rule_of};
use super::version::Version;
use net_types::{BoxId, PortId, Role, Rule, TermId};
use ternary_bits::Pattern;

/// What a line declares.
#[derive(Clone, Copy, Debug, PartialEq, Eq)]
pub(crate) enum Declaration {
    Box(BoxId),
    Port { id: PortId, at: BoxId },
    Link(PortId, PortId),
    Terminal { id: TermId, at: PortId, role: Role },
    Permit { terminal: TermId, pattern: Pattern },
    Forbid { terminal: TermId, pattern: Pattern },
    Rule(Rule),
}

/// Reads a declaration from the first word of a line and the words after it, in a text of that version.
pub(crate) fn read_declaration(
    version: Version,
    first: &[u8],
    rest: &[&[u8]],
) -> Result<Declaration, TextFault>
    ensures { outcome_of declaration_of result ≡ declaration version first.now (map (λ w. w.now) rest.now) }
{
    if first == b"box".as_slice() {
        read_box(rest)
    } else if first == b"port".as_slice() {
        read_port(rest)
    } else if first == b"link".as_slice() {
        read_link(rest)
    } else if first == b"term".as_slice() {
        read_terminal(rest)
    } else if first == b"permit".as_slice() {
        read_permit(rest)
    } else if first == b"forbid".as_slice() {
        read_forbid(version, rest)
    } else if first == b"rule".as_slice() {
        Ok(Declaration::Rule(read_rule_of(version, rest)?))
    } else {
        Err(TextFault::Words)
    }
}

fn read_box(words: &[&[u8]]) -> Result<Declaration, TextFault>
    ensures { outcome_of declaration_of result ≡ box_of (map (λ w. w.now) words.now) }
{
    match words {
        [id] => Ok(Declaration::Box(BoxId::of(numeral(id)?))),
        _ => Err(TextFault::Words),
    }
}

#[tactic(auto, using(crate::proofs::Shapes::two_words))]
fn read_port(words: &[&[u8]]) -> Result<Declaration, TextFault>
    ensures { outcome_of declaration_of result ≡ two_numbers DeclarePort (map (λ w. w.now) words.now) }
{
    match words {
        [id, at] => {
            let id = PortId::of(numeral(id)?);
            let at = BoxId::of(numeral(at)?);
            Ok(Declaration::Port { id, at })
        }
        _ => Err(TextFault::Words),
    }
}

#[tactic(auto, using(crate::proofs::Shapes::two_words))]
fn read_link(words: &[&[u8]]) -> Result<Declaration, TextFault>
    ensures { outcome_of declaration_of result ≡ two_numbers DeclareLink (map (λ w. w.now) words.now) }
{
    match words {
        [a, b] => {
            let a = PortId::of(numeral(a)?);
            let b = PortId::of(numeral(b)?);
            Ok(Declaration::Link(a, b))
        }
        _ => Err(TextFault::Words),
    }
}

#[tactic(auto, using(crate::proofs::Shapes::three_words))]
fn read_terminal(words: &[&[u8]]) -> Result<Declaration, TextFault>
    ensures { outcome_of declaration_of result ≡ terminal_of (map (λ w. w.now) words.now) }
{
    match words {
        [id, at, how] => {
            let id = TermId::of(numeral(id)?);
            let at = PortId::of(numeral(at)?);
            let role = role(how)?;
            Ok(Declaration::Terminal { id, at, role })
        }
        _ => Err(TextFault::Words),
    }
}

fn read_permit(words: &[&[u8]]) -> Result<Declaration, TextFault>
    ensures { outcome_of declaration_of result ≡ permit_of (map (λ w. w.now) words.now) }
{
    let (terminal, pattern) = terminal_and_pattern(words)?;
    Ok(Declaration::Permit { terminal, pattern })
}

fn read_forbid(version: Version, words: &[&[u8]]) -> Result<Declaration, TextFault>
    ensures { outcome_of declaration_of result ≡ forbid_of version (map (λ w. w.now) words.now) }
{
    match version {
        Version::One => Err(TextFault::Words),
        Version::Two => {
            let (terminal, pattern) = terminal_and_pattern(words)?;
            Ok(Declaration::Forbid { terminal, pattern })
        }
    }
}

#[tactic(auto, using(crate::proofs::Shapes::two_words))]
fn terminal_and_pattern(words: &[&[u8]]) -> Result<(TermId, Pattern), TextFault>
    ensures { outcome_of (λ t. t) result ≡ terminal_and_pattern (map (λ w. w.now) words.now) }
{
    match words {
        [terminal, letters] => {
            let terminal = TermId::of(numeral(terminal)?);
            Ok((terminal, pattern(letters)?))
        }
        _ => Err(TextFault::Words),
    }
}

fn role(word: &[u8]) -> Result<Role, TextFault>
    ensures { outcome_of role_of result ≡ role word.now }
{
    if word == b"send".as_slice() {
        Ok(Role::Send)
    } else if word == b"receive".as_slice() {
        Ok(Role::Receive)
    } else if word == b"both".as_slice() {
        Ok(Role::Both)
    } else {
        Err(TextFault::Words)
    }
}
