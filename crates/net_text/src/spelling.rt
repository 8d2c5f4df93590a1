//! The line that declares a part of a network.

ghost use Rattle.std.specs.Prelude.{◌≡◌, ◌≤◌, ◌++◌, ◌∷◌, [], ℕ, OnOk, length, Some};
ghost use Rattle.text_lines.specs.Lines.{line};
ghost use Rattle.std.specs.Fmt.{decimal};
ghost use Rattle.network_model.specs.Rewrites.{AreWithin};
ghost use Rattle.ternary_bits.specs.Letters.{pattern_word, pattern_text};
ghost use Rattle.net_types.specs.Rules.{in_port, action, model_of, IsAsWide};
ghost use Rattle.net_types.specs.Terminals.{role_of};
ghost use Rattle.net_text.specs.Declarations.{DeclareBox, DeclarePort, DeclareLink, DeclareTerminal, DeclarePermit, DeclareForbid, DeclareRule};
ghost use Rattle.net_text.specs.Printing.{role_word, in_word, rewrite_words, out_words, keeps_from};
ghost use Rattle.net_text.specs.Spelled.{IsNumeral, IsSpellableIn, IsSpellableOut, IsSpellableRewrite};
ghost use Rattle.net_text.specs.Putting.{next_words, PutsLine};

use net_types::{Action, BoxId, InPort, PortId, Role, Rule, TermId};
use no_memory::NoMemory;
use ternary_bits::{Pattern, Rewrite};
use text_lines::{put, put_line, put_next_number};

pub(crate) fn put_box(text: &mut Vec<u8>, id: BoxId) -> Result<(), NoMemory>
    ensures { OnOk result (PutsLine text.old.items text.new.items (DeclareBox id)) }
{
    put_line(text, b"box", &[id.get() as usize])
}

pub(crate) fn put_port(text: &mut Vec<u8>, id: PortId, at: BoxId) -> Result<(), NoMemory>
    ensures { OnOk result (PutsLine text.old.items text.new.items (DeclarePort id at)) }
{
    put_line(text, b"port", &[id.get() as usize, at.get() as usize])
}

pub(crate) fn put_link(text: &mut Vec<u8>, lower: PortId, other: PortId) -> Result<(), NoMemory>
    ensures { OnOk result (PutsLine text.old.items text.new.items (DeclareLink lower other)) }
{
    put_line(text, b"link", &[lower.get() as usize, other.get() as usize])
}

pub(crate) fn put_terminal(
    text: &mut Vec<u8>,
    id: TermId,
    at: PortId,
    role: Role,
) -> Result<(), NoMemory>
    ensures { OnOk result (PutsLine text.old.items text.new.items (DeclareTerminal id at (role_of role))) }
{
    put(text, b"term")?;
    put_next_number(text, id.get() as usize)?;
    put_next_number(text, at.get() as usize)?;
    put(text, b" ")?;
    put(text, role_word(role))?;
    put(text, b"\n")
}

pub(crate) fn put_permit(
    text: &mut Vec<u8>,
    terminal: TermId,
    pattern: &Pattern,
) -> Result<(), NoMemory>
    ensures { OnOk result (PutsLine text.old.items text.new.items (DeclarePermit terminal pattern.now)) }
{
    put_patterned(text, b"permit", terminal, pattern)
}

pub(crate) fn put_forbid(
    text: &mut Vec<u8>,
    terminal: TermId,
    pattern: &Pattern,
) -> Result<(), NoMemory>
    ensures { OnOk result (PutsLine text.old.items text.new.items (DeclareForbid terminal pattern.now)) }
{
    put_patterned(text, b"forbid", terminal, pattern)
}

/// A line of a name, a terminal and a pattern.
fn put_patterned(
    text: &mut Vec<u8>,
    name: &[u8],
    terminal: TermId,
    pattern: &Pattern,
) -> Result<(), NoMemory>
    ensures text { OnOk result (text.new.items ≡ text.old.items ++ line (name.now ∷ decimal terminal ∷ pattern_text pattern.now ∷ [])) }
    ensures numeral { IsNumeral terminal }
    ensures back { OnOk result (pattern_word (pattern_text pattern.now) ≡ Some pattern.now) }
{
    put(text, name)?;
    put_next_number(text, terminal.get() as usize)?;
    put_pattern(text, pattern)?;
    put(text, b"\n")
}

pub(crate) fn put_rule(text: &mut Vec<u8>, rule: &Rule) -> Result<(), NoMemory>
    requires { IsAsWide (length rule.now.pattern) (action rule.now.action) }
    ensures { OnOk result (PutsLine text.old.items text.new.items (DeclareRule rule.now.id (model_of rule.now))) }
{
    put(text, b"rule")?;
    put_next_number(text, rule.id.get() as usize)?;
    put_next_number(text, rule.at.get() as usize)?;
    put_next_number(text, rule.priority as usize)?;
    put_in(text, rule.inp)?;
    put_pattern(text, &rule.pattern)?;
    put_out(text, &rule.action)?;
    put(text, b"\n")
}

fn role_word(role: Role) -> &'static [u8]
    ensures { result.now ≡ role_word (role_of role) }
{
    match role {
        Role::Send => b"send",
        Role::Receive => b"receive",
        Role::Both => b"both",
    }
}

/// The letters of a pattern, behind a space.
fn put_pattern(text: &mut Vec<u8>, pattern: &Pattern) -> Result<(), NoMemory>
    ensures text { OnOk result (text.new.items ≡ text.old.items ++ (32 ∷ pattern_text pattern.now)) }
    ensures back { OnOk result (pattern_word (pattern_text pattern.now) ≡ Some pattern.now) }
{
    put(text, b" ")?;
    pattern.put(text)
}

/// The port by which packets must come, or `*`, behind a space.
fn put_in(text: &mut Vec<u8>, inp: InPort) -> Result<(), NoMemory>
    ensures text { OnOk result (text.new.items ≡ text.old.items ++ (32 ∷ in_word (in_port inp))) }
    ensures spellable { OnOk result (IsSpellableIn (in_port inp)) }
{
    match inp {
        InPort::Any => put(text, b" *"),
        InPort::One(port) => put_next_number(text, port.get() as usize),
    }
}

/// The out port and the rewrite, or `drop`, each behind a space.
fn put_out(text: &mut Vec<u8>, to: &Action) -> Result<(), NoMemory>
    ensures text { OnOk result (text.new.items ≡ text.old.items ++ next_words (out_words (action to.now))) }
    ensures spellable { OnOk result ((width : ℕ) → IsAsWide width (action to.now) → IsSpellableOut width (action to.now)) }
{
    match to {
        Action::Drop => put(text, b" drop"),
        Action::Out { port, rewrite } => {
            put_next_number(text, port.get() as usize)?;
            put_rewrite(text, rewrite)
        }
    }
}

/// The word of a rewrite behind a space; nothing where it keeps all bits.
fn put_rewrite(text: &mut Vec<u8>, rewrite: &Rewrite) -> Result<(), NoMemory>
    ensures text { OnOk result (text.new.items ≡ text.old.items ++ next_words (rewrite_words rewrite.now)) }
    ensures spellable { OnOk result (IsSpellableRewrite rewrite.now) }
{
    if keeps_all(rewrite) {
        return Ok(());
    }
    put(text, b" ")?;
    rewrite.put(text)
}

/// Whether the rewrite keeps each bit.
fn keeps_all(rewrite: &Rewrite) -> bool
    ensures keeps { result ≡ keeps_from 1 rewrite.now }
    ensures range { (1 ≤ length rewrite.now) × (length rewrite.now ≤ 128) }
    ensures within { AreWithin (length rewrite.now) rewrite.now }
{
    rewrite.same(&Rewrite::keep(rewrite.bits()))
}
