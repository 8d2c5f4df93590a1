ghost use Rattle.std.specs.Prelude.{◌≡◌, ◌&&◌, ◌||◌, nat_lt, length, map, codes};
ghost use Rattle.std.specs.Str.{bytes_eq};
ghost use Rattle.net_types.specs.Rules.{in_port, numbered, action};
ghost use Rattle.net_text.specs.Declarations as text;
ghost use Rattle.net_text.specs.Declarations.{numeral, letters, rule_of, rule_alone, rewrite_of, or_fault};
ghost use Rattle.ternary_bits.specs.Letters.{rewrite_word};
ghost use Rattle.ternary_bits.specs.Moves.{letters_or_moves};
ghost use Rattle.net_text.specs.Outcomes.{outcome_of};

use super::fault::TextFault;
use super::version::Version;
use net_types::{Action, BoxId, InPort, PortId, Rule, RuleId};
use ternary_bits::{Pattern, Rewrite};
use text_words::number;

/// Reads a rule from the words after `rule` or `add`: its number, its box, its priority, a port or `*`, a pattern, a
/// port or `drop`, and a rewrite, of letters or of items, or nothing.
pub fn read_rule(words: &[&[u8]]) -> Result<Rule, TextFault>
    ensures { outcome_of numbered result ≡ rule_alone (map (λ w. w.now) words.now) }
{
    read_rule_of(Version::Two, words)
}

/// The same in a text of that version.
#[tactic(auto, using(crate::proofs::Shapes::six_words))]
pub(crate) fn read_rule_of(version: Version, words: &[&[u8]]) -> Result<Rule, TextFault>
    ensures { outcome_of numbered result ≡ rule_of version (map (λ w. w.now) words.now) }
{
    let [id, at, priority, inp, letters, out, more @ ..] = words else {
        return Err(TextFault::Words);
    };
    if is_too_long(out, more) {
        return Err(TextFault::Words);
    }
    let id = numeral(id)?;
    let at = numeral(at)?;
    let priority = numeral(priority)?;
    let inp = in_port(inp)?;
    let pattern = pattern(letters)?;
    let out = out_port(out)?;
    let rewrite = rewrite(version, &pattern, more)?;
    Ok(Rule {
        id: RuleId::of(id),
        at: BoxId::of(at),
        priority,
        inp,
        pattern,
        action: action(out, rewrite),
    })
}

/// Whether there are more words after the out than a rewrite, or any where the rule drops.
fn is_too_long(out: &[u8], more: &[&[u8]]) -> bool
    ensures { result ≡ (nat_lt 1 (length more.now) || (bytes_eq out.now (codes "drop") && nat_lt 0 (length more.now))) }
{
    more.len() > 1 || (is_drop(out) && !more.is_empty())
}

fn action(out: Option<PortId>, rewrite: Rewrite) -> Action
    ensures { action result ≡ text.action out rewrite }
{
    match out {
        Some(port) => Action::Out { port, rewrite },
        None => Action::Drop,
    }
}

/// The port by which packets must come, or any.
fn in_port(word: &[u8]) -> Result<InPort, TextFault>
    ensures { outcome_of in_port result ≡ text.in_port word.now }
{
    if word == b"*".as_slice() {
        return Ok(InPort::Any);
    }
    Ok(InPort::One(PortId::of(numeral(word)?)))
}

/// The port that a rule sends to, where it doesn't drop.
fn out_port(word: &[u8]) -> Result<Option<PortId>, TextFault>
    ensures { outcome_of (λ port. port) result ≡ text.out_port word.now }
{
    if is_drop(word) {
        return Ok(None);
    }
    Ok(Some(PortId::of(numeral(word)?)))
}

fn is_drop(word: &[u8]) -> bool
    ensures { result ≡ bytes_eq word.now (codes "drop") }
{
    word == b"drop".as_slice()
}

/// The rewrite of the last word, where there is one. Without one each bit stays.
fn rewrite(version: Version, pattern: &Pattern, words: &[&[u8]]) -> Result<Rewrite, TextFault>
    ensures { outcome_of (λ r. r) result ≡ text.rewrite version pattern.now (map (λ w. w.now) words.now) }
{
    match words {
        [] => Ok(Rewrite::keep(pattern.bits())),
        [word, ..] => rewrite_of(version, word),
    }
}

fn rewrite_of(version: Version, word: &[u8]) -> Result<Rewrite, TextFault>
    ensures { outcome_of (λ r. r) result ≡ or_fault TextFault.Letters (rewrite_of version word.now) }
{
    match version {
        Version::One => letters(word),
        Version::Two => letters_or_moves(word),
    }
}

fn letters_or_moves(word: &[u8]) -> Result<Rewrite, TextFault>
    ensures { outcome_of (λ r. r) result ≡ or_fault TextFault.Letters (letters_or_moves word.now) }
{
    match word {
        [b'@', ..] => Rewrite::read_moves(word).map_err(|_| TextFault::Letters),
        _ => letters(word),
    }
}

fn letters(word: &[u8]) -> Result<Rewrite, TextFault>
    ensures { outcome_of (λ r. r) result ≡ or_fault TextFault.Letters (rewrite_word word.now) }
{
    Rewrite::read(word).map_err(|_| TextFault::Letters)
}

/// The number that the word stands for.
pub(crate) fn numeral(word: &[u8]) -> Result<u32, TextFault>
    ensures { outcome_of (λ n. n) result ≡ numeral word.now }
{
    match number(word, 4_294_967_295) {
        Some(number) => Ok(number as u32),
        None => Err(TextFault::Number),
    }
}

/// The pattern that the word spells.
pub(crate) fn pattern(word: &[u8]) -> Result<Pattern, TextFault>
    ensures { outcome_of (λ p. p) result ≡ letters word.now }
{
    Pattern::read(word).map_err(|_| TextFault::Letters)
}
