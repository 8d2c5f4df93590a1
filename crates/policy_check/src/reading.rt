//! Policies out of the lines of a text.
ghost use Rattle.std.specs.Prelude.{◌≡◌, drop, length, IfOk, IfSome};
ghost use Rattle.net_types.specs.Refusals.{has_box};
ghost use Rattle.text_words.specs.Words.{words_of};
ghost use Rattle.policy_check.specs.PolicyLines.{numeral, letters, plain, by_way, words_say, has_box_of, has_parts, fitting, policy_of};

use crate::fault::PolicyFault;
use crate::policy::{Demand, Policy};
use net_types::{BoxId, Network, TermId};
use ternary_bits::Pattern;
use text_parts::word;
use text_words::number;

/// Reads a line: `never`, `must` or `via`, the terminals from which and to which packets go, for `via` the box that they
/// are to pass, and the pattern of their headers. A line without a word says nothing.
pub fn read_policy(net: &Network, line: &[u8]) -> Result<Option<Policy>, PolicyFault>
    ensures policy { result ≡ policy_of net.now (words_of line.now) }
    ensures width { IfOk result (λ read. IfSome read (λ policy. length policy.pattern ≡ net.now.width)) }
{
    let Some(first) = word(line, 0) else {
        return Ok(None);
    };
    fitting(net, read_words(first, line)?)
}

/// The policy that the words of a line say, of which this is the first.
fn read_words(first: &[u8], line: &[u8]) -> Result<Policy, PolicyFault>
    ensures { result ≡ words_say first.now (drop 1 (words_of line.now)) }
{
    if first == b"never".as_slice() {
        read_plain(line, Demand::Never)
    } else if first == b"must".as_slice() {
        read_plain(line, Demand::Must)
    } else if first == b"via".as_slice() {
        read_way(line)
    } else {
        Err(PolicyFault::Words)
    }
}

/// The policy with this demand whose terminals and pattern are the words after the first.
fn read_plain(line: &[u8], demand: Demand) -> Result<Policy, PolicyFault>
    ensures { result ≡ plain demand (drop 1 (words_of line.now)) }
{
    let (Some(from), Some(to), Some(pattern), None) = (
        word(line, 1),
        word(line, 2),
        word(line, 3),
        word(line, 4),
    ) else {
        return Err(PolicyFault::Words);
    };
    Ok(Policy {
        demand,
        from: TermId::of(numeral(from)?),
        to: TermId::of(numeral(to)?),
        pattern: letters(pattern)?,
    })
}

/// The policy whose terminals, box and pattern are the words after the first.
fn read_way(line: &[u8]) -> Result<Policy, PolicyFault>
    ensures { result ≡ by_way (drop 1 (words_of line.now)) }
{
    let (Some(from), Some(to), Some(at), Some(pattern), None) = (
        word(line, 1),
        word(line, 2),
        word(line, 3),
        word(line, 4),
        word(line, 5),
    ) else {
        return Err(PolicyFault::Words);
    };
    Ok(Policy {
        from: TermId::of(numeral(from)?),
        to: TermId::of(numeral(to)?),
        demand: Demand::Via(BoxId::of(numeral(at)?)),
        pattern: letters(pattern)?,
    })
}

fn numeral(word: &[u8]) -> Result<u32, PolicyFault>
    ensures { result ≡ numeral word.now }
{
    match number(word, u64::from(u32::MAX)) {
        Some(number) => Ok(number as u32),
        None => Err(PolicyFault::Number),
    }
}

fn letters(word: &[u8]) -> Result<Pattern, PolicyFault>
    ensures { result ≡ letters word.now }
{
    match Pattern::read(word) {
        Ok(pattern) => Ok(pattern),
        Err(_) => Err(PolicyFault::Letters),
    }
}

/// The policy, where the network has what it names and is as wide.
fn fitting(net: &Network, policy: Policy) -> Result<Option<Policy>, PolicyFault>
    ensures fitting { result ≡ fitting net.now policy }
    ensures width { IfOk result (λ fitting. IfSome fitting (λ policy. length policy.pattern ≡ net.now.width)) }
{
    if !has_parts(net, &policy) {
        return Err(PolicyFault::Unknown);
    }
    if policy.pattern.bits() != net.bits() {
        return Err(PolicyFault::Width);
    }
    Ok(Some(policy))
}

/// Whether the terminals and the box are in the network.
fn has_parts(net: &Network, policy: &Policy) -> bool
    ensures { result ≡ has_parts net.now policy.now }
{
    net.term(policy.from).is_some()
        && (net.term(policy.to).is_some() && has_box_of(net, policy.demand))
}

fn has_box_of(net: &Network, demand: Demand) -> bool
    ensures { result ≡ has_box_of net.now demand }
{
    match demand {
        Demand::Never | Demand::Must => true,
        Demand::Via(asked) => has_box(net, asked),
    }
}

fn has_box(net: &Network, asked: BoxId) -> bool
    ensures { result ≡ has_box net.now asked }
{
    for place in 0..net.box_count() {
        let at = net.box_at(place).unwrap();
        if at == asked {
            return true;
        }
    }
    false
}
