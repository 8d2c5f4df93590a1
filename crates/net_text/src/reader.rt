ghost use Rattle.std.specs.Prelude.{◌≡◌, ◌∷◌, map, OnOk, OnErr};
ghost use Rattle.net_types.specs.Refusals.{Answers};
ghost use Rattle.net_text.specs.Building.{due, step, advance};
ghost use Rattle.net_text.specs.Outcomes.{outcome_of, declaration_of, Starts, Leaves};
ghost use Rattle.net_text.specs.Text.{AnswersReading, declare, head, version_of};

use super::declaration::{Declaration, read_declaration};
use super::fault::{ReadNet, Stop, TextFault};
use super::lines::first_line;
use super::rule_words::numeral;
use super::version::Version;
use net_types::{NetBuilder, NetFault, Network};
use std::alloc::Global;
use text_words::split_words;

/// More words than any line of a network text has.
const MOST_WORDS: usize = 9;

/// A text after its head.
#[derive(Drop)]
struct Begun {
    version: Version,
    builder: NetBuilder,
}

/// Reads the text of a network: a head `atpg-net 1 BITS` or `atpg-net 2 BITS`, and then a line for each `box`, `port`,
/// `link`, `term`, `permit`, `rule` and, in version 2 alone, `forbid`. What a line names stands on an earlier one. `#`
/// starts a comment.
///
/// The first line at fault is named with its first fault. A text without any word has no head at the line after its
/// last line feed.
pub fn read(alloc: Global, bytes: &[u8]) -> Result<Network, ReadNet>
    ensures { AnswersReading result bytes.now }
{
    let mut words = Vec::with_capacity(alloc, MOST_WORDS)?;
    let mut text = None;
    let mut number: u64 = 0;
    let mut left = Some(bytes);
    while let Some(rest) = left {
        let (line, after) = first_line(rest);
        number += 1;
        split_words(line, &mut words, MOST_WORDS)?;
        if let Err(stop) = read_line(alloc, &mut text, &words) {
            return Err(stop.at_line(number));
        }
        left = after;
    }
    match text {
        Some(text) => Ok(text.builder.finish()?),
        None => Err(ReadNet::BadNet {
            line: number,
            fault: TextFault::NoHead,
        }),
    }
}

/// Takes the words of a line into the text so far, of which there is none before the head.
fn read_line(alloc: Global, text: &mut Option<Begun>, words: &[&[u8]]) -> Result<(), Stop>
    ensures { Leaves result text.new (advance text.old (map (λ w. w.now) words.now)) }
{
    let [first, rest @ ..] = words else {
        return Ok(());
    };
    match text {
        Some(text) => declare(text, first, rest),
        None => {
            *text = Some(read_head(alloc, words)?);
            Ok(())
        }
    }
}

/// The text that the words of a head begin.
fn read_head(alloc: Global, words: &[&[u8]]) -> Result<Begun, Stop>
    ensures { Starts result (head (map (λ w. w.now) words.now)) }
{
    let [name, version, bits] = words else {
        return Err(Stop::Fault(TextFault::NoHead));
    };
    if *name != b"atpg-net".as_slice() {
        return Err(Stop::Fault(TextFault::NoHead));
    }
    let version = read_version(version)?;
    let bits = numeral(bits)?;
    let builder = NetBuilder::new(alloc, bits)?;
    Ok(Begun { version, builder })
}

fn read_version(word: &[u8]) -> Result<Version, TextFault>
    ensures { outcome_of (λ version. version) result ≡ version_of word.now }
{
    if word == b"1".as_slice() {
        Ok(Version::One)
    } else if word == b"2".as_slice() {
        Ok(Version::Two)
    } else {
        Err(TextFault::Version)
    }
}

/// Adds what a line with that first word and these words after it declares.
fn declare(text: &mut Begun, first: &[u8], rest: &[&[u8]]) -> Result<(), Stop>
    ensures version { text.new.version ≡ text.old.version }
    ensures declared { Leaves result text.new.builder (step text.old.version text.old.builder (first.now ∷ map (λ w. w.now) rest.now)) }
{
    match read_declaration(text.version, first, rest) {
        Ok(declaration) => Ok(add(&mut text.builder, declaration)?),
        Err(fault) => Err(Stop::Fault(fault)),
    }
}

fn add(builder: &mut NetBuilder, declaration: Declaration) -> Result<(), NetFault>
    ensures answer { Answers result (due builder.old (declaration_of declaration)) }
    ensures ok { OnOk result (builder.new ≡ declare builder.old (declaration_of declaration)) }
    ensures err { OnErr result (builder.new ≡ builder.old) }
{
    match declaration {
        Declaration::Box(id) => builder.add_box(id),
        Declaration::Port { id, at } => builder.add_port(id, at),
        Declaration::Link(a, b) => builder.add_link(a, b),
        Declaration::Terminal { id, at, role } => builder.add_term(id, at, role),
        Declaration::Permit { terminal, pattern } => builder.permit(terminal, pattern),
        Declaration::Forbid { terminal, pattern } => builder.forbid(terminal, pattern),
        Declaration::Rule(rule) => builder.add_rule(rule),
    }
}
