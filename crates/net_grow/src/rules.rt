ghost use Rattle.std.specs.Prelude.{◌≡◌, ◌<◌};
ghost use Rattle.network_model.specs.Network.{Out};
ghost use Rattle.net_types.specs.Rules.{action as action_model, model_of, numbered};
ghost use Rattle.net_grow.specs.Adding.{Fits};
ghost use Rattle.net_grow.specs.Rules.{as_it_is, outward, outward_action, outward_last, core, inward, inward_last};
ghost use Rattle.net_grow.specs.Words.{after, nth_word};

use crate::letters::{as_it_is, beginning, last_byte};
use crate::places::{CORE, any_header};
use net_types::{Action, BoxId, InPort, PortId, Rule, RuleId};
use rand_pcg::Lcg64Xsh32;
use rand_pcg::rand_core::utils::NextWord;

/// A rule of an edge for packets from its terminal, of the next four words.
pub(crate) fn outward(words: &mut Lcg64Xsh32, edge: u32, index: u32) -> Rule
    requires { (edge < 16) × (index < 63) }
    ensures rule { numbered result ≡ outward edge index (nth_word words.old 0) (nth_word words.old 1) (nth_word words.old 2) (nth_word words.old 3) }
    ensures fits { Fits (model_of result) }
    ensures words { words.new ≡ after 4 words.old }
{
    let size = 4 + draw(words) % 30;
    let first = u64::from(draw(words));
    let second = u64::from(draw(words));
    let byte = draw(words);
    Rule {
        id: RuleId::of(1000 + 64 * edge + index),
        at: BoxId::of(edge),
        priority: size,
        inp: InPort::One(PortId::of(100 + edge)),
        pattern: beginning(((first << 32) + second) >> (64 - size), size),
        action: outward_action(edge, index, byte),
    }
}

fn outward_action(edge: u32, index: u32, byte: u32) -> Action
    requires { edge < 16 }
    ensures { action_model result ≡ outward_action edge index byte }
{
    if index % 8 == 0 {
        return Action::Drop;
    }
    Action::Out {
        port: PortId::of(200 + edge),
        rewrite: if index % 2 == 1 {
            last_byte(byte)
        } else {
            as_it_is()
        },
    }
}

/// The rule of an edge for packets from its terminal that no other takes.
pub(crate) fn outward_last(edge: u32) -> Rule
    requires { edge < 16 }
    ensures rule { numbered result ≡ outward_last edge }
    ensures fits { Fits (model_of result) }
{
    Rule {
        id: RuleId::of(1000 + 64 * edge + 63),
        at: BoxId::of(edge),
        priority: 0,
        inp: InPort::One(PortId::of(100 + edge)),
        pattern: any_header(),
        action: through(200 + edge),
    }
}

/// The rule of the core for packets to an edge.
pub(crate) fn core(edge: u32) -> Rule
    requires { edge < 16 }
    ensures rule { numbered result ≡ core edge }
    ensures fits { Fits (model_of result) }
{
    Rule {
        id: RuleId::of(3000 + edge),
        at: BoxId::of(CORE),
        priority: 10,
        inp: InPort::Any,
        pattern: beginning(u64::from(edge), 4),
        action: through(300 + edge),
    }
}

/// A rule of an edge for packets from the core, of the next two words.
pub(crate) fn inward(words: &mut Lcg64Xsh32, edge: u32, index: u32) -> Rule
    requires { (edge < 16) × (index < 31) }
    ensures rule { numbered result ≡ inward edge index (nth_word words.old 0) (nth_word words.old 1) }
    ensures fits { Fits (model_of result) }
    ensures words { words.new ≡ after 2 words.old }
{
    let size = 4 + draw(words) % 20;
    let word = u64::from(draw(words));
    Rule {
        id: RuleId::of(4000 + 32 * edge + index),
        at: BoxId::of(edge),
        priority: size,
        inp: InPort::One(PortId::of(200 + edge)),
        pattern: beginning(((u64::from(edge) << 32) + word) >> (36 - size), size),
        action: through(100 + edge),
    }
}

/// The rule of an edge for packets from the core that no other takes.
pub(crate) fn inward_last(edge: u32) -> Rule
    requires { edge < 16 }
    ensures rule { numbered result ≡ inward_last edge }
    ensures fits { Fits (model_of result) }
{
    Rule {
        id: RuleId::of(4000 + 32 * edge + 31),
        at: BoxId::of(edge),
        priority: 0,
        inp: InPort::One(PortId::of(200 + edge)),
        pattern: any_header(),
        action: through(100 + edge),
    }
}

/// Out by a port, as it is.
fn through(port: u32) -> Action
    ensures { action_model result ≡ Out port as_it_is }
{
    Action::Out {
        port: PortId::of(port),
        rewrite: as_it_is(),
    }
}

/// The next word of the generator.
fn draw(words: &mut Lcg64Xsh32) -> u32
    ensures word { result ≡ nth_word words.old 0 }
    ensures rest { words.new ≡ after 1 words.old }
{
    words.next_word()
}
