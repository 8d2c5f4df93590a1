ghost use Rattle.std.specs.Prelude.{◌≡◌, ◌++◌, IfOk, OnOk};
ghost use Rattle.net_grow.specs.Adding.{TakesFrom};
ghost use Rattle.net_grow.specs.Generated.{outward_edges, core_rules, inward_edges, grown};
ghost use Rattle.net_grow.specs.Words.{after, nth_word};

use crate::adding::add;
use crate::places::places;
use crate::rules::{core, inward, inward_last, outward, outward_last};
use net_types::{NetBuilder, Network};
use no_memory::NoMemory;
use rand_pcg::Lcg64Xsh32;
use std::alloc::Global;

/// The network of a seed, with headers of 128 bits. Its rules come from the words of PCG XSH RR 64/32 on stream 1, begun at the seed.
pub fn grow(alloc: Global, seed: u64) -> Result<Network, NoMemory>
    ensures { IfOk result (λ net. net ≡ grown seed) }
{
    let mut words = Lcg64Xsh32::new(seed, 1);
    let mut net = places(alloc)?;
    add_outward(&mut net, &mut words)?;
    add_core(&mut net)?;
    add_inward(&mut net, &mut words)?;
    net.finish()
}

/// The rules of the edges for packets from their terminals.
fn add_outward(net: &mut NetBuilder, words: &mut Lcg64Xsh32) -> Result<(), NoMemory>
    requires { TakesFrom net.old 1000 }
    ensures rules { OnOk result (net.new.rules ≡ net.old.rules ++ outward_edges (nth_word words.old) 16) }
    ensures takes { OnOk result (TakesFrom net.new 2024) }
    ensures words { OnOk result (words.new ≡ after 4032 words.old) }
{
    for edge in 0..16 {
        for index in 0..63 {
            add(net, outward(words, edge, index))?;
        }
        add(net, outward_last(edge))?;
    }
    Ok(())
}

/// The rules of the core, one for each edge.
fn add_core(net: &mut NetBuilder) -> Result<(), NoMemory>
    requires { TakesFrom net.old 3000 }
    ensures rules { OnOk result (net.new.rules ≡ net.old.rules ++ core_rules 16) }
    ensures takes { OnOk result (TakesFrom net.new 3016) }
{
    for edge in 0..16 {
        add(net, core(edge))?;
    }
    Ok(())
}

/// The rules of the edges for packets from the core.
fn add_inward(net: &mut NetBuilder, words: &mut Lcg64Xsh32) -> Result<(), NoMemory>
    requires { TakesFrom net.old 4000 }
    ensures rules { OnOk result (net.new.rules ≡ net.old.rules ++ inward_edges (nth_word words.old) 16) }
    ensures takes { OnOk result (TakesFrom net.new 4512) }
{
    for edge in 0..16 {
        for index in 0..31 {
            add(net, inward(words, edge, index))?;
        }
        add(net, inward_last(edge))?;
    }
    Ok(())
}
