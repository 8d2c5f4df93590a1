//! The lines of the policies.
ghost use Rattle.std.specs.Prelude.{◌≡◌, length, All, IfOk, IfErr};
ghost use Rattle.text_words.specs.Words.{lines_of};
ghost use Rattle.policy_text.specs.Lines.{Policies, policies_from, policy_lines, network_part, IsFault};

use crate::fault::CheckFault;
use net_types::Network;
use policy_check::{Policy, read_policy};
use std::alloc::Global;
use text_parts::{part_after, part_before};

/// The network text: what stands before the first line whose only word is `policy`, or all of the text where there is none.
pub fn network_part(text: &[u8]) -> &[u8]
    ensures { result.now ≡ network_part text.now }
{
    part_before(text, b"policy")
}

/// The policies of the lines after that line.
pub(crate) fn read_policies(
    alloc: Global,
    net: &Network,
    text: &[u8],
) -> Result<Vec<Policy>, CheckFault>
    ensures ok { IfOk result (λ policies. policies_from net.now (policy_lines text.now) 1 ≡ Policies policies.items) }
    ensures widths { IfOk result (λ policies. All (λ policy. length policy.pattern ≡ net.now.width) policies.items) }
    ensures err { IfErr result (λ fault. IsFault net.now (policy_lines text.now) fault) }
{
    match part_after(text, b"policy") {
        Some(part) => read_lines(alloc, net, part),
        None => Ok(Vec::new(alloc)),
    }
}

/// The policies of the lines of a text.
fn read_lines(alloc: Global, net: &Network, part: &[u8]) -> Result<Vec<Policy>, CheckFault>
    ensures ok { IfOk result (λ policies. policies_from net.now (lines_of part.now) 1 ≡ Policies policies.items) }
    ensures widths { IfOk result (λ policies. All (λ policy. length policy.pattern ≡ net.now.width) policies.items) }
    ensures err { IfErr result (λ fault. IsFault net.now (lines_of part.now) fault) }
{
    let mut policies = Vec::new(alloc);
    let mut number: u64 = 0;
    for line in part.split(|b| *b == b'\n') {
        number += 1;
        match read_policy(net, line) {
            Ok(Some(policy)) => policies.push(policy)?,
            Ok(None) => {}
            Err(fault) => {
                return Err(CheckFault::BadPolicy {
                    line: number,
                    fault,
                });
            }
        }
    }
    Ok(policies)
}
