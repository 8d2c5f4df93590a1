//! What becomes of the policies.
ghost use Rattle.std.specs.Prelude.{◌≡◌, ◌≤◌, All, length, IfOk, IfErr};
ghost use Rattle.policy_text.specs.Answers.{AreAnswers, AreAnswersTo};
ghost use Rattle.policy_text.specs.Lines.{policy_lines, IsFault};

use crate::fault::CheckFault;
use crate::lines::read_policies;
use crate::printing::put_answer;
use net_types::Network;
use no_memory::NoMemory;
use policy_check::{Policy, check};
use std::alloc::Global;
use text_lines::put_line;

/// Checks the policies that stand after the first line whose only word is `policy`, over a network whose packets meet at most
/// so many rules. The text of the answers has a line for each policy, numbered from 1, and how many there are and are broken.
pub fn answers(alloc: Global, net: &Network, hops: u32, text: &[u8]) -> Result<Vec<u8>, CheckFault>
    ensures ok { IfOk result (λ answers. AreAnswers net.now hops (policy_lines text.now) answers.items) }
    ensures err { IfErr result (λ fault. IsFault net.now (policy_lines text.now) fault) }
{
    let policies = read_policies(alloc, net, text)?;
    Ok(answers_to(alloc, net, hops, &policies)?)
}

/// The text of the answers to these policies.
fn answers_to(
    alloc: Global,
    net: &Network,
    hops: u32,
    policies: &[Policy],
) -> Result<Vec<u8>, NoMemory>
    requires { All (λ policy. length policy.pattern ≡ net.now.width) policies.now }
    ensures { IfOk result (λ answers. AreAnswersTo net.now hops policies.now answers.items) }
{
    let mut text = Vec::new(alloc);
    let mut broken = 0;
    for (i, policy) in policies.iter().enumerate() {
        let found = check(alloc, net, hops, policy)?;
        put_answer(&mut text, i + 1, &found)?;
        if found.is_some() {
            broken += 1;
        }
    }
    put_line(&mut text, b"checked", &[policies.len(), broken])?;
    Ok(text)
}
