//! The policy that the words name, among those that are known.
ghost use Rattle.std.specs.Prelude.{◌≡◌, ◌<◌, ◌^◌, length, map, true, IfErr, IfOk};
ghost use Rattle.std.specs.String.{string_bytes};
ghost use Rattle.mt_command.specs.Command.{IsCommand, IsWordsFault};
ghost use Rattle.mt_command.specs.Parts.{run_view};
ghost use Rattle.mt_command.specs.Policies.{is_policy};

use mt_command::{Run, WordsFault, read};
use mt_ledger::{Policies, Policy};
use std::alloc::{AllocError, Global};

/// The names of policies, in their order.
fn names_of(alloc: Global, policies: &[Policy]) -> Result<Vec<&[u8]>, AllocError>
    ensures { IfOk result (λ names. map (λ n. n.now) names.items ≡ map (λ policy. policy.name) policies.now) }
{
    let mut names = Vec::new(alloc);
    let mut rest = policies;
    while let [policy, after @ ..] = rest {
        names.push(policy.name.bytes())?;
        rest = after;
    }
    Ok(names)
}

/// What the words are, where these policies are known.
fn read_words<'a>(
    alloc: Global,
    words: &'a [String],
    policies: &Policies,
) -> Result<Run<'a>, WordsFault>
    requires { length words.now < 2 ^ 32 }
    ensures command { IfOk result (λ run. IsCommand (map (λ policy. policy.name) policies.now.list.items) (map string_bytes words.now) (run_view run)) }
    ensures known { IfOk result (λ run. is_policy (map (λ policy. policy.name) policies.now.list.items) (run_view run).ports ≡ true) }
    ensures fault { IfErr result (IsWordsFault (map (λ policy. policy.name) policies.now.list.items) (map string_bytes words.now)) }
{
    let Ok(names) = names_of(alloc, &policies.list) else {
        return Err(WordsFault::NoMemory);
    };
    read(alloc, words, &names)
}

/// The command that the words are, and the policy that they name.
pub(crate) fn command_of<'a>(
    alloc: Global,
    words: &'a [String],
    mut policies: Policies,
) -> Result<(Run<'a>, Policy), WordsFault>
    requires { length words.now < 2 ^ 32 }
    ensures command { IfOk result (λ r. IsCommand (map (λ policy. policy.name) policies.list.items) (map string_bytes words.now) (run_view r.0)) }
    ensures fault { IfErr result (IsWordsFault (map (λ policy. policy.name) policies.list.items) (map string_bytes words.now)) }
{
    match read_words(alloc, words, &policies) {
        Ok(run) => match policies.take(run.ports) {
            Some(policy) => Ok((run, policy)),
            None => unreachable!(),
        },
        Err(fault) => Err(fault),
    }
}
