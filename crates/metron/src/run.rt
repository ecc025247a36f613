//! The top call.
ghost use Rattle.std.specs.Prelude.{◌≡◌, ◌<◌, ◌≤◌, ◌^◌, List, length, map, option_map, IfSome, Some};
ghost use Rattle.std.specs.Bool.{OnTrue};
ghost use Rattle.std.specs.String.{string_bytes};
ghost use Rattle.mt_io.specs.Files.{NeverFell};
ghost use Rattle.mt_command.specs.Parts.{RunView, bound_view};
ghost use Rattle.mt_command.specs.Command.{IsCommand};
ghost use Rattle.metron.specs.Outcome.{Account, account_of, nothing_served, status_of, told_of};
ghost use Rattle.metron.specs.Causes.{Call, State, call_of, state_of, IsUntouched, IsRun};
ghost use Rattle.metron.specs.Finish.{AreOutputs, IsServed, UnwrittenCause};
ghost use Rattle.metron.specs.Inputs.{outputs_of};
ghost use Rattle.metron.specs.Serving.{IsFile};
ghost use Rattle.metron.specs.Due.{IsExact, IsComplete, NoneFailed, IsFinished, IsEarly};
ghost use Rattle.metron.specs.declared.outcome.Fault.{Fault};

use crate::command::{Ended, run_command};
use crate::laws::one_answer_of_runs;
use crate::outcome::Tally;
use crate::policies::command_of;
use crate::{Fault, FileId, Outcome};
use mt_command::laws::files_are_apart;
use mt_command::{Bound, WordsFault};
use mt_io::{Buffered, Files};
use mt_ledger::Policies;
use std::alloc::Global;

/// Runs the command that the words are, over files by name:
///
/// ```text
/// run CHAIN SCRIPT BINDING.. [--ports NAME]
/// ```
///
/// reads the chain, makes its classes, reads the script, merges the captures of its devices by time, has a server take
/// each frame down the tree of its class, and writes for each device on which frames are sent a capture of those. Ports
/// of pools are picked by the policy of that name, `low` where none is named.
pub fn metron<F: Files>(
    alloc: Global,
    words: &[String],
    files: &mut F,
    policies: Policies,
) -> Outcome
    requires few { length words.now < 2 ^ 32 }
    ensures status { result.status ≡ status_of result.fault }
    ensures run { IsRun (call_of (map (λ policy. policy.name) policies.list.items) (map string_bytes words.now))
        (state_of F.held F.written F.read_faults F.write_faults files.old)
        (state_of F.held F.written F.read_faults F.write_faults files.new)
        (told_of result) result.fault }
    ensures done { result.fault ≡ Fault.Done
        → IsFinished (call_of (map (λ policy. policy.name) policies.list.items) (map string_bytes words.now))
        (state_of F.held F.written F.read_faults F.write_faults files.old)
        (state_of F.held F.written F.read_faults F.write_faults files.new)
        (told_of result) }
    ensures nothing_written { IsEarly result.fault
        → IsUntouched
        (state_of F.held F.written F.read_faults F.write_faults files.old)
        (state_of F.held F.written F.read_faults F.write_faults files.new)
        (told_of result) }
    ensures exact { IsExact (call_of (map (λ policy. policy.name) policies.list.items) (map string_bytes words.now))
        (state_of F.held F.written F.read_faults F.write_faults files.old)
        (state_of F.held F.written F.read_faults F.write_faults files.new)
        result.fault }
    ensures complete { NoneFailed
        (state_of F.held F.written F.read_faults F.write_faults files.old)
        (state_of F.held F.written F.read_faults F.write_faults files.new)
        → IsComplete (call_of (map (λ policy. policy.name) policies.list.items) (map string_bytes words.now)) (F.held files.old) result.fault }
{
    one_answer_of_runs();
    let mut tally = Tally::new(alloc);
    let fault = run(alloc, words, files, policies, &mut tally);
    Outcome::new(alloc, fault, tally)
}

/// Runs the command that the words are, as `metron` does, over files that are read and written through
/// buffers, and has all written. Where that fails at last, the run ends as at any failed write of that output.
pub fn serve_command<F: Files + Drop>(
    alloc: Global,
    words: &[String],
    files: F,
    policies: Policies,
) -> (Outcome, F)
    requires few { length words.now < 2 ^ 32 }
    ensures status { result.0.status ≡ status_of result.0.fault }
    ensures run { IsServed (call_of (map (λ policy. policy.name) policies.list.items) (map string_bytes words.now))
        (state_of F.held F.written F.read_faults F.write_faults files)
        (state_of F.held F.written F.read_faults F.write_faults result.1)
        (told_of result.0) result.0.fault }
    ensures done { result.0.fault ≡ Fault.Done
        → IsFinished (call_of (map (λ policy. policy.name) policies.list.items) (map string_bytes words.now))
        (state_of F.held F.written F.read_faults F.write_faults files)
        (state_of F.held F.written F.read_faults F.write_faults result.1)
        (told_of result.0) }
    ensures nothing_written { IsEarly result.0.fault
        → IsUntouched
        (state_of F.held F.written F.read_faults F.write_faults files)
        (state_of F.held F.written F.read_faults F.write_faults result.1)
        (told_of result.0) }
    ensures exact { IsExact (call_of (map (λ policy. policy.name) policies.list.items) (map string_bytes words.now))
        (state_of F.held F.written F.read_faults F.write_faults files)
        (state_of F.held F.written F.read_faults F.write_faults result.1)
        result.0.fault }
    ensures complete { NoneFailed
        (state_of F.held F.written F.read_faults F.write_faults files)
        (state_of F.held F.written F.read_faults F.write_faults result.1)
        → IsComplete (call_of (map (λ policy. policy.name) policies.list.items) (map string_bytes words.now)) (F.held files) result.0.fault }
{
    one_answer_of_runs();
    let mut tally = Tally::new(alloc);
    let (fault, files) = run_buffered(alloc, words, files, policies, &mut tally);
    (Outcome::new(alloc, fault, tally), files)
}

fn run<F: Files>(
    alloc: Global,
    words: &[String],
    files: &mut F,
    policies: Policies,
    tally: &mut Tally,
) -> Fault
    requires few { length words.now < 2 ^ 32 }
    requires first { account_of tally.old ≡ nothing_served }
    ensures { IsRun (call_of (map (λ policy. policy.name) policies.list.items) (map string_bytes words.now))
        (state_of F.held F.written F.read_faults F.write_faults files.old)
        (state_of F.held F.written F.read_faults F.write_faults files.new)
        (account_of tally.new) result }
{
    files_are_apart();
    match command_of(alloc, words, policies) {
        Ok((command, policy)) => run_command(alloc, &command, policy, files, tally).fault,
        Err(WordsFault::Word(word)) => Fault::UsageWord(word),
        Err(WordsFault::NoMemory) => Fault::Memory,
    }
}

fn run_buffered<F: Files + Drop>(
    alloc: Global,
    words: &[String],
    files: F,
    policies: Policies,
    tally: &mut Tally,
) -> (Fault, F)
    requires few { length words.now < 2 ^ 32 }
    requires first { account_of tally.old ≡ nothing_served }
    ensures { IsServed (call_of (map (λ policy. policy.name) policies.list.items) (map string_bytes words.now))
        (state_of F.held F.written F.read_faults F.write_faults files)
        (state_of F.held F.written F.read_faults F.write_faults result.1)
        (account_of tally.new) result.0 }
{
    files_are_apart();
    let (command, policy) = match command_of(alloc, words, policies) {
        Ok(read) => read,
        Err(WordsFault::Word(word)) => return (Fault::UsageWord(word), files),
        Err(WordsFault::NoMemory) => return (Fault::Memory, files),
    };
    let mut buffered = Buffered::new(alloc, files);
    let ended = run_command(alloc, &command, policy, &mut buffered, tally);
    finish_run(&ended, buffered)
}

/// Has all written that is pending when a run has ended.
fn finish_run<F: Files + Drop>(ended: &Ended<'_>, mut buffered: Buffered<F>) -> (Fault, F)
    requires { length ended.now.bound.items ≤ 32 }
    ensures { (call : Call) (command : RunView) (begun : State) (account : Account) → IsCommand call.policies call.words command
        → IsRun call begun
        (state_of ⟦<Buffered<F> as Files>⟧.held ⟦<Buffered<F> as Files>⟧.written ⟦<Buffered<F> as Files>⟧.read_faults ⟦<Buffered<F> as Files>⟧.write_faults buffered)
        account ended.now.fault
        → AreOutputs call begun.held command (outputs_of (map bound_view ended.now.bound.items))
        → NeverFell begun.failed_writes (⟦<Buffered<F> as Files>⟧.write_faults buffered)
        → IsServed call begun (state_of F.held F.written F.read_faults F.write_faults result.1) account result.0 }
{
    match buffered.finish() {
        Ok(()) => (ended.fault, buffered.into_inner()),
        Err(_) => {
            let fault = unwritten_fault(&ended.bound, buffered.unwritten());
            (fault, buffered.into_inner())
        }
    }
}

/// The fault where bytes of a file are still pending at the end. A run writes no other files than those of its
/// devices.
fn unwritten_fault(bound: &[Bound<'_>], unwritten: Option<&str>) -> Fault
    requires { length bound.now ≤ 32 }
    ensures { UnwrittenCause (outputs_of (map bound_view bound.now)) (option_map (λ name. name.now) unwritten.entry) result }
{
    match unwritten {
        None => Fault::Memory,
        Some(name) => match device_of(bound, name) {
            None => Fault::Memory,
            Some(index) => Fault::Write(FileId::Output(index as u32 + 1)),
        },
    }
}

/// The index of the device for which a file is written.
fn device_of(bound: &[Bound<'_>], name: &str) -> Option<usize>
    ensures { IfSome result (λ index. IsFile (outputs_of (map bound_view bound.now)) index name.now) }
{
    let mut index = 0;
    let mut rest = bound;
    while let [files, after @ ..] = rest {
        if is_file(files.output, name) {
            return Some(index);
        }
        index += 1;
        rest = after;
    }
    None
}

/// Whether an output is the file of that name.
fn is_file(output: Option<&str>, name: &str) -> bool
    ensures { OnTrue result (option_map (λ f. f.now) output.entry ≡ Some name.now) }
{
    match output {
        Some(file) => file == name,
        None => false,
    }
}
