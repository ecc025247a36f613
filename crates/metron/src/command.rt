//! A command: its chain and script are read, its devices get their files, and the chain runs.
ghost use Rattle.std.specs.Prelude.{◌≡◌, ◌≢◌, ◌<◌, ◌≤◌, ◌^◌, ℕ, List, [], length, map, IfOk, IfErr};
ghost use Rattle.mt_io.specs.Files.{IsSame, NeverFell};
ghost use Rattle.mt_pcap.specs.Sources as sources;
ghost use Rattle.mt_elements.specs.Accepted.{IsAccepted};
ghost use Rattle.mt_trees.specs.Elements.{tree_of};
ghost use Rattle.mt_synth.specs.Classes.{AreClasses, class_form};
ghost use Rattle.mt_command.specs.Apart.{AreApart, AreBoundApart};
ghost use Rattle.mt_command.specs.Command.{IsCommand};
ghost use Rattle.mt_command.specs.Devices.{AreBound};
ghost use Rattle.mt_command.specs.Parts.{run_view, bound_view};
ghost use Rattle.metron.specs.Causes.{Call, state_of, IsAtCaptures, IsRefusal, IsRun, IsRunOf};
ghost use Rattle.metron.specs.Finish.{AreOutputs};
ghost use Rattle.metron.specs.Inputs.{devices_of, inputs_of, outputs_of};
ghost use Rattle.metron.specs.Outcome.{account_of, nothing_served};
ghost use Rattle.metron.specs.Serving.{AreFilesApart};
ghost use Rattle.metron.specs.Standing.{IsBegun};

use crate::Fault;
use crate::devices::bind_devices;
use crate::ends::{input_files, open_captures, open_outputs};
use crate::inputs::{read_chain, read_script};
use crate::outcome::Tally;
use crate::serve::serve;
use crate::worker::Worker;
use mt_command::laws::bound_files_are_apart;
use mt_command::{Bound, Run};
use mt_elements::Chain;
use mt_io::Files;
use mt_ledger::Policy;
use mt_pcap::Merge;
use mt_pcap::laws::merges_all;
use mt_pipeline::Context;
use mt_terms::Classes;
use std::alloc::{AllocError, Global};

/// How a run ended, and the files of its devices; none where it did not come so far.
#[derive(Drop)]
pub(crate) struct Ended<'a> {
    pub fault: Fault,
    pub bound: Vec<Bound<'a>>,
}

/// The chain of a command with its classes, and the files of its devices.
#[derive(Drop)]
struct Prepared<'a> {
    pub chain: Chain,
    pub classes: Classes,
    pub bound: Vec<Bound<'a>>,
}

/// Runs a command, by this policy. What is told of the frames that were served is noted in `tally`.
pub(crate) fn run_command<'a, F: Files>(
    alloc: Global,
    command: &Run<'a>,
    policy: Policy,
    files: &mut F,
    tally: &mut Tally,
) -> Ended<'a>
    requires apart { AreApart (run_view command.now) }
    requires first { account_of tally.old ≡ nothing_served }
    ensures run { (call : Call) → IsCommand call.policies call.words (run_view command.now) → IsRun call
        (state_of F.held F.written F.read_faults F.write_faults files.old)
        (state_of F.held F.written F.read_faults F.write_faults files.new)
        (account_of tally.new) result.fault }
    ensures outputs { (call : Call) → IsCommand call.policies call.words (run_view command.now) → AreOutputs call (F.held files.old) (run_view command.now) (outputs_of (map bound_view result.bound.items)) }
    ensures few { length result.bound.items ≤ 32 }
    ensures write_faults { NeverFell (F.write_faults files.old) (F.write_faults files.new) }
{
    let prepared = match prepare(alloc, command, files) {
        Ok(prepared) => prepared,
        Err(fault) => {
            return Ended {
                fault,
                bound: Vec::new(alloc),
            };
        }
    };
    let Prepared {
        chain,
        classes,
        bound,
    } = prepared;
    chain.is_accepted();
    let fault = run_chain(alloc, files, chain, classes, policy, &bound, tally);
    Ended { fault, bound }
}

/// The chain of a command with its classes, and the files of its devices. The script is read.
fn prepare<'a, F: Files>(
    alloc: Global,
    command: &Run<'a>,
    files: &mut F,
) -> Result<Prepared<'a>, Fault>
    requires { AreApart (run_view command.now) }
    ensures ok { IfOk result (λ r. (call : Call) → IsCommand call.policies call.words (run_view command.now)
        → IsAtCaptures call (F.held files.old) (run_view command.now) r.chain (map bound_view r.bound.items)) }
    ensures bound { IfOk result (λ r. AreBound (run_view command.now).bindings (devices_of r.chain) (map bound_view r.bound.items)) }
    ensures classes { IfOk result (λ r. AreClasses r.chain.entries (tree_of r.chain) (map class_form r.classes)) }
    ensures few { IfOk result (λ r. length r.classes < 65536) }
    ensures apart { IfOk result (λ r. AreBoundApart (run_view command.now) (map bound_view r.bound.items)) }
    ensures err { IfErr result (λ fault. (call : Call) → IsCommand call.policies call.words (run_view command.now)
        → IsRefusal call (state_of F.held F.written F.read_faults F.write_faults files.old) (state_of F.held F.written F.read_faults F.write_faults files.new) fault) }

    ensures other_held { (other : List ℕ) → other ≢ command.now.chain.now → other ≢ command.now.script.now → F.held files.new other ≡ F.held files.old other }
    ensures written { IsSame (F.written files.old) (F.written files.new) }
    ensures read_faults { NeverFell (F.read_faults files.old) (F.read_faults files.new) }
    ensures write_faults { NeverFell (F.write_faults files.old) (F.write_faults files.new) }
{
    bound_files_are_apart();
    let (chain, classes) = match read_chain(alloc, files, command.chain) {
        Ok(read) => read,
        Err(fault) => return Err(fault),
    };
    let bound = match bind_devices(alloc, &chain, &command.bindings) {
        Ok(bound) => bound,
        Err(fault) => return Err(fault),
    };
    match read_script(alloc, files, command.script) {
        Ok(()) => Ok(Prepared {
            chain,
            classes,
            bound,
        }),
        Err(fault) => Err(fault),
    }
}

/// A server for a chain, with what serving needs of the chain.
fn open_worker(
    alloc: Global,
    chain: Chain,
    classes: Classes,
    policy: Policy,
) -> Result<(Context, Worker), AllocError>
    requires classes { AreClasses chain.entries (tree_of chain) (map class_form classes) }
    requires few { length classes < 65536 }
    ensures { IfOk result (λ r. IsBegun chain r.0.rewriters r.0.classes r.0.index r.1) }
{
    let context = Context::of(alloc, chain, classes, policy)?;
    let worker = Worker::open(alloc, &context)?;
    Ok((context, worker))
}

/// Runs a chain whose devices have these files: opens the captures, begins the outputs, and serves the frames.
fn run_chain<F: Files>(
    alloc: Global,
    files: &mut F,
    chain: Chain,
    classes: Classes,
    policy: Policy,
    bound: &[Bound<'_>],
    tally: &mut Tally,
) -> Fault
    requires classes { AreClasses chain.entries (tree_of chain) (map class_form classes) }
    requires numbered { length classes < 65536 }
    requires few { length bound.now ≤ 32 }
    requires known { length (inputs_of chain (map bound_view bound.now)) ≤ chain.entries }
    requires inputs { sources.AreApart (inputs_of chain (map bound_view bound.now)) }
    requires outputs { AreFilesApart (outputs_of (map bound_view bound.now)) }
    requires first { account_of tally.old ≡ nothing_served }
    ensures run { IsRunOf chain (map bound_view bound.now)
        (state_of F.held F.written F.read_faults F.write_faults files.old)
        (state_of F.held F.written F.read_faults F.write_faults files.new)
        (account_of tally.new) result }
    ensures read_faults { NeverFell (F.read_faults files.old) (F.read_faults files.new) }
    ensures write_faults { NeverFell (F.write_faults files.old) (F.write_faults files.new) }
{
    merges_all();
    let inputs = match input_files(alloc, bound, chain.entries()) {
        Ok(inputs) => inputs,
        Err(_) => return Fault::Memory,
    };
    let count = classes.list().len() as u32;
    let (context, mut worker) = match open_worker(alloc, chain, classes, policy) {
        Ok(opened) => opened,
        Err(_) => return Fault::Memory,
    };
    let readers = match open_captures(alloc, files, &inputs) {
        Ok(readers) => readers,
        Err(fault) => return fault,
    };
    let mut merge = match Merge::new(alloc, readers) {
        Ok(merge) => merge,
        Err(_) => return Fault::Memory,
    };
    let mut writers = match open_outputs(alloc, files, bound) {
        Ok(writers) => writers,
        Err(fault) => return fault,
    };
    tally.classes = count;
    serve(
        alloc,
        files,
        &context,
        &mut worker,
        &mut merge,
        &mut writers,
        tally,
    )
}
