//! What the files of a command hold: the chain and the script.
ghost use Rattle.std.specs.Prelude.{◌≡◌, ◌<◌, ◌≤◌, ◌⊎◌, ℕ, List, Option, length, map, IfOk, IfErr, OnOk};
ghost use Rattle.mt_elements.specs.declared.fault.ChainWhy.TheVariants.{NoMemory};
ghost use Rattle.mt_synth.specs.Classes.{AreClasses, HasTrees, IsFaultOf, class_form};
ghost use Rattle.mt_terms.specs.Trees.{TreeForm};
ghost use Rattle.mt_trees.specs.Elements.{tree_of};
ghost use Rattle.mt_command.specs.Apart.{HaveNames};
ghost use Rattle.mt_io.specs.Files.{IsSame, IsSameBut, NeverFell};
ghost use Rattle.metron.specs.declared.outcome.Fault.TheVariants.{Memory};
ghost use Rattle.metron.specs.declared.outcome.Fault.TheVariants as RunFault;
ghost use Rattle.metron.specs.Inputs.{IsChain, IsTextFault, IsChainRead, IsChainFault, IsScriptRead, ScriptFault, devices_of};

use crate::{Fault, FileId};
use mt_click::{ClickWhy, parse};
use mt_elements::{Chain, ChainFault, ChainWhy, check};
use mt_io::{Files, TextFault, read_up_to};
use mt_script::ScriptWhy;
use mt_synth::{SynthFault, synthesise};
use mt_terms::Classes;
use std::alloc::Global;

/// The most bytes that a chain's text and a script have.
const TEXT_LIMIT: usize = 1_048_576;

/// The chain whose text a file holds, and its classes.
pub(crate) fn read_chain<F: Files>(
    alloc: Global,
    files: &mut F,
    name: &str,
) -> Result<(Chain, Classes), Fault>
    ensures ok { IfOk result (λ r. IsChainRead (F.held files.old name.now) r.0) }
    ensures classes { IfOk result (λ r. AreClasses r.0.entries (tree_of r.0) (map class_form r.1)) }
    ensures few { IfOk result (λ r. length r.1 < 65536) }
    ensures names { IfOk result (λ r. HaveNames (devices_of r.0)) }
    ensures err { IfErr result (IsChainFault (F.held files.old name.now) (F.read_faults files.old name.now) (F.read_faults files.new name.now)) }

    ensures other_files { IsSameBut name.now (F.held files.old) (F.held files.new) }
    ensures written { IsSame (F.written files.old) (F.written files.new) }
    ensures read_faults { NeverFell (F.read_faults files.old) (F.read_faults files.new) }
    ensures write_faults { NeverFell (F.write_faults files.old) (F.write_faults files.new) }
{
    let text = match read_up_to(alloc, files, name, TEXT_LIMIT) {
        Ok(text) => text,
        Err(TextFault::TooLong) => return Err(Fault::TooLong(FileId::Chain)),
        Err(TextFault::Failed) => return Err(Fault::Read(FileId::Chain)),
        Err(TextFault::NoMemory) => return Err(Fault::Memory),
    };
    chain_of(alloc, &text)
}

/// The chain of a text, and its classes.
fn chain_of(alloc: Global, text: &[u8]) -> Result<(Chain, Classes), Fault>
    requires { length text.now ≤ 1048576 }
    ensures ok { IfOk result (λ r. IsChain text.now r.0) }
    ensures classes { IfOk result (λ r. AreClasses r.0.entries (tree_of r.0) (map class_form r.1)) }
    ensures few { IfOk result (λ r. length r.1 < 65536) }
    ensures names { IfOk result (λ r. HaveNames (devices_of r.0)) }
    ensures err { IfErr result (λ f. (f ≡ Memory) ⊎ IsTextFault text.now f) }
{
    let graph = match parse(alloc, text) {
        Ok(graph) => graph,
        Err(fault) if matches!(fault.why, ClickWhy::NoMemory) => return Err(Fault::Memory),
        Err(fault) => return Err(Fault::Click(fault)),
    };
    let chain = match check(alloc, graph) {
        Ok(chain) => chain,
        Err(fault) => return Err(refusal(fault)),
    };
    match synthesise(alloc, &chain) {
        Ok(classes) => Ok((chain, classes)),
        Err(fault) => Err(too_many(fault)),
    }
}

/// The fault of a chain that has no classes.
fn too_many(fault: SynthFault) -> Fault
    ensures { (devices : ℕ) (tree_at : List ℕ → Option TreeForm) → IsFaultOf devices tree_at fault → (result ≡ Memory) ⊎ ((count : ℕ) × (result ≡ RunFault.Classes count) × (count ≡ 65536) × HasTrees devices tree_at 65536) }
{
    match fault {
        SynthFault::TooManyClasses(count) => Fault::Classes(count),
        SynthFault::NoMemory => Fault::Memory,
    }
}

/// The fault of a graph that is refused.
fn refusal(fault: ChainFault) -> Fault
    ensures memory { fault.why ≡ NoMemory → result ≡ Memory }
    ensures refused { (result ≡ Memory) ⊎ (result ≡ RunFault.Chain fault) }
{
    match fault.why {
        ChainWhy::NoMemory => Fault::Memory,
        _ => Fault::Chain(fault),
    }
}

/// Reads a script. None of the commands can be run yet.
pub(crate) fn read_script<F: Files>(alloc: Global, files: &mut F, name: &str) -> Result<(), Fault>
    ensures ok { OnOk result (IsScriptRead (F.held files.old name.now)) }
    ensures err { IfErr result (ScriptFault (F.held files.old name.now) (F.read_faults files.old name.now) (F.read_faults files.new name.now)) }

    ensures other_files { IsSameBut name.now (F.held files.old) (F.held files.new) }
    ensures written { IsSame (F.written files.old) (F.written files.new) }
    ensures read_faults { NeverFell (F.read_faults files.old) (F.read_faults files.new) }
    ensures write_faults { NeverFell (F.write_faults files.old) (F.write_faults files.new) }
{
    let text = match read_up_to(alloc, files, name, TEXT_LIMIT) {
        Ok(text) => text,
        Err(TextFault::TooLong) => return Err(Fault::TooLong(FileId::Script)),
        Err(TextFault::Failed) => return Err(Fault::Read(FileId::Script)),
        Err(TextFault::NoMemory) => return Err(Fault::Memory),
    };
    let commands = match mt_script::parse(alloc, &text) {
        Ok(commands) => commands,
        Err(fault) if matches!(fault.why, ScriptWhy::NoMemory) => return Err(Fault::Memory),
        Err(fault) => return Err(Fault::Script(fault)),
    };
    if commands.is_empty() {
        Ok(())
    } else {
        Err(Fault::Unbuilt(FileId::Script))
    }
}
