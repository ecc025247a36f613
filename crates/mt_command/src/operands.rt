//! The operands: the mode, two files, and bindings.
ghost use Rattle.std.specs.Prelude.{◌≡◌, false, [], ◌∷◌, ℕ, ◌++◌, List, ◌||◌, not, map, length, IfOk};
ghost use Rattle.std.specs.Bool.{OnTrue};
ghost use Rattle.std.specs.Option.{option_map_or};
ghost use Rattle.std.specs.Str.{bytes_eq};
ghost use Rattle.mt_command.specs.Parts.{binding_view};
ghost use Rattle.mt_command.specs.Reading.{holds, bound_at};
ghost use Rattle.mt_command.specs.Words.{is_barred, is_wrong, file_in};

use crate::binding::{Binding, binding_in};
use std::alloc::{AllocError, Global};
use std::collections::BTreeSet;

/// The operands so far.
#[derive(Drop)]
pub(crate) struct Operands<'a> {
    /// The numbers of their words.
    pub(crate) numbers: Vec<u32>,
    pub(crate) files: BTreeSet<&'a str>,
    pub(crate) bindings: Vec<Binding<'a>>,
}

impl<'a> Operands<'a> {
    pub(crate) fn new(alloc: Global) -> Operands<'a>
        ensures numbers { result.numbers.items ≡ [] }
        ensures files { (file : List ℕ) → holds result.files file ≡ false }
        ensures bindings { result.bindings.items ≡ [] }
    {
        Operands {
            numbers: Vec::new(alloc),
            files: BTreeSet::new(alloc),
            bindings: Vec::new(alloc),
        }
    }

    // Adds the word of a number, if it is right at its place: whether it is.
    #[tactic(auto, unfolding(crate::specs::Words::is_wrong, crate::specs::Words::is_misplaced, crate::specs::Words::file_in, crate::specs::Bindings::is_binding, crate::specs::Bindings::binding_of, crate::specs::Reading::bound_at))]
    pub(crate) fn add(&mut self, number: u32, word: &'a str) -> Result<bool, AllocError>
        ensures right { IfOk result (λ right. is_wrong (holds self.old.files) (length self.old.numbers.items) word.now ≡ not right) }
        ensures added { IfOk result (λ right. OnTrue right (self.new.numbers.items ≡ self.old.numbers.items ++ number ∷ [])) }
        ensures named { IfOk result (λ right. OnTrue right ((file : List ℕ) → holds self.new.files file
            ≡ (holds self.old.files file || option_map_or (bytes_eq file) (file_in (length self.old.numbers.items) word.now) false))) }
        ensures bound { IfOk result (λ right. OnTrue right (map binding_view self.new.bindings.items
            ≡ map binding_view self.old.bindings.items ++ bound_at (length self.old.numbers.items) number word.now)) }
    {
        let place = self.numbers.len();
        self.numbers.push(number)?;
        match place {
            0 => Ok(word == "run"),
            1 | 2 => name_file(&mut self.files, word),
            _ => match binding_in(number, word) {
                Some(binding) => {
                    self.bindings.push(binding)?;
                    name_file(&mut self.files, binding.file)
                }
                None => Ok(false),
            },
        }
    }
}

// Whether a file may be named, which names it.
fn name_file<'a>(files: &mut BTreeSet<&'a str>, file: &'a str) -> Result<bool, AllocError>
    ensures fresh { IfOk result (λ fresh. is_barred (holds files.old) file.now ≡ not fresh) }
    ensures named { IfOk result (λ fresh. OnTrue fresh ((other : List ℕ) → holds files.new other
        ≡ (holds files.old other || bytes_eq other file.now))) }
{
    if file == "-" {
        return Ok(false);
    }
    Ok(files.insert(file)?)
}
