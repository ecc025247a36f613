//! What holds of all words, bindings and devices. The contract of each function is the law; there is nothing to
//! run.
ghost use Rattle.std.specs.Prelude.{◌≡◌, ◌↔◌, ℕ, true, List, Some};
ghost use Rattle.mt_command.specs.Apart.{AreApart, AreBoundApart, HaveNames};
ghost use Rattle.mt_command.specs.Bindings.{binding_of, IsBinding};
ghost use Rattle.mt_command.specs.Command.{IsCommand, IsFirstAtFault};
ghost use Rattle.mt_command.specs.Devices.{AreBound, IsFirstUnbound, IsFirstUnfit};
ghost use Rattle.mt_command.specs.Parts.{BindingView, BoundView, DeviceView, RunView};
ghost use Rattle.mt_command.specs.Policies.{is_policy};

/// Words are one command, or have one first fault, and not both, whatever names policies have.
pub fn one_answer_of_words()
    ensures command { (names words : List (List ℕ)) (r s : RunView) → IsCommand names words r → IsCommand names words s → r ≡ s }
    ensures either { (names words : List (List ℕ)) (r : RunView) (n : ℕ) → IsCommand names words r → IsFirstAtFault names words n → ⊥ }
    ensures fault { (names words : List (List ℕ)) (n m : ℕ) → IsFirstAtFault names words n → IsFirstAtFault names words m → n ≡ m }
{}

/// The policy of a command is one of those whose names are given.
pub fn policies_are_known()
    ensures { (names words : List (List ℕ)) (run : RunView) → IsCommand names words run → is_policy names run.ports ≡ true }
{}

/// Bindings give devices one list of files, or have one first binding at fault, or there is one lowest device
/// that has a side without one, and no two of these.
pub fn one_answer_of_bindings()
    ensures bound { (bindings : List BindingView) (devices : List DeviceView) (b c : List BoundView)
        → AreBound bindings devices b → AreBound bindings devices c → b ≡ c }
    ensures unfit { (bindings : List BindingView) (devices : List DeviceView) (n m : ℕ)
        → IsFirstUnfit bindings devices n → IsFirstUnfit bindings devices m → n ≡ m }
    ensures unbound { (bindings : List BindingView) (devices : List DeviceView) (n m : ℕ)
        → IsFirstUnbound bindings devices n → IsFirstUnbound bindings devices m → n ≡ m }
    ensures bound_or_unfit { (bindings : List BindingView) (devices : List DeviceView) (b : List BoundView) (n : ℕ)
        → AreBound bindings devices b → IsFirstUnfit bindings devices n → ⊥ }
    ensures bound_or_unbound { (bindings : List BindingView) (devices : List DeviceView) (b : List BoundView) (n : ℕ)
        → AreBound bindings devices b → IsFirstUnbound bindings devices n → ⊥ }
    ensures unfit_or_unbound { (bindings : List BindingView) (devices : List DeviceView) (n m : ℕ)
        → IsFirstUnfit bindings devices n → IsFirstUnbound bindings devices m → ⊥ }
{}

/// A word is a binding exactly where it is written as one: the mark of its side, its device, which has no `=`, a
/// `=`, and its file.
pub fn bindings_are_written()
    ensures { (number : ℕ) (word : List ℕ) (b : BindingView)
        → (binding_of number word ≡ Some b) ↔ (IsBinding word b × (b.word ≡ number)) }
{}

/// The files of a command all differ, and none is `-`.
pub fn files_are_apart()
    ensures { (names words : List (List ℕ)) (run : RunView) → IsCommand names words run → AreApart run }
{}

/// Where the files of a command all differ, and the names of devices too, so do the files that devices have from
/// each other, from the chain's and from the script's.
pub fn bound_files_are_apart()
    ensures { (run : RunView) (devices : List DeviceView) (bound : List BoundView)
        → AreApart run → HaveNames devices → AreBound run.bindings devices bound → AreBoundApart run bound }
{}
