//! What the words of texts and of argument texts say. The contract of each function is the law; there is nothing to run.
ghost use Rattle.std.specs.Prelude.{◌≡◌, ◌↔◌, ℕ, List, [], ◌∷◌};
ghost use Rattle.std.specs.List.{AllByRecursion};
ghost use Rattle.mt_syntax.specs.declared.replacing.Binding.{Binding as TheBinding};
ghost use Rattle.mt_syntax.specs.Arguments.{separated, solid, tidy, written};
ghost use Rattle.mt_syntax.specs.Balance.{IsTidy};
ghost use Rattle.mt_syntax.specs.Laws.{TextLaws};
ghost use Rattle.mt_syntax.specs.Replacing.{IsReplaced, replaced_in};

/// Tidy arguments that are written with a comma and a space between two are read back. One empty argument alone
/// is written as the empty text, which has none.
pub fn arguments_read_back()
    ensures { (arguments : List (List ℕ)) → AllByRecursion IsTidy arguments → (arguments ≡ [] ∷ [] → ⊥) → separated (written arguments) ≡ arguments }
{}

/// Tidying keeps the bytes that are no white space, in order, and finds nothing more to do in what it gives.
pub fn tidying_keeps_the_rest()
    ensures solid { (text : List ℕ) → solid (tidy text) ≡ solid text }
    ensures again { (text : List ℕ) → tidy (tidy text) ≡ tidy text }
{}

/// A text with its parameters replaced is exactly the one that the relation says.
pub fn parameters_are_replaced()
    ensures { (bindings : List TheBinding) (text out : List ℕ) → (replaced_in bindings text ≡ out) ↔ IsReplaced bindings text out }
{}

/// What holds of every text and its tree: what is read derives a tree and the other way round, reading fails where
/// the text stops to begin a configuration, tokens ascend, names are identifiers, argument texts are closed.
pub fn texts_are_read()
    ensures { TextLaws }
{}
