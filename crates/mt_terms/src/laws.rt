//! Laws of differences, of equality and of order. The contract of each function is the law; there is nothing to
//! run.
ghost use Rattle.std.specs.Prelude.{◌≡◌, ◌-◌, ◌<◌, ◌^◌, ℕ, List};
ghost use Rattle.std.specs.declared.cmp.Ordering.TheVariants.{Equal};
ghost use Rattle.std.specs.Bool.{Decides};
ghost use Rattle.std.specs.Cmp.{IsTotalOrder};
ghost use Rattle.mt_terms.specs.Orders.{compare_terms, compare_trees, equal_terms, equal_trees};
ghost use Rattle.mt_packet.specs.declared.flow.Flow.{Flow};
ghost use Rattle.mt_terms.specs.Terms.{IsPlain, IsWhole, TermForm, less_by, minus, term_form, value_of};
ghost use Rattle.mt_terms.specs.Trees.{tree_form};
ghost use Rattle.mt_terms.specs.declared.term.Term.{Term as ATerm};
ghost use Rattle.mt_terms.specs.declared.tree.Tree.{Tree as ATree};

/// A term less an amount has the value of the term less the amount, 0 where the amount is the greater, and no
/// difference stands in a difference. Values are below 2^64.
pub fn less_takes_an_amount()
    ensures whole { (term : TermForm) (amount : ℕ) (header : List ℕ) (passed : List Flow) → IsWhole term
        → value_of (less_by term amount) header passed ≡ value_of term header passed - amount }
    ensures difference { (term : TermForm) (before amount : ℕ) (header : List ℕ) (passed : List Flow) → value_of term header passed < 2 ^ 64
        → value_of (less_by (minus term before) amount) header passed ≡ value_of (minus term before) header passed - amount }
    ensures plain { (term : TermForm) (amount : ℕ) → IsPlain term → IsPlain (less_by term amount) }
{}

/// Two terms are equal, and `cmp` puts neither before the other, exactly where their plain forms are one. The
/// order of terms is total: it turns round with its arguments, goes on along three, and sees equal ones as one.
pub fn terms_have_one_order()
    ensures equal { (a b : ATerm) → Decides (equal_terms a b) (term_form a ≡ term_form b) }
    ensures same { (a b : ATerm) → (compare_terms a b ≡ Equal → term_form a ≡ term_form b) × (term_form a ≡ term_form b → compare_terms a b ≡ Equal) }
    ensures total { IsTotalOrder compare_terms }
{}

/// The same of trees.
pub fn trees_have_one_order()
    ensures equal { (a b : ATree) → Decides (equal_trees a b) (tree_form a ≡ tree_form b) }
    ensures same { (a b : ATree) → (compare_trees a b ≡ Equal → tree_form a ≡ tree_form b) × (tree_form a ≡ tree_form b → compare_trees a b ≡ Equal) }
    ensures total { IsTotalOrder compare_trees }
{}
