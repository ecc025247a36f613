//! What the grammar of patterns says, beside how they are read, and what their spans have. The contract of
//! each function is the law; there is nothing to run.
ghost use Rattle.std.specs.Prelude.{◌≡◌, ◌↔◌, ◌≤◌, ◌/◌, ◌-◌, ◌^◌, ◌+◌, ◌*◌, ◌∷◌, ◌++◌, List, ℕ, Some, Ok, Err, true, decimal};
ghost use Rattle.mt_pattern.specs.Forms.{IsRelated, IsIn};
ghost use Rattle.mt_pattern.specs.Grammar.{IsPattern, IsWrongAt};
ghost use Rattle.mt_pattern.specs.Meaning.{contains_number};
ghost use Rattle.mt_pattern.specs.Span.{span, prefix_span, prefix_of, ports_of};
ghost use Rattle.mt_pattern.specs.Parser.{parse_of};
ghost use Rattle.mt_pattern.specs.Test.{related};
ghost use Rattle.mt_pattern.specs.declared.pattern.Pattern.{Pattern};
ghost use Rattle.mt_pattern.specs.declared.test.Relation.{Relation};
ghost use Rattle.mt_text.specs.Address.{dotted};

use mt_text::laws::{decimal_is_numeral, ipv4_address_is_read_back, number_is_read_back};

/// A text is read as a pattern exactly where the grammar spells it as that pattern, so it is at most one.
pub fn read_where_spelled()
    ensures { (text : List ℕ) (p : Pattern) → (parse_of text ≡ Ok p) ↔ IsPattern text p }
{}

/// A text is refused exactly where it goes wrong, so it goes wrong at one offset at most, and only where it
/// is no pattern.
pub fn refused_where_wrong()
    ensures { (text : List ℕ) (at : ℕ) → (parse_of text ≡ Err at) ↔ IsWrongAt text at }
{}

/// The span of a prefix has exactly the addresses that agree with its address in so many of 32 high bits.
pub fn prefix_by_high_bits()
    ensures { (address len n : ℕ) → (contains_number (prefix_span address len) n ≡ true) ↔ (n / 2 ^ (32 - len) ≡ address / 2 ^ (32 - len)) }
{}

/// The span of a relation has exactly the numbers, up to the greatest, that are in it.
pub fn related_by_order()
    ensures { (relation : Relation) (number greatest n : ℕ) → n ≤ greatest → IsIn (related relation number greatest) n ↔ IsRelated relation n number }
{}

/// A prefix is read back from its address in dotted decimal, `/` and its length.
pub fn prefix_is_read_back()
    ensures { (a b c d len : ℕ) → a ≤ 255 → b ≤ 255 → c ≤ 255 → d ≤ 255 → len ≤ 32
        → prefix_of (dotted a b c d ++ 47 ∷ decimal len) ≡ Some (prefix_span (a * 16777216 + b * 65536 + c * 256 + d) len) }
{
    decimal_is_numeral();
    ipv4_address_is_read_back();
}

/// A range of ports is read back from its ends and `-` between them.
pub fn range_is_read_back()
    ensures { (lo hi : ℕ) → lo ≤ hi → hi ≤ 65535 → ports_of (decimal lo ++ 45 ∷ decimal hi) ≡ Some (span lo hi) }
{
    number_is_read_back();
}
