//! What numbers and addresses in words are, beside how they are read. The contract of each function is the
//! law; there is nothing to run.
ghost use Rattle.std.specs.Prelude.{◌≡◌, ◌↔◌, ◌<◌, ◌≤◌, ◌+◌, ◌*◌, ℕ, List, Some, decimal};
ghost use Rattle.mt_text.specs.Address.{ipv4_address_of, dotted, ethernet_address_of, colon_separated};
ghost use Rattle.mt_text.specs.Number.{decimal_of, number_up_to, IsDecimal};

/// A word is read as a decimal number exactly where it is one to nine decimal digits that write the number.
pub fn decimal_is_numeral()
    ensures { (word : List ℕ) (n : ℕ) → (decimal_of word ≡ Some n) ↔ IsDecimal word n }
{}

/// A number below a limit is read back from its decimal digits.
pub fn number_is_read_back()
    ensures { (greatest n : ℕ) → n ≤ greatest → greatest < 1000000000 → number_up_to greatest (decimal n) ≡ Some n }
{}

/// An IPv4 address is read back from dotted decimal.
pub fn ipv4_address_is_read_back()
    ensures { (a b c d : ℕ) → a ≤ 255 → b ≤ 255 → c ≤ 255 → d ≤ 255
        → ipv4_address_of (dotted a b c d) ≡ Some (a * 16777216 + b * 65536 + c * 256 + d) }
{}

/// An Ethernet address is read back from six pairs of digits joined by colons.
pub fn ethernet_address_is_read_back()
    ensures { (a b c d e f : ℕ) → a ≤ 255 → b ≤ 255 → c ≤ 255 → d ≤ 255 → e ≤ 255 → f ≤ 255
        → ethernet_address_of (colon_separated a b c d e f)
        ≡ Some (((((a * 256 + b) * 256 + c) * 256 + d) * 256 + e) * 256 + f) }
{}
