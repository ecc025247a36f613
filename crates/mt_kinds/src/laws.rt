//! How arguments are spelled, and what holds of the outputs that they name. The contract of each function is the
//! law; there is nothing to run.
ghost use Rattle.mt_kinds.specs.ArgumentSpelling.{RulesAreSpelled, HopsAreSpelled, LowBitsAreZero};
ghost use Rattle.mt_kinds.specs.Ports.{LeadsWithin};
ghost use Rattle.mt_kinds.specs.RewriterSpelling.{SpecsAreSpelled, TemplatesAreSpelled, DevicesAreSpelled};

/// An argument of an `IPFilter` is read as a rule exactly where it is an action, a space and a pattern.
pub fn rules_are_spelled()
    ensures { RulesAreSpelled }
{}

/// An argument of a route table is read as an entry exactly where it is a prefix, perhaps a gateway, and an
/// output, with a space between two of them.
pub fn hops_are_spelled()
    ensures { HopsAreSpelled }
{}

/// In the address of an entry of a route table the bits past the length of its prefix are 0.
pub fn low_bits_are_0()
    ensures { LowBitsAreZero }
{}

/// An argument of an `IPRewriter` is read as a specification exactly where it is spelled as that one.
pub fn specs_are_spelled()
    ensures { SpecsAreSpelled }
{}

/// An argument of a `RoundRobinIPMapper` is read as a template exactly where it is spelled as that one.
pub fn templates_are_spelled()
    ensures { TemplatesAreSpelled }
{}

/// The arguments of a `FromDevice` or a `ToDevice` name a device exactly where they are an identifier and, behind
/// it, any number of arguments that begin with an upper-case word.
pub fn devices_are_spelled()
    ensures { DevicesAreSpelled }
{}

/// A packet leaves a rewriter by an output that it has.
pub fn outputs_are_counted()
    ensures { LeadsWithin }
{}
