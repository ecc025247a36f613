//! What holds of every table of a chain. The contract of each function is the law; there is nothing to run.
ghost use Rattle.mt_rewriter.specs.Kept.{DecisionsKeep, ExhaustedPoolsAreHeld, MappingsStay, PassagesLead, PortsWereFree};

/// Forward keys differ, and so do reply keys and held ports; each mapping is one that its input makes; turns are those of
/// patterns that are there.
pub fn decisions_keep_tables()
    ensures { DecisionsKeep }
{}

/// No mapping leaves.
pub fn mappings_stay()
    ensures { MappingsStay }
{}

/// A port was free when a mapping got it from its pool.
pub fn ports_were_free()
    ensures { PortsWereFree }
{}

/// A packet leaves a rewriter only by an output to which the input leads by which it came.
pub fn passages_lead()
    ensures { PassagesLead }
{}

/// A try of a pool is exhausted only where mappings hold all its ports.
pub fn exhausted_pools_are_held()
    ensures { ExhaustedPoolsAreHeld }
{}
