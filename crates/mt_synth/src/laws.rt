//! The laws of classes. The contract of each function is the law; there is nothing to run.
ghost use Rattle.mt_synth.specs.Laws.{ClassesCounted, ClassesPartition};

/// The regions of the classes of a chain are a partition of its headers: `mt_classes::Index` can be built of them.
pub fn classes_are_a_partition()
    ensures { ClassesPartition }
{}

/// A chain has one class for each tree of its headers: two lists of its classes have one length, and where so many
/// headers have trees of their own, there are at least so many classes.
pub fn classes_are_counted()
    ensures { ClassesCounted }
{}
