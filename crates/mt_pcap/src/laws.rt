//! The laws of the words that the contracts use.
ghost use Rattle.mt_pcap.specs.Laws.{CaptureStands, CaptureStandsAlone, CaptureReadsBack, CaptureIsSound};
ghost use Rattle.mt_pcap.specs.StreamLaws.{LeaveTogether, NoneOpened, OneMoreOpened, ReadsToEnd, MergesToEnd, MergesToLimit, MergesFront, MergesOneMore};
ghost use Rattle.mt_pcap.specs.MergedLaws.{BeginsToMerge, MergesOn, MergesWhole, MergesFull, MergesSoFar, MergesBroken, FailsToRead, OpenedStill, MergedStill};
ghost use Rattle.mt_pcap.specs.MergeFacts.{MergeIsSound, MergeOfOne};

/// All bytes stand, in the words of the file format, for the capture that is read of them.
pub fn capture_stands()
    ensures { CaptureStands }
{}

/// Bytes stand for one capture only.
pub fn capture_stands_alone()
    ensures { CaptureStandsAlone }
{}

/// Records that are written are read back as they were.
pub fn capture_reads_back()
    ensures { CaptureReadsBack }
{}

/// What is read can be written again, has 16 bytes or more for each record, and ends with no fault
/// of reading the file or of memory.
pub fn capture_is_sound()
    ensures { CaptureIsSound }
{}

/// A merge gives the records of each capture in their order, all of them or those before the one fault
/// that ends it, numbered, and by their times where the times of each capture do not fall.
pub fn merge_is_sound()
    ensures { MergeIsSound }
{}

/// A capture that is merged alone gives its records, whatever their times, and ends as it ends.
pub fn merge_of_one()
    ensures { MergeOfOne }
{}

/// What a reader gives one after the other, to its end, is the whole capture.
pub fn reads_to_end()
    ensures { ReadsToEnd }
{}

/// What a merge gives one after the other, to its end or to its limit, is the merge of the whole captures.
pub fn merges_to_end()
    ensures to_end { MergesToEnd }
    ensures to_limit { MergesToLimit }
{}

/// What a merge gives one after the other is a front of the merge of the whole captures, and so is one frame more.
pub fn merges_front()
    ensures front { MergesFront }
    ensures one_more { MergesOneMore }
{}

/// Captures that are opened one after the other leave together what their files held.
pub fn opens_all()
    ensures together { LeaveTogether }
    ensures none { NoneOpened }
    ensures one_more { OneMoreOpened }
{}

/// The calls of a merge, from its beginning on, give the merge of what the files held before they were opened, to its
/// end, to its limit or to a read that fails.
pub fn merges_all()
    ensures begins { BeginsToMerge }
    ensures on { MergesOn }
    ensures whole { MergesWhole }
    ensures full { MergesFull }
    ensures so_far { MergesSoFar }
    ensures broken { MergesBroken }
    ensures fails { FailsToRead }
    ensures opened_still { OpenedStill }
    ensures still { MergedStill }
{}
