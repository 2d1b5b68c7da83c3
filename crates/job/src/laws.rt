// What holds of the format, over all byte strings.
ghost use Rattle.job.specs.Laws.{EverySplit, SplitDecides, ReadsBack, ListsReadBack, OnlySo, Enough};

/// The laws of reading: good records and the end record are read back, nothing else is accepted,
/// the first record at fault decides a refusal, and no job needs more than 10,241 bytes.
pub fn reading_stands()
    ensures split { EverySplit }
    ensures decides { SplitDecides }
    ensures back { ReadsBack }
    ensures lists { ListsReadBack }
    ensures only { OnlySo }
    ensures enough { Enough }
{}
