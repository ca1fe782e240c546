ghost use Rattle.recorded_hits.specs.Recorded.{HitsAreRecorded, LooksFindWhatIsRecorded, RecordedHitsStay};

/// A law, with nothing to run: in a legal journal each lookup with a hit was answered by what an earlier fetch recorded.
pub fn hits_are_recorded()
    ensures { HitsAreRecorded }
{}

/// A law, with nothing to run: so is each hit that a look on a cache answers, in the journal that the look leaves.
pub fn looks_find_what_is_recorded()
    ensures { LooksFindWhatIsRecorded }
{}

/// A law, with nothing to run: what a journal says of a hit, each later journal of the epoch says of it too.
pub fn recorded_hits_stay()
    ensures { RecordedHitsStay }
{}
