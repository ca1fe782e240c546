//! The laws that tie stamps and positions to a journal, each the contract of a function of its name.
ghost use Rattle.book_index.specs.Laws.{NoStampsTell, StampsOutliveEvents, NotedStampsTell};
ghost use Rattle.book_index.specs.Laws.{PrunedStampsTell, LastStampIsLastCover, StampsAreFew};
ghost use Rattle.book_index.specs.Laws.{ListedIsCount, RemovedIsFewer};

/// No stamps tell of a journal that has no position above the horizon.
pub fn no_stamps_tell()
    ensures { NoStampsTell }
{}

/// An event that is no invalidation leaves the stamps telling.
pub fn stamps_outlive_events()
    ensures { StampsOutliveEvents }
{}

/// An invalidation that is noted leaves the stamps telling.
pub fn noted_stamps_tell()
    ensures { NotedStampsTell }
{}

/// Stamps that are pruned tell of what is above the later horizon.
pub fn pruned_stamps_tell()
    ensures { PrunedStampsTell }
{}

/// The last stamp for a key and tags is the last cover of each ticket that started at the horizon
/// or after it, where it is above that Start. Where it is not, there is no cover.
pub fn last_stamp_is_last_cover()
    ensures { LastStampIsLastCover }
{}

/// There are at most as many stamps as invalidations above the horizon.
pub fn stamps_are_few()
    ensures { StampsAreFew }
{}

/// An invalidation covers as many held pieces as there are positions under its target.
pub fn listed_is_count()
    ensures { ListedIsCount }
{}

/// Where one position is taken out from under a target, one fewer stands there.
pub fn removed_is_fewer()
    ensures { RemovedIsFewer }
{}
