//! The laws of tables and journals, each the contract of a function of its name.
ghost use Rattle.book_tables.specs.Laws.{TablesOutliveLookups, NoneOpenNoStamps};
ghost use Rattle.book_tables.specs.Laws.{StampsTellOfOldest};

/// A Lookup changes nothing that the tables say.
pub fn tables_outlive_lookups()
    ensures { TablesOutliveLookups }
{}

/// Where no ticket is open there are no stamps.
pub fn none_open_no_stamps()
    ensures { NoneOpenNoStamps }
{}

/// The stamps tell of what is above the Start of the oldest open ticket.
pub fn stamps_tell_of_oldest()
    ensures { StampsTellOfOldest }
{}
