//! A law of what a fault says, the contract of a function that does nothing.

ghost use Rattle.json_faults.specs.OneFault.{JsonTextsHaveOneFault};

/// A text has one fault at most: what explains why it was not read explains it by the same fault at the same place.
pub fn fault_is_one()
    ensures { JsonTextsHaveOneFault }
{}
