//! A law of the grammar that the machine shows, the contract of a function that does nothing.

ghost use Rattle.json_machine.specs.OneValue.{JsonTextsHaveOneValue};
ghost use Rattle.json_value.specs.Grammar.{Rules};

/// A text stands for one value at most, under each choice of the rules.
pub fn text_has_one_value()
    ensures { (r : Rules) → JsonTextsHaveOneValue r }
{}
