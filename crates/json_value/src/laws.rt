//! Laws of the grammar, each the contract of a function that does nothing.

ghost use Rattle.json_value.specs.Grammar.{Rules};
ghost use Rattle.json_value.specs.Laws.{SpellsDeeper, PartsHaveTexts};

/// A text that spells a value where it may open some more levels of lists and objects spells it where it may open more.
pub fn spells_deeper()
    ensures { (r : Rules) → SpellsDeeper r }
{}

/// Where some text stands for a value, as for each value that was read, one stands for each element of a list and for
/// the value of each member of an object.
pub fn parts_have_texts()
    ensures { (r : Rules) → PartsHaveTexts r }
{}
