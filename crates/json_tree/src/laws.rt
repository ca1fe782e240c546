//! Laws of reading and printing together, each the contract of a function that does nothing.

ghost use Rattle.json_tree.specs.Printed.{PrintedTextsHaveOneValue, PrintedTextsTellValuesApart};

/// What is printed of a value that was read stands for that value alone.
pub fn printed_text_has_one_value()
    ensures { PrintedTextsHaveOneValue }
{}

/// Two values that were read print as the same text only where they are the same value.
pub fn texts_tell_values_apart()
    ensures { PrintedTextsTellValuesApart }
{}
