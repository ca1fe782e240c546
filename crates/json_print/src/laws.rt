ghost use Rattle.json_print.specs.ReadBack.{ReadsBack};

use json_value::Json;

/// A law, with nothing to run: a value for which some text stands, as each value that is read, is the value for which
/// its compact text stands.
pub fn compact_text_stands_for_its_value(value: &Json)
    ensures { ReadsBack value.now }
{}
