ghost use Rattle.script_lines.specs.Laws.{LinesHaveOneReading};

/// A law, which does nothing when it runs: a line has one reading.
pub fn one_reading()
    ensures { LinesHaveOneReading }
{}
