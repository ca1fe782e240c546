ghost use Rattle.std.specs.Prelude.{◌≡◌, ℕ, ◌+◌, ◌<◌, length, List, Option, Some, Result, slice_get};
ghost use Rattle.cache_terms.specs.declared.events.Reply.{Reply};
ghost use Rattle.line_base.specs.declared.line.LineFault.{LineFault};
ghost use Rattle.line_base.specs.declared.lane.Work.{Work};
ghost use Rattle.line_base.specs.Lines as lines;
ghost use Rattle.line_base.specs.Lines.{Entry, Gains, IsCounted};
ghost use Rattle.line_base.specs.Lanes.{AreFetched, told_by_all};

/// Over a line whose log is told, the j-th of these fetches is entry `calls + j` of the log, where `calls` is the
/// number before them.
pub fn calls_are_places_in_the_log()
    ensures { (old new : lines.Line) (entries log : List Entry) (j : ℕ) → IsCounted old
        → Gains old entries new → new.log ≡ Some log → j < length entries
        → slice_get log (old.calls + j) ≡ slice_get entries j }
{}

/// What a lane's fetches add to its line: an entry for each fetch that found memory, in order.
pub fn lanes_gain_their_fetches()
    ensures { (old new : lines.Line) (works : List Work) (answers : List (Result Reply LineFault))
        → AreFetched old works answers new → Gains old (told_by_all works answers) new }
{}
