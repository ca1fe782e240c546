ghost use Rattle.rehearsal.specs.Laws.{LinesHaveOneReply, LinesHaveOneText, FrontsAreFronts, FrontsGoOn};

/// A law, which does nothing when it runs: what a line is answered and leaves is determined, but for want of memory.
pub fn a_line_has_one_reply()
    ensures { LinesHaveOneReply }
{}

/// A law, which does nothing when it runs: what is written for lines, to their end or to one that is refused, is
/// determined, but for want of memory.
pub fn lines_have_one_text()
    ensures { LinesHaveOneText }
{}

/// A law, which does nothing when it runs: what is written for some first lines is a front of what is written for
/// all, or up to a line that is refused, but for want of memory.
pub fn a_front_is_a_front()
    ensures { FrontsAreFronts }
{}

/// A law, which does nothing when it runs: what is written for some first lines of a script goes on to what is written
/// for all, or up to a line that is refused; that it does not is refuted.
pub fn a_front_goes_on()
    ensures { FrontsGoOn }
{}
