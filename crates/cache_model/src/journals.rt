ghost use Rattle.cache_model.specs.Laws.{ChoiceIsUnique, ChoiceIsMasked, OutcomeIsUnique, CountIsUnique};
ghost use Rattle.cache_model.specs.Laws.{EmptyIsLegal, LegalHasRoom, LegalHasBytes};

/// A lookup has one choice.
pub fn choice_is_unique()
    ensures { ChoiceIsUnique }
{}

/// Other callers' own pieces change no choice.
pub fn choice_is_masked()
    ensures { ChoiceIsMasked }
{}

/// One outcome is due, but for want of memory.
pub fn outcome_is_unique()
    ensures { OutcomeIsUnique }
{}

/// An invalidation covers one number of held pieces.
pub fn count_is_unique()
    ensures { CountIsUnique }
{}

/// The journal of an epoch that begins is legal.
pub fn empty_is_legal()
    ensures { EmptyIsLegal }
{}

/// The events and the open tickets together have their room, and so have the bytes.
pub fn legal_has_room()
    ensures events { LegalHasRoom }
    ensures bytes { LegalHasBytes }
{}
