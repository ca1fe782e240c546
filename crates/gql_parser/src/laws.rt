//! Laws of the definitions, each the contract of a function that does nothing.

ghost use Rattle.gql_parser.specs.Laws.{TextsHaveOneDocument};

/// A text is one document at most.
pub fn text_is_one()
    ensures { TextsHaveOneDocument }
{}
