//! Laws of the definitions, each the contract of a function that does nothing.

ghost use Rattle.gql_parser.specs.Laws.{TextsHaveOneDocument};
ghost use Rattle.gql_syntax.specs.Laws.{TextsHaveOneFault};

/// A text is one document at most.
pub fn text_is_one()
    ensures { TextsHaveOneDocument }
{
    gql_parser::text_is_one()
}

/// A text has one fault at most, want of memory apart: its first from the left.
pub fn fault_is_one()
    ensures { TextsHaveOneFault }
{}
