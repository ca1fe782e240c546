//! A law of the definitions, the contract of a function that does nothing.

ghost use Rattle.gql_print.specs.Laws.{CanonicalTextsAreEqual};

use gql_terms::Document;

/// Two documents for which texts stand, as for each document that is read, have one canonical text exactly where they
/// are equal.
pub fn canonical_texts_are_equal(a: &Document, b: &Document)
    ensures { CanonicalTextsAreEqual a.now b.now }
{}
