ghost use Rattle.std.specs.Prelude.{◌≡◌, ◌∷◌, [], ◌++◌, ℕ, List, map, OnOk, IfOk, string_bytes};
ghost use Rattle.gql_print.specs.Words.{joined, keyword, name_words, operation_words, fragment_words, document_words};
ghost use Rattle.gql_print.specs.Canonical.{spaced, canonical_text, AreBytes, IsText};

use crate::selections::put_set;
use crate::types::put_variables;
use crate::values::put_directives;
use crate::words::put_name;
use flow_base::{Memory, Text};
use gql_terms::{Document, Fragment, OpKind, Operation};
use std::alloc::Global;

/// The canonical text of a document. Fails only for want of memory. Makes no other text, and recurses once for each
/// level of selection sets, of list and object values and of types.
pub fn canonical(alloc: Global, document: &Document) -> Result<Text, Memory>
    ensures text { IfOk result (λ t. t ≡ canonical_text document.now) }
    // Where some text stands for the document, as for each document that was read, this text does.
    ensures reads_back { IfOk result (λ t. (other : List ℕ) → AreBytes other
        → IsText document.now other → IsText document.now t) }
{
    let mut out = String::new(alloc);
    put_operations(&mut out, document.operations.as_slice())?;
    put_fragments(&mut out, document.fragments.as_slice())?;
    out.pop();
    Text::from_string(out)
}

fn put_operations(out: &mut String, operations: &[Operation]) -> Result<(), Memory>
    ensures { OnOk result (string_bytes out.new
        ≡ string_bytes out.old ++ spaced (joined (map operation_words operations.now))) }
{
    for i in 0..operations.len() {
        put_operation(out, &operations[i])?;
    }
    Ok(())
}

fn put_operation(out: &mut String, operation: &Operation) -> Result<(), Memory>
    ensures { OnOk result (string_bytes out.new
        ≡ string_bytes out.old ++ spaced (operation_words operation.now)) }
{
    put_keyword(out, operation.kind)?;
    put_operation_name(out, &operation.name)?;
    put_variables(out, operation.variables.as_slice())?;
    put_directives(out, operation.directives.as_slice())?;
    put_set(out, operation.selections.as_slice())?;
    Ok(())
}

fn put_keyword(out: &mut String, kind: OpKind) -> Result<(), Memory>
    ensures { OnOk result (string_bytes out.new
        ≡ string_bytes out.old ++ spaced (keyword kind ∷ [])) }
{
    match kind {
        OpKind::Query => out.push_str("query ")?,
        OpKind::Mutation => out.push_str("mutation ")?,
        OpKind::Subscription => out.push_str("subscription ")?,
    }
    Ok(())
}

fn put_operation_name(out: &mut String, name: &Option<Text>) -> Result<(), Memory>
    ensures { OnOk result (string_bytes out.new
        ≡ string_bytes out.old ++ spaced (name_words name.now)) }
{
    if let Some(name) = name {
        put_name(out, name)?;
    }
    Ok(())
}

fn put_fragments(out: &mut String, fragments: &[Fragment]) -> Result<(), Memory>
    ensures { OnOk result (string_bytes out.new
        ≡ string_bytes out.old ++ spaced (joined (map fragment_words fragments.now))) }
{
    for i in 0..fragments.len() {
        put_fragment(out, &fragments[i])?;
    }
    Ok(())
}

fn put_fragment(out: &mut String, fragment: &Fragment) -> Result<(), Memory>
    ensures { OnOk result (string_bytes out.new
        ≡ string_bytes out.old ++ spaced (fragment_words fragment.now)) }
{
    out.push_str("fragment ")?;
    put_name(out, &fragment.name)?;
    out.push_str("on ")?;
    put_name(out, &fragment.on)?;
    put_directives(out, fragment.directives.as_slice())?;
    put_set(out, fragment.selections.as_slice())?;
    Ok(())
}
