use crate::bad_spread;
use flow_base::{Memory, Text};
use gql_terms::{Document, Fragment, OpKind, Operation, Selection};
use std::alloc::Global;
use std::test::Fail;
use tree_items::Items;

fn name(alloc: Global, letter: u8) -> Result<Text, Memory> {
    let mut text = String::new(alloc);
    text.push(letter.to_ascii_uppercase() as char)?;
    Text::from_string(text)
}

/// A spread of the letter; of a small one inside an inline fragment.
fn selection(alloc: Global, letter: u8) -> Result<Selection, Memory> {
    let spread = Selection::Spread {
        name: name(alloc, letter)?,
        directives: Items::new(alloc),
    };
    if letter.is_ascii_uppercase() {
        return Ok(spread);
    }
    let mut selections = Items::new(alloc);
    selections.push(spread)?;
    Ok(Selection::Inline {
        on: None,
        directives: Items::new(alloc),
        selections,
    })
}

fn set(alloc: Global, letters: &[u8]) -> Result<Items<Selection>, Memory> {
    let mut selections = Items::new(alloc);
    for letter in letters {
        selections.push(selection(alloc, *letter)?)?;
    }
    Ok(selections)
}

fn operation(alloc: Global, letters: &[u8]) -> Result<Operation, Memory> {
    Ok(Operation {
        kind: OpKind::Query,
        name: None,
        variables: Items::new(alloc),
        directives: Items::new(alloc),
        selections: set(alloc, letters)?,
    })
}

fn fragment(alloc: Global, letter: u8, letters: &[u8]) -> Result<Fragment, Memory> {
    Ok(Fragment {
        name: name(alloc, letter)?,
        on: name(alloc, b'T')?,
        directives: Items::new(alloc),
        selections: set(alloc, letters)?,
    })
}

/// The first word has the spreads of an operation, each further word the name of a fragment and its spreads.
fn document(alloc: Global, text: &str) -> Result<Document, Memory> {
    let mut operations = Items::new(alloc);
    let mut fragments = Items::new(alloc);
    for word in text.split(' ') {
        let letters = word.as_bytes();
        if operations.is_empty() {
            operations.push(operation(alloc, letters)?)?;
        } else if !letters.is_empty() {
            fragments.push(fragment(alloc, letters[0], &letters[1..])?)?;
        }
    }
    Ok(Document {
        operations,
        fragments,
    })
}

// `A AA` stands for `{...A} fragment A on T {...A}`. Nothing stands for no bad spread.
#[test]
fn the_first_bad_spread(rt: HostRuntime) -> Result<(), Fail> {
    let alloc = rt.alloc();
    let cases = [
        ("", ""),
        ("A", "A"),
        ("A AA", "A"),
        ("A Ab B", ""),
        // A leads to a cycle and lies on none.
        ("A AB BC Cb", "B"),
        ("AxB AB BB", "X"),
        // The first A counts, and the spreads of the second are read as well.
        ("A A AA AY", "Y"),
        ("AB AC BC CD D", ""),
    ];
    for (text, want) in cases {
        let found = bad_spread(alloc, &document(alloc, text)?)?;
        let name = match &found {
            Some(name) => name.as_str(),
            None => "",
        };
        assert_eq!(rt; name, want);
    }
    Ok(())
}
