use crate::canonical;
use flow_base::{Memory, Text};
use gql_terms::{Document, Fragment, OpKind, Operation, Selection, TypeRef, Value, VarDef};
use std::alloc::Global;
use std::test::Fail;
use tree_items::{Boxed, Items};

fn field(alloc: Global, name: &str, arguments: Items<(Text, Value)>) -> Result<Selection, Memory> {
    Ok(Selection::Field {
        alias: None,
        name: Text::of(alloc, name)?,
        arguments,
        directives: Items::new(alloc),
        selections: Items::new(alloc),
    })
}

fn shorthand(alloc: Global, selections: Items<Selection>) -> Operation {
    Operation {
        kind: OpKind::Query,
        name: None,
        variables: Items::new(alloc),
        directives: Items::new(alloc),
        selections,
    }
}

fn document(alloc: Global, operation: Operation) -> Result<Document, Memory> {
    let mut operations = Items::new(alloc);
    operations.push(operation)?;
    Ok(Document {
        operations,
        fragments: Items::new(alloc),
    })
}

// `query($x:Int){a}`
#[test]
fn a_variable(rt: HostRuntime) -> Result<(), Fail> {
    let alloc = rt.alloc();
    let mut selections = Items::new(alloc);
    selections.push(field(alloc, "a", Items::new(alloc))?)?;
    let mut operation = shorthand(alloc, selections);
    operation.variables.push(VarDef {
        name: Text::of(alloc, "x")?,
        of: TypeRef::Named(Text::of(alloc, "Int")?),
        default: None,
        directives: Items::new(alloc),
    })?;
    let text = canonical(alloc, &document(alloc, operation)?)?;
    assert_eq!(rt; text.as_str(), "query ( $x : Int ) { a }");
    Ok(())
}

// `{a,b(x:$y)#c`, a line feed and `}`
#[test]
fn a_shorthand(rt: HostRuntime) -> Result<(), Fail> {
    let alloc = rt.alloc();
    let mut arguments = Items::new(alloc);
    arguments.push((
        Text::of(alloc, "x")?,
        Value::Variable(Text::of(alloc, "y")?),
    ))?;
    let mut selections = Items::new(alloc);
    selections.push(field(alloc, "a", Items::new(alloc))?)?;
    selections.push(field(alloc, "b", arguments)?)?;
    let text = canonical(alloc, &document(alloc, shorthand(alloc, selections))?)?;
    assert_eq!(rt; text.as_str(), "query { a b ( x : $y ) }");
    Ok(())
}
