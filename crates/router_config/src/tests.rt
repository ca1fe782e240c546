use crate::{Config, Site, SiteFault, SubRule};
use cache_terms::Limits;
use flow_base::{Memory, Text};
use gql_terms::{Document, OpKind, Operation, TypeRef, VarDef};
use gql_types::{Schema, TypeBody, TypeDef};
use plan_book::{Entry, PlanBook};
use plan_tree::{Fetch, Node, Plan};
use std::alloc::Global;
use std::test::Fail;
use tree_items::{Boxed, Items};

fn text(alloc: Global, s: &str) -> Result<Text, Memory> {
    Text::of(alloc, s)
}

fn define(types: &mut Items<TypeDef>, name: Text, body: TypeBody) -> Result<(), Memory> {
    Ok(types.push(TypeDef { name, body })?)
}

/// `scalar Int  enum Size  input Find  union Query`
fn schema(alloc: Global) -> Result<Schema, Memory> {
    let mut types = Items::new(alloc);
    define(&mut types, text(alloc, "Int")?, TypeBody::Scalar)?;
    let size = TypeBody::Enum(Items::new(alloc));
    define(&mut types, text(alloc, "Size")?, size)?;
    let find = TypeBody::Input(Items::new(alloc));
    define(&mut types, text(alloc, "Find")?, find)?;
    let query = TypeBody::Union(Items::new(alloc));
    define(&mut types, text(alloc, "Query")?, query)?;
    Schema::of(alloc, types)
}

fn rules(alloc: Global, names: &[&str]) -> Result<Items<SubRule>, Memory> {
    let mut made = Items::new(alloc);
    for name in names {
        made.push(SubRule {
            name: text(alloc, name)?,
            address: text(alloc, "localhost:80")?,
            path: text(alloc, "/graphql")?,
            cached: true,
        })?;
    }
    Ok(made)
}

/// A configuration with the subgraphs `a` and `b`.
fn config(alloc: Global) -> Result<Config, Memory> {
    Ok(Config {
        schema: text(alloc, "schema")?,
        plans: text(alloc, "plans")?,
        listen: text(alloc, "localhost:4000")?,
        workers: 1,
        lines: 4,
        connections: 0,
        key: text(alloc, "k")?,
        id_header: None,
        limits: Limits {
            events: 64,
            bytes: 4096,
        },
        subs: rules(alloc, &["a", "b"])?,
    })
}

fn fetches(alloc: Global, subs: &[&str]) -> Result<Items<Fetch>, Memory> {
    let mut made = Items::new(alloc);
    for sub in subs {
        made.push(Fetch {
            sub: text(alloc, sub)?,
            mutation: false,
            sel: text(alloc, "query { one }")?,
            needs: None,
            variables: Items::new(alloc),
        })?;
    }
    Ok(made)
}

/// Variables of lists of these types.
fn variables(alloc: Global, types: &[&str]) -> Result<Items<VarDef>, Memory> {
    let mut made = Items::new(alloc);
    for name in types {
        let inner = TypeRef::NonNull(Boxed::new(alloc, TypeRef::Named(text(alloc, name)?))?);
        made.push(VarDef {
            name: text(alloc, "v")?,
            of: TypeRef::ListOf(Boxed::new(alloc, inner)?),
            default: None,
            directives: Items::new(alloc),
        })?;
    }
    Ok(made)
}

fn document(alloc: Global, types: &[&str]) -> Result<Document, Memory> {
    let mut operations = Items::new(alloc);
    operations.push(Operation {
        kind: OpKind::Query,
        name: None,
        variables: variables(alloc, types)?,
        directives: Items::new(alloc),
        selections: Items::new(alloc),
    })?;
    Ok(Document {
        operations,
        fragments: Items::new(alloc),
    })
}

/// The entry with this text, whose fetches ask these subgraphs and whose variables are of these types.
fn entry(alloc: Global, name: &str, subs: &[&str], types: &[&str]) -> Result<Entry, Memory> {
    Ok(Entry {
        text: text(alloc, name)?,
        document: document(alloc, types)?,
        plan: Plan {
            root: Node::Fetch(0),
            fetches: fetches(alloc, subs)?,
        },
    })
}

/// The site of a good entry and these two. Else the entry at fault, the name in the fault, and whether it is a type's.
fn built(alloc: Global, first: Entry, second: Entry) -> Result<Site, (u64, Text, bool)> {
    let (Ok(config), Ok(schema)) = (config(alloc), schema(alloc)) else {
        return Err((9, Text::new(), false));
    };
    let mut plans = PlanBook::new(alloc);
    let added = plans.add(first);
    if added.is_ok() {
        let _ = plans.add(second);
    }
    match Site::build(config, schema, plans) {
        Ok(site) => Ok(site),
        Err(SiteFault::UnknownSubgraph(entry, name)) => Err((entry, name, false)),
        Err(SiteFault::UnknownType(entry, name)) => Err((entry, name, true)),
        Err(SiteFault::Memory) => Err((8, Text::new(), false)),
    }
}

fn is_fault(found: Result<Site, (u64, Text, bool)>, entry: u64, name: &str, of_type: bool) -> bool {
    match found {
        Ok(_) => false,
        Err((at, text, is_type)) => at == entry && text.as_str() == name && is_type == of_type,
    }
}

#[test]
fn the_first_fault_is_answered(rt: HostRuntime) -> Result<(), Fail> {
    let alloc = rt.alloc();
    let inputs = ["Int", "Size", "Find"].as_slice();
    for (subs, types, name, of_type) in [
        (["a", "c", "d"], ["Query", "Int"], "c", false),
        (["b", "a", "b"], ["Int", "Query"], "Query", true),
        (["b", "a", "a"], ["Nope", "Query"], "Nope", true),
    ] {
        let first = entry(alloc, "0", &["a"], inputs)?;
        let second = entry(alloc, "1", subs.as_slice(), types.as_slice())?;
        assert!(rt;
            is_fault(built(alloc, first, second), 1, name, of_type),
            "at {name}"
        );
    }
    let first = entry(alloc, "0", &["a"], &["Query"])?;
    let second = entry(alloc, "1", &["c"], inputs)?;
    assert!(rt; is_fault(built(alloc, first, second), 0, "Query", true));
    Ok(())
}

#[test]
fn subgraphs_have_numbers(rt: HostRuntime) -> Result<(), Fail> {
    let alloc = rt.alloc();
    let first = entry(alloc, "0", &["a"], &["Int", "Size", "Find"])?;
    let second = entry(alloc, "1", &["b", "a"], &[])?;
    let Ok(site) = built(alloc, first, second) else {
        panic!(rt; "refused");
    };
    for (name, number) in [("a", Some(0)), ("b", Some(1)), ("c", None)] {
        assert!(rt; site.number_of(&text(alloc, name)?) == number, "of {name}");
    }
    Ok(())
}
