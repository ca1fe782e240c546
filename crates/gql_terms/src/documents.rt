//! The types of a document.

use flow_base::Text;
use tree_items::{Boxed, Items};

/// A value as it is written (section 2.9). Numbers and strings are kept as they stand in the source, strings without
/// their quotes.
#[derive(Debug, Drop)]
pub enum Value {
    Variable(Text),
    Number(Text),
    Str(Text),
    Block(Text),
    Bool(bool),
    Null,
    EnumName(Text),
    List(Items<Value>),
    Object(Items<(Text, Value)>),
}

/// A type (section 2.11).
#[derive(Debug, Drop)]
pub enum TypeRef {
    Named(Text),
    ListOf(Boxed<TypeRef>),
    NonNull(Boxed<TypeRef>),
}

/// `@name(arguments)` (section 2.12).
#[derive(Debug, Drop)]
pub struct Directive {
    pub name: Text,
    pub arguments: Items<(Text, Value)>,
}

/// A field, a fragment spread or an inline fragment (sections 2.5 to 2.8). A field without a
/// selection set has no selections.
#[derive(Debug, Drop)]
pub enum Selection {
    Field {
        alias: Option<Text>,
        name: Text,
        arguments: Items<(Text, Value)>,
        directives: Items<Directive>,
        selections: Items<Selection>,
    },
    Spread {
        name: Text,
        directives: Items<Directive>,
    },
    Inline {
        on: Option<Text>,
        directives: Items<Directive>,
        selections: Items<Selection>,
    },
}

/// `$name: type = default`, with directives (section 2.10).
#[derive(Debug, Drop)]
pub struct VarDef {
    pub name: Text,
    pub of: TypeRef,
    pub default: Option<Value>,
    pub directives: Items<Directive>,
}

/// The type of an operation (section 2.3).
#[derive(Clone, Copy, Debug, PartialEq, Eq)]
pub enum OpKind {
    Query,
    Mutation,
    Subscription,
}

/// An operation (section 2.3). One without a keyword is a query with no name, variables or
/// directives.
#[derive(Debug, Drop)]
pub struct Operation {
    pub kind: OpKind,
    pub name: Option<Text>,
    pub variables: Items<VarDef>,
    pub directives: Items<Directive>,
    pub selections: Items<Selection>,
}

/// A fragment definition (section 2.8).
#[derive(Debug, Drop)]
pub struct Fragment {
    pub name: Text,
    pub on: Text,
    pub directives: Items<Directive>,
    pub selections: Items<Selection>,
}

/// A document: its operations and its fragments, each in their order.
#[derive(Debug, Drop)]
pub struct Document {
    pub operations: Items<Operation>,
    pub fragments: Items<Fragment>,
}
