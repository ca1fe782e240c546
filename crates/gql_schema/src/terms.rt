//! What a schema text says, definition by definition (section 3).

use flow_base::Text;
use gql_terms::TypeRef;
use gql_types::InputField;
use tree_items::Items;

/// A field of an object type or an interface, with its arguments (sections 3.6 and 3.7).
#[derive(Debug, Drop)]
pub struct Field {
    pub name: Text,
    pub arguments: Items<InputField>,
    pub of: TypeRef,
}

/// What a type is defined to be. The lists keep the order of the text.
#[derive(Debug, Drop)]
pub enum Body {
    Scalar,
    Object {
        interfaces: Items<Text>,
        fields: Items<Field>,
    },
    Interface {
        interfaces: Items<Text>,
        fields: Items<Field>,
    },
    /// The names of its members.
    Union(Items<Text>),
    /// Its values.
    Enum(Items<Text>),
    Input(Items<InputField>),
}

/// The definition of a type (section 3.4).
#[derive(Debug, Drop)]
pub struct Definition {
    pub name: Text,
    pub body: Body,
}

/// A definition: of the roots or of a directive, of which nothing is kept, or of a type.
#[derive(Debug, Drop)]
pub enum Part {
    Root,
    Directive,
    Type(Definition),
}
