use flow_base::Text;
use gql_terms::{TypeRef, Value};
use tree_items::Items;

#[derive(Clone, Copy, Debug, PartialEq, Eq)]
pub enum Kind {
    Scalar,
    Object,
    Interface,
    Union,
    Enum,
    Input,
}

/// A field of an object type or an interface (section 3.6).
#[derive(Debug, Drop)]
pub struct FieldDef {
    pub name: Text,
    pub of: TypeRef,
}

/// A field of an input type (section 3.10).
#[derive(Debug, Drop)]
pub struct InputField {
    pub name: Text,
    pub of: TypeRef,
    pub default: Option<Value>,
}

/// What a type consists of, by its kind. The lists keep the schema's order.
#[derive(Debug, Drop)]
pub enum TypeBody {
    Scalar,
    Object {
        interfaces: Items<Text>,
        fields: Items<FieldDef>,
    },
    Interface {
        interfaces: Items<Text>,
        fields: Items<FieldDef>,
    },
    /// The names of its members.
    Union(Items<Text>),
    /// Its values.
    Enum(Items<Text>),
    Input(Items<InputField>),
}

/// A type and its name (section 3.4).
#[derive(Debug, Drop)]
pub struct TypeDef {
    pub name: Text,
    pub body: TypeBody,
}
