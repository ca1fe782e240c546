use flow_base::{Bytes, Text};

/// A field of a message. Its name is in lower case where it was read; its value has no spaces and tabs at
/// its ends.
#[derive(Drop)]
pub struct Field {
    pub name: Text,
    pub value: Bytes,
}

/// A request as it came: its target and its fields as they are, and whether the connection ends after it.
#[derive(Drop)]
pub struct Message {
    pub method: Text,
    pub target: Text,
    pub fields: Vec<Field>,
    pub body: Bytes,
    pub close: bool,
}
