ghost use Rattle.std.specs.Prelude.{◌≡◌, ◌↔◌, IsSome, Contains};
ghost use Rattle.std.specs.Option.{option_copied};
ghost use Rattle.json_value.specs.Members as spec;

use crate::tree::Json;
use flow_base::Text;

fn named<'a>(members: &'a [(Text, Json)], name: &str) -> Option<&'a Json>
    ensures { option_copied result ≡ spec.named name.now members.now }
{
    for i in 0..members.len() {
        if members[i].0.as_str() == name {
            return Some(&members[i].1);
        }
    }
    None
}

/// The value of the first member with this name, and None of an object that has none and of what is no object.
/// Takes time in the number of members.
pub fn member<'a>(value: &'a Json, name: &str) -> Option<&'a Json>
    ensures value { option_copied result ≡ spec.member value.now name.now }
    ensures found { IsSome result ↔ Contains (spec.names value.now) name.now }
{
    match value {
        Json::Object(members) => named(members.as_slice(), name),
        _ => None,
    }
}
