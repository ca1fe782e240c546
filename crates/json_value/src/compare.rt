ghost use Rattle.std.specs.Prelude.{◌≡◌, ◌↔◌, IsTrue};

use crate::tree::Json;
use flow_base::Text;

#[cycle(equal)]
fn equal_items(a: &[Json], b: &[Json]) -> bool
    ensures { IsTrue result ↔ (a.now ≡ b.now) }
{
    if a.len() != b.len() {
        return false;
    }
    for i in 0..a.len() {
        if !equal(&a[i], &b[i]) {
            return false;
        }
    }
    true
}

#[cycle(equal)]
fn equal_members(a: &[(Text, Json)], b: &[(Text, Json)]) -> bool
    ensures { IsTrue result ↔ (a.now ≡ b.now) }
{
    if a.len() != b.len() {
        return false;
    }
    for i in 0..a.len() {
        if a[i].0 != b[i].0 || !equal(&a[i].1, &b[i].1) {
            return false;
        }
    }
    true
}

/// Whether the two are the same value: numbers by their text, members in order. Takes no memory. Recurses once for
/// each level of lists and objects.
#[cycle(equal)]
pub fn equal(a: &Json, b: &Json) -> bool
    ensures { IsTrue result ↔ (a.now ≡ b.now) }
{
    match (a, b) {
        (Json::Null, Json::Null) => true,
        (Json::Bool(x), Json::Bool(y)) => x == y,
        (Json::Number(x), Json::Number(y)) => x == y,
        (Json::Str(x), Json::Str(y)) => x == y,
        (Json::List(x), Json::List(y)) => equal_items(x.as_slice(), y.as_slice()),
        (Json::Object(x), Json::Object(y)) => equal_members(x.as_slice(), y.as_slice()),
        _ => false,
    }
}
