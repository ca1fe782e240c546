ghost use Rattle.std.specs.Prelude.{◌≡◌, List, IfOk};
ghost use Rattle.json_value.specs.declared.tree.Json.{out-Json};
ghost use Rattle.json_value.specs.declared.tree.Json.TheVariants as j;
ghost use Rattle.json_paths.specs.declared.path.Spot as path;
ghost use Rattle.gql_terms.specs.declared.documents.Selection.{Selection};
ghost use Rattle.gql_leaves.specs.Bares as bares;
ghost use Rattle.gql_shape.specs.Terms as terms;
ghost use Rattle.gql_shape.specs.Completing as spec;
ghost use Rattle.gql_shape.specs.Completing.{Completes, IsLeft};
ghost use Rattle.gql_shape.specs.Kept as rules;

use crate::base::Base;
use crate::rule::is_leaf;
use crate::scope::Scope;
use crate::shaped::{Completed, ShapeCode, one_error};
use flow_base::Memory;
use gql_leaves::{Bare, is_required, without_mark};
use gql_terms::TypeRef;
use json_paths::Spot;
use json_value::{Json, copy};
use std::alloc::Global;
use tree_items::Items;

fn is_null(value: &Json) -> bool
    ensures { result ≡ spec.is_null_at (out-Json value.now) }
{
    matches!(value, Json::Null)
}

/// The value, unless it is null in the place of a type with a non-null mark.
pub fn kept(of: &TypeRef, value: Json) -> Option<Json>
    ensures { result ≡ spec.kept (bares.is_required of.now) value }
{
    if is_required(of) && is_null(&value) {
        None
    } else {
        Some(value)
    }
}

/// What null is completed to.
pub fn complete_null(alloc: Global, of: &TypeRef, spots: &[Spot]) -> Result<Completed, Memory>
    ensures { IfOk result (λ c. (s : terms.Scope) → (xs : List Selection) → Completes s of.now xs
        j.Null spots.now c.value c.errors) }
{
    if is_required(of) {
        let errors = one_error(alloc, ShapeCode::NullInNonNull, spots)?;
        return Ok(Completed {
            value: None,
            errors,
        });
    }
    Ok(Completed {
        value: Some(Json::Null),
        errors: Items::new(alloc),
    })
}

pub fn wrong_kind(alloc: Global, of: &TypeRef, spots: &[Spot]) -> Result<Completed, Memory>
    ensures { IfOk result (λ c. (s : terms.Scope) → (xs : List Selection) → IsLeft s spec.wrong
        (bares.is_required of.now) xs spots.now c.value c.errors) }
{
    let errors = one_error(alloc, ShapeCode::WrongKind, spots)?;
    let value = kept(of, Json::Null);
    Ok(Completed { value, errors })
}

fn leaf_value(alloc: Global, of: &TypeRef, value: &Json) -> Result<Completed, Memory>
    ensures { IfOk result (λ c. (s : terms.Scope) → (xs : List Selection) → (p : List path.Spot) →
        IsLeft s (spec.leaf value.now) (bares.is_required of.now) xs p c.value c.errors) }
{
    let value = kept(of, copy(alloc, value)?);
    Ok(Completed {
        value,
        errors: Items::new(alloc),
    })
}

/// What a leaf is completed to, or a value of another kind, by what the name in the type stands for.
pub fn complete_plain<'a>(
    alloc: Global,
    scope: &Scope<'a>,
    of: &TypeRef,
    base: Base,
    value: &Json,
    spots: &[Spot],
) -> Result<Completed, Memory>
    requires { base ≡ rules.base_of scope.now.schema of.now }
    ensures { IfOk result (λ c. (xs : List Selection) → IsLeft scope.now
        (spec.plain_rule scope.now.schema (bares.bare of.now) value.now) (bares.is_required of.now)
        xs spots.now c.value c.errors) }
{
    match without_mark(of) {
        Bare::ListOf(_) => wrong_kind(alloc, of, spots),
        Bare::Named(name) => {
            if is_leaf(scope, name, base, value) {
                leaf_value(alloc, of, value)
            } else {
                wrong_kind(alloc, of, spots)
            }
        }
    }
}
