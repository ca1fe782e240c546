ghost use Rattle.std.specs.Prelude.{◌≡◌};
ghost use Rattle.std.specs.Option.{option_copied};
ghost use Rattle.gql_terms.specs.declared.documents.Value.{out-Value};
ghost use Rattle.gql_shape.specs.Collecting as spec;

use crate::scope::Scope;
use flow_base::Text;
use gql_terms::{Directive, Fragment, Value};
use json_value::{Json, member};

/// Whether this is `true` or a variable whose value is `true`.
fn holds(variables: &Json, value: &Value) -> bool
    ensures { result ≡ spec.holds variables.now (out-Value value.now) }
{
    match value {
        Value::Bool(b) => *b,
        Value::Variable(name) => match member(variables, name.as_str()) {
            Some(Json::Bool(b)) => *b,
            _ => false,
        },
        _ => false,
    }
}

/// Whether the first argument `if` holds; where there is none it does not.
fn condition(variables: &Json, arguments: &[(Text, Value)]) -> bool
    ensures { result ≡ spec.condition variables.now arguments.now }
{
    for i in 0..arguments.len() {
        if arguments[i].0.as_str() == "if" {
            return holds(variables, &arguments[i].1);
        }
    }
    false
}

fn leaves_out(variables: &Json, directive: &Directive) -> bool
    ensures { result ≡ spec.leaves_out variables.now directive.now }
{
    if directive.name.as_str() == "skip" {
        return condition(variables, directive.arguments.as_slice());
    }
    if directive.name.as_str() == "include" {
        return !condition(variables, directive.arguments.as_slice());
    }
    false
}

/// Whether one of the directives is `@skip` with a condition that holds, or `@include` with one that does not.
fn is_left_out(variables: &Json, directives: &[Directive]) -> bool
    ensures { result ≡ spec.is_left_out variables.now directives.now }
{
    for i in 0..directives.len() {
        if leaves_out(variables, &directives[i]) {
            return true;
        }
    }
    false
}

/// The first fragment with this name. Takes time in the number of fragments.
fn fragment_named<'a>(fragments: &'a [Fragment], name: &Text) -> Option<&'a Fragment>
    ensures { option_copied result ≡ spec.fragment_named name.now fragments.now }
{
    for i in 0..fragments.len() {
        if fragments[i].name.as_str() == name.as_str() {
            return Some(&fragments[i]);
        }
    }
    None
}

impl<'a> Scope<'a> {
    /// Whether one of the directives is `@skip` with a condition that holds, or `@include` with one that does not.
    pub fn leaves_out(&self, directives: &[Directive]) -> bool
        ensures { result ≡ spec.is_left_out self.now.variables directives.now }
    {
        is_left_out(self.variables, directives)
    }

    /// The first fragment with this name. Takes time in the number of fragments.
    pub fn fragment(&self, name: &Text) -> Option<&'a Fragment>
        ensures { option_copied result ≡ spec.fragment_named name.now self.now.fragments }
    {
        fragment_named(self.fragments, name)
    }

    /// Whether the type is the condition, implements it or is its member.
    pub fn meets(&self, type_name: &Text, condition: &Text) -> bool
        ensures { result ≡ spec.applies self.now type_name.now (Some condition.now) }
    {
        self.schema.implements_or_is(type_name, condition)
    }

    /// Whether the type meets the condition, if there is one.
    pub fn applies(&self, type_name: &Text, condition: &Option<Text>) -> bool
        ensures { result ≡ spec.applies self.now type_name.now condition.now }
    {
        match condition {
            Some(condition) => self.meets(type_name, condition),
            None => true,
        }
    }
}
