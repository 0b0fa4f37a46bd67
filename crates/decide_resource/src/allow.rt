//! The methods of a resource.
ghost use Rattle.std.specs.Prelude.{◌≡◌, ◌∷◌, ◌++◌, [], IfOk, OnOk};
ghost use Rattle.headers.specs.LineMap.{field_of};
ghost use Rattle.decide_resource.specs.{Applies.{methods, methods_of}, Fields.allow_field};

use crate::resource::MethodRule;
use headers::{Allow, Encoded, encoding};
use http::Method;
use std::alloc::{AllocError, Global};

// Appends the methods that a rule adds.
fn push_methods(methods: &mut Vec<Method>, rule: &MethodRule) -> Result<(), AllocError>
    ensures { OnOk result (methods.new.items ≡ methods.old.items ++ methods_of rule.now) }
{
    let name = rule.method.as_str();
    if name == "GET" {
        methods.push(Method::GET)?;
        methods.push(Method::HEAD)?;
        return Ok(());
    }
    if name == "HEAD" || name == "OPTIONS" {
        return Ok(());
    }
    methods.push(rule.method.clone()?)?;
    Ok(())
}

fn methods_of(alloc: Global, rules: &[MethodRule]) -> Result<Vec<Method>, AllocError>
    ensures { IfOk result (λ found. found.items ≡ methods rules.now) }
{
    let mut methods = Vec::new(alloc);
    for rule in rules {
        push_methods(&mut methods, rule)?;
    }
    methods.push(Method::OPTIONS)?;
    Ok(methods)
}

/// The field Allow.
pub(crate) fn allow_field(alloc: Global, rules: &[MethodRule]) -> Result<Encoded, AllocError>
    ensures { IfOk result (λ field. field_of field ≡ allow_field rules.now) }
{
    let methods = methods_of(alloc, rules)?;
    let header = Allow::from_iter(alloc, methods.into_iter())?;
    encoding(alloc, &header)
}
