use super::*;
use cx_base::{Kind, Place, Stop};
use std::test::Fail;

fn place(line: u32, col: u32) -> Place {
    Place { line, col }
}

/// Whether a call was refused as Redeclared at a place, with one earlier place and no uses.
fn is_redeclared(answer: Result<(), Stop>, at: Place, earlier: Place) -> bool {
    match answer {
        Err(Stop::Fault(fault)) => {
            fault.kind == Kind::Redeclared
                && fault.at == at
                && fault.also.len() == 1
                && fault.also.get(0) == earlier
                && fault.chain.is_empty()
        }
        _ => false,
    }
}

#[test]
fn the_innermost_scope_with_the_name_counts(rt: HostRuntime) -> Result<(), Fail> {
    let mut scope = Scope::new(rt.alloc());
    assert_eq!(rt; scope.kind_of("x"), None);
    scope.enter()?;
    scope.note("x", NameKind::Value)?;
    scope.note("T", NameKind::TypeName)?;
    scope.enter()?;
    assert_eq!(rt; scope.kind_of("x"), Some(NameKind::Value));
    scope.note("x", NameKind::ClassTemplate)?;
    assert_eq!(rt; scope.kind_of("x"), Some(NameKind::ClassTemplate));
    assert_eq!(rt; scope.kind_of("T"), Some(NameKind::TypeName));
    scope.note("x", NameKind::Concept)?;
    assert_eq!(rt; scope.kind_of("x"), Some(NameKind::Concept));
    scope.leave();
    assert_eq!(rt; scope.kind_of("x"), Some(NameKind::Value));
    scope.leave();
    assert_eq!(rt; scope.kind_of("x"), None);
    Ok(())
}

#[test]
fn a_function_template_stays_one(rt: HostRuntime) -> Result<(), Fail> {
    let mut scope = Scope::new(rt.alloc());
    scope.enter()?;
    scope.note("f", NameKind::Function)?;
    scope.note("f", NameKind::FunctionTemplate)?;
    scope.note("f", NameKind::Function)?;
    assert_eq!(rt; scope.kind_of("f"), Some(NameKind::FunctionTemplate));
    scope.note("f", NameKind::Value)?;
    assert_eq!(rt; scope.kind_of("f"), Some(NameKind::Value));
    scope.enter()?;
    scope.declare("f", NameKind::FunctionTemplate, place(1, 1))?;
    scope.declare("f", NameKind::Function, place(2, 1))?;
    assert_eq!(rt; scope.kind_of("f"), Some(NameKind::FunctionTemplate));
    scope.enter()?;
    scope.declare("f", NameKind::Function, place(3, 1))?;
    assert_eq!(rt; scope.kind_of("f"), Some(NameKind::Function));
    Ok(())
}

#[test]
fn a_name_is_declared_once(rt: HostRuntime) -> Result<(), Fail> {
    let mut scope = Scope::new(rt.alloc());
    scope.enter()?;
    scope.declare("x", NameKind::Value, place(1, 5))?;
    let again = scope.declare("x", NameKind::TypeName, place(2, 5));
    assert!(rt; is_redeclared(again, place(2, 5), place(1, 5)));
    assert_eq!(rt; scope.kind_of("x"), Some(NameKind::Value));
    let function = scope.declare("x", NameKind::Function, place(3, 5));
    assert!(rt; is_redeclared(function, place(3, 5), place(1, 5)));
    scope.enter()?;
    scope.declare("x", NameKind::TypeName, place(4, 5))?;
    assert_eq!(rt; scope.kind_of("x"), Some(NameKind::TypeName));
    Ok(())
}

#[test]
fn functions_share_a_name_at_the_first_place(rt: HostRuntime) -> Result<(), Fail> {
    let mut scope = Scope::new(rt.alloc());
    scope.enter()?;
    scope.declare("f", NameKind::Function, place(1, 5))?;
    scope.declare("f", NameKind::Function, place(2, 5))?;
    assert_eq!(rt; scope.kind_of("f"), Some(NameKind::Function));
    scope.declare("f", NameKind::FunctionTemplate, place(3, 5))?;
    assert_eq!(rt; scope.kind_of("f"), Some(NameKind::FunctionTemplate));
    let value = scope.declare("f", NameKind::Value, place(4, 5));
    assert!(rt; is_redeclared(value, place(4, 5), place(1, 5)));
    scope.note("g", NameKind::Function)?;
    scope.declare("g", NameKind::Function, place(5, 5))?;
    let concept = scope.declare("g", NameKind::Concept, place(6, 5));
    assert!(rt; is_redeclared(concept, place(6, 5), place(0, 0)));
    Ok(())
}
