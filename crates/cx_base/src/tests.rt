use super::*;
use std::alloc::AllocError;
use std::test::Fail;

fn place(line: u32, col: u32) -> Place {
    Place { line, col }
}

#[test]
fn places_keep_their_order(rt: HostRuntime) -> Result<(), Fail> {
    let mut places = Places::new(rt.alloc());
    assert!(rt; places.is_empty());
    for line in 1..10u32 {
        places.push(place(line, 7))?;
    }
    assert_eq!(rt; places.len(), 9);
    assert_eq!(rt; places.get(0), place(1, 7));
    assert_eq!(rt; places.get(8), place(9, 7));
    Ok(())
}

#[test]
fn lists_and_texts_keep_what_they_are_made_of(rt: HostRuntime) -> Result<(), Fail> {
    let mut list = List::new(rt.alloc());
    assert!(rt; list.is_empty());
    list.push(4u32)?;
    list.push(5u32)?;
    assert_eq!(rt; list.len(), 2);
    let list = List::from_vec(list.into_vec());
    assert_eq!(rt; list.as_slice(), [4, 5].as_slice());
    let text = Text::from_str(rt.alloc(), "name")?;
    assert_eq!(rt; text.as_str(), "name");
    Ok(())
}

#[test]
fn want_of_memory_is_no_fault(rt: HostRuntime) {
    assert!(rt; matches!(Stop::from(AllocError), Stop::NoMemory));
}

#[test]
fn names_are_the_variants(rt: HostRuntime) {
    assert_eq!(rt; Kind::NotMoreSpecialised.name(), "NotMoreSpecialised");
    assert_eq!(rt; Limit::TermSize.name(), "TermSize");
}
