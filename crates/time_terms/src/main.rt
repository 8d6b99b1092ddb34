//! Makes a table of so many terms, then numbers each of them again: the command line has how many. Says whether each
//! answer was the one to expect.
#![tactic(auto)]

use cx_base::{DeclId, Place, Scalar, Stop, TermId};
use cx_term::{Node, Terms};
use std::alloc::Global;
use std::env;

const AT: Place = Place { line: 1, col: 1 };

// A value for even numbers, and a reference to the value before for odd ones.
fn number(terms: &mut Terms<'_>, i: u32) -> Result<TermId, Stop> {
    let value = terms.intern(Node::Val(Scalar::Unsigned, (i / 2) as i128), AT)?;
    if i % 2 == 0 {
        return Ok(value);
    }
    terms.intern(Node::Ref(value), AT)
}

// Whether the terms are numbered in their order.
fn number_all(terms: &mut Terms<'_>, count: u32) -> Result<bool, Stop> {
    let mut all = true;
    for i in 0..count {
        let t = number(terms, i)?;
        all = all && t.0 == i as usize;
    }
    Ok(all)
}

fn make(alloc: Global, count: u32) -> Result<bool, Stop> {
    let mut terms = Terms::new(alloc)?;
    let first = number_all(&mut terms, count)?;
    let second = number_all(&mut terms, count)?;
    Ok(first && second)
}

// The template-id of two equal arguments, each part read again.
fn pair(alloc: Global) -> Result<bool, Stop> {
    let mut terms = Terms::new(alloc)?;
    let int = terms.intern(Node::Scalar(Scalar::Int), AT)?;
    let args = terms.intern_args(&[int, int])?;
    let again = terms.intern_args(&[int, int])?;
    let whole = terms.intern(Node::Inst(DeclId(1), args), AT)?;
    let numbers = args == again && int.0 == 0 && whole.0 == 1;
    let parts = terms.args(args).len() == 2 && terms.node(whole) == Node::Inst(DeclId(1), args);
    Ok(numbers && parts && !terms.same(int, whole))
}

fn answers(alloc: Global, count: u32) -> Result<bool, Stop> {
    Ok(pair(alloc)? && make(alloc, count)?)
}

fn main(rt: HostRuntime) -> anyhow::Result<()> {
    let mut count = 10;
    for word in env::args(&rt)? {
        count = word.as_str().parse::<u32>().unwrap_or(count);
    }
    match answers(rt.alloc(), count) {
        Ok(true) => println!(rt; "numbered {count} terms")?,
        Ok(false) => println!(rt; "numbered {count} terms otherwise")?,
        Err(_) => println!(rt; "no memory")?,
    }
    Ok(())
}
