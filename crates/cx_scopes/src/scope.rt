ghost use Rattle.std.specs.Prelude.{◌≡◌, ◌+◌, ◌<◌, [], ◌∷◌, Err, length, vec_len, reverse, OnOk, OnErr, IsErrOf};
ghost use Rattle.std.specs.Option.{option_map};
ghost use Rattle.std.specs.Bool.{OnTrue, OnFalse};
ghost use Rattle.cx_base.specs.declared.stop.Stop.TheVariants.{Fault as Faulty, NoMemory};
ghost use Rattle.cx_base.specs.declared.kind.Kind.TheVariants as fault;
ghost use Rattle.cx_names.specs.Frames.{kind_in, noted, noted_around, declared, innermost_entry, is_redeclared, redeclaration, entered, left, HasEachOnce};

use crate::frame::{Frame, Noted};
use cx_base::{Fault, Kind, Place, Places, Stop};
use cx_names::NameKind;
use std::alloc::Global;
use std::marker::Model;
use std::mem::replace;

/// The scopes that are open at a place of a unit ([basic.scope]), each with its names.
#[derive(Drop)]
pub struct Scope<'s> {
    alloc: Global,
    /// The innermost stands last.
    frames: Vec<Frame<'s>>,
}

impl<'s> Model for Scope<'s> {
    ghost use Rattle.std.specs.Prelude.{reverse};
    ghost use Rattle.cx_names.specs.Frames.{Frames};

    ghost Value = { Frames };

    ghost use Rattle.cx_names.specs.Frames.{HasEachOnce};

    ghost view = { λ s. reverse s.frames.items };

    ghost invariant = { λ s. HasEachOnce (reverse s.frames.items) };
}

/// What the innermost of these scopes knows of a name.
fn innermost(frames: &[Frame<'_>], name: &str) -> Option<Noted>
    ensures { result ≡ option_map (λ e. record { kind = e.kind; at = e.at }) (innermost_entry (reverse frames.now) name.now) }
{
    let frame = frames.last()?;
    frame.get(name)
}

/// Sets a name's kind in the innermost of these scopes.
fn put<'s>(
    frames: &mut Vec<Frame<'s>>,
    name: &'s str,
    kind: NameKind,
    at: Place,
) -> Result<(), Stop>
    requires { 0 < vec_len frames.old }
    ensures ok { OnOk result (reverse frames.new.items ≡ declared (reverse frames.old.items) name.now kind at) }
    ensures once { HasEachOnce (reverse frames.old.items) → HasEachOnce (reverse frames.new.items) }
    ensures depth { vec_len frames.new ≡ vec_len frames.old }
    ensures err { OnErr result (frames.new.items ≡ frames.old.items) }
    ensures only_memory { OnErr result (IsErrOf result NoMemory) }
{
    let last = frames.len() - 1;
    let frame = &mut frames[last];
    frame.put(name, kind, at)
}

/// Notes what a name is in the scope that stands so many scopes around the innermost of these.
fn put_around<'s>(
    frames: &mut Vec<Frame<'s>>,
    depth: usize,
    name: &'s str,
    kind: NameKind,
) -> Result<(), Stop>
    requires { depth < vec_len frames.old }
    ensures ok { OnOk result (reverse frames.new.items ≡ noted_around depth (reverse frames.old.items) name.now kind) }
    ensures once { HasEachOnce (reverse frames.old.items) → HasEachOnce (reverse frames.new.items) }
    ensures err { OnErr result (frames.new.items ≡ frames.old.items) }
    ensures only_memory { OnErr result (IsErrOf result NoMemory) }
{
    let index = frames.len() - 1 - depth;
    let frame = &mut frames[index];
    frame.put(name, kind, Place { line: 0, col: 0 })
}

/// The fault of a declaration at a place, where an earlier one conflicts with it. It takes no memory.
fn redeclared(alloc: Global, at: Place, earlier: Place) -> Result<(), Stop>
    ensures { result ≡ Err (Faulty (record { kind = fault.Redeclared; at = at; also = earlier ∷ []; chain = [] })) }
{
    let mut also = Places::new(alloc);
    also.push(earlier)?;
    Err(Stop::Fault(Fault {
        kind: Kind::Redeclared,
        at,
        also,
        chain: Places::new(alloc),
    }))
}

impl<'s> Scope<'s> {
    /// No scope is open. Takes no memory.
    pub fn new(alloc: Global) -> Scope<'s>
        ensures { result ≡ [] }
    {
        Scope {
            alloc,
            frames: Vec::new(alloc),
        }
    }

    /// The scopes that are open; none is open afterwards. Takes no memory.
    pub fn take(&mut self) -> Scope<'s>
        ensures taken { result ≡ self.old }
        ensures left { self.new ≡ [] }
    {
        let alloc = self.alloc;
        let frames = replace(&mut self.frames, Vec::new(alloc));
        Scope { alloc, frames }
    }

    /// Opens a scope with no names inside the others. Refuses for want of memory alone; all is then as before.
    pub fn enter(&mut self) -> Result<(), Stop>
        ensures ok { OnOk result (self.new ≡ entered self.old) }
        ensures depth { OnOk result (length self.new ≡ length self.old + 1) }
        ensures err { OnErr result (self.new ≡ self.old) }
        ensures only_memory { OnErr result (IsErrOf result NoMemory) }
    {
        self.frames.push(Frame::new(self.alloc))?;
        Ok(())
    }

    /// Closes the innermost scope, if one is open. Takes no memory.
    pub fn leave(&mut self)
        ensures left { self.new ≡ left self.old }
    {
        self.frames.pop();
    }

    /// Notes what a name is in the innermost scope, if one is open, at no place; a name that is there keeps its
    /// place, and a function template stays one where a function follows. Refuses for want of memory alone; all is
    /// then as before.
    pub fn note(&mut self, name: &'s str, kind: NameKind) -> Result<(), Stop>
        ensures ok { OnOk result (self.new ≡ noted self.old name.now kind) }
        ensures err { OnErr result (self.new ≡ self.old) }
        ensures only_memory { OnErr result (IsErrOf result NoMemory) }
    {
        if self.frames.is_empty() {
            return Ok(());
        }
        put(&mut self.frames, name, kind, Place { line: 0, col: 0 })
    }

    /// Notes what a name is in the scope that stands so many scopes around the innermost one, if so many are open.
    /// Refuses for want of memory alone; all is then as before.
    #[tactic(auto, using(crate::proofs::Stack::reverse_none))]
    pub fn note_around(&mut self, depth: usize, name: &'s str, kind: NameKind) -> Result<(), Stop>
        ensures ok { OnOk result (self.new ≡ noted_around depth self.old name.now kind) }
        ensures err { OnErr result (self.new ≡ self.old) }
        ensures only_memory { OnErr result (IsErrOf result NoMemory) }
    {
        if self.frames.len() <= depth {
            return Ok(());
        }
        put_around(&mut self.frames, depth, name, kind)
    }

    /// Declares a name in the innermost scope ([basic.scope.declarative]). It refuses as Redeclared, at the place of
    /// this declaration with that of the earlier one, exactly where that scope has the name and not both are
    /// functions; a function that is there keeps its place, and stays a template where a function follows.
    /// It refuses for want of memory besides. All is as before where it refuses.
    pub fn declare(&mut self, name: &'s str, kind: NameKind, at: Place) -> Result<(), Stop>
        requires { 0 < length self.old }
        ensures ok { OnOk result (self.new ≡ declared self.old name.now kind at) }
        ensures depth { length self.new ≡ length self.old }
        ensures redeclared { OnTrue (is_redeclared self.old name.now kind) (result ≡ Err (Faulty (redeclaration self.old name.now at))) }
        ensures only_memory { OnFalse (is_redeclared self.old name.now kind) (OnErr result (IsErrOf result NoMemory)) }
        ensures err { OnErr result (self.new ≡ self.old) }
    {
        if let Some(earlier) = innermost(&self.frames, name)
            && !(earlier.kind.is_function() && kind.is_function())
        {
            return redeclared(self.alloc, at, earlier.at);
        }
        put(&mut self.frames, name, kind, at)
    }

    /// What a name is: its kind in the innermost scope that has it ([basic.lookup.unqual]), and None where none
    /// has it. Takes no memory.
    pub fn kind_of(&self, name: &str) -> Option<NameKind>
        ensures { result ≡ kind_in self.now name.now }
    {
        for frame in self.frames.iter().rev() {
            if let Some(kind) = frame.kind_of(name) {
                return Some(kind);
            }
        }
        None
    }

    /// No scope has a name twice. Does nothing, and takes no memory.
    pub fn names_are_unique(&self)
        ensures { HasEachOnce self.now }
    {
        let _ = &self.frames;
    }
}
