ghost use Rattle.std.specs.Prelude.{◌≡◌, [], OnOk, OnErr, IsErrOf};
ghost use Rattle.std.specs.Option.{option_map};
ghost use Rattle.cx_base.specs.declared.stop.Stop.TheVariants.{NoMemory};

use cx_base::{Place, Stop};
use cx_names::NameKind;
use indexmap::IndexMap;
use std::alloc::Global;
use std::marker::Model;

/// What a scope knows of a name.
#[derive(Clone, Copy, Debug, PartialEq, Eq)]
pub struct Noted {
    pub kind: NameKind,
    /// Where the name was first declared.
    pub at: Place,
}

/// One scope: its names, in the order in which they were first noted.
#[derive(Drop)]
pub struct Frame<'s> {
    names: IndexMap<&'s str, Noted>,
}

impl<'s> Model for Frame<'s> {
    ghost use Rattle.std.specs.Prelude.{List, map};
    ghost use Rattle.cx_names.specs.Frames.{Entry};

    ghost Value = { List Entry };

    ghost view = { λ f. map (λ e. record { name = e.0.now; kind = e.1.kind; at = e.1.at }) f.names.entries };
}

impl<'s> Frame<'s> {
    ghost use Rattle.cx_names.specs.Frames.{entry_in, with_name};

    /// No names. Takes no memory.
    pub fn new(alloc: Global) -> Frame<'s>
        ensures { result ≡ [] }
    {
        Frame {
            names: IndexMap::new(alloc),
        }
    }

    /// What is known of a name. Takes no memory.
    pub fn get(&self, name: &str) -> Option<Noted>
        ensures { result ≡ option_map (λ e. record { kind = e.kind; at = e.at }) (entry_in self.now name.now) }
    {
        self.names.get(name).copied()
    }

    /// What a name is. Takes no memory.
    pub fn kind_of(&self, name: &str) -> Option<NameKind>
        ensures { result ≡ option_map (λ e. e.kind) (entry_in self.now name.now) }
    {
        let noted = self.get(name)?;
        Some(noted.kind)
    }

    /// Sets a name's kind; a name that is there keeps its place. Refuses for want of memory alone; the scope is
    /// then as before.
    pub fn put(&mut self, name: &'s str, kind: NameKind, at: Place) -> Result<(), Stop>
        ensures ok { OnOk result (self.new ≡ with_name self.old name.now kind at) }
        ensures err { OnErr result (self.new ≡ self.old) }
        ensures only_memory { OnErr result (IsErrOf result NoMemory) }
    {
        let noted = match self.names.get(name) {
            Some(earlier) => Noted {
                kind: earlier.kind.followed_by(kind),
                at: earlier.at,
            },
            None => Noted { kind, at },
        };
        self.names.insert(name, noted)?;
        Ok(())
    }
}
