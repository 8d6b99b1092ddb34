ghost use Rattle.std.specs.Prelude.{◌≡◌, ◌==◌, ◌+◌, ◌<◌, [], ◌∷◌, ◌++◌, length, slice_get, Some, IsOk, OnOk, OnErr, IsErrOf};

use crate::place::Place;
use crate::stop::Stop;
use smallvec::SmallVec;
use std::alloc::Global;
use std::marker::Model;

/// A list of places, the first four of which take no memory.
#[derive(Debug, Drop)]
pub struct Places {
    items: SmallVec<Place, 4>,
}

impl Model for Places {
    ghost use Rattle.std.specs.Prelude.{List, ◌≤◌};
    ghost use Rattle.cx_base.specs.declared.place.Place.{Place};

    ghost Value = { List Place };

    ghost view = { λ p. p.items.items };

    ghost invariant = { λ p. 4 ≤ p.items.capacity };
}

impl Places {
    ghost use Rattle.cx_base.specs.declared.stop.Stop.TheVariants.{NoMemory};

    /// No places. Takes no memory.
    pub fn new(alloc: Global) -> Places
        ensures { result ≡ [] }
    {
        Places {
            items: SmallVec::new(alloc),
        }
    }

    /// Adds a place at the end. It takes no memory where fewer than four places are held, and refuses for
    /// want of memory alone; the list is then as before.
    pub fn push(&mut self, place: Place) -> Result<(), Stop>
        ensures ok { OnOk result (self.new ≡ self.old ++ place ∷ []) }
        ensures succeeds { length self.old < 4 → IsOk result }
        ensures only_memory { OnErr result (IsErrOf result NoMemory) }
        ensures err { OnErr result (self.new ≡ self.old) }
    {
        self.items.push(place)?;
        Ok(())
    }

    /// How many places there are. Takes no memory.
    pub fn len(&self) -> usize
        ensures { result ≡ length self.now }
    {
        self.items.len()
    }

    /// Whether there is none.
    pub fn is_empty(&self) -> bool
        ensures { result ≡ (length self.now == 0) }
    {
        self.items.is_empty()
    }

    /// The place at `i`, counted from 0. Takes no memory.
    pub fn get(&self, i: usize) -> Place
        requires { i < length self.now }
        ensures { slice_get self.now i ≡ Some result }
    {
        self.items[i]
    }
}
