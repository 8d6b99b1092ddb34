ghost use Rattle.std.specs.Prelude.{◌≡◌, ◌+◌, ◌<◌, [], ◌∷◌, ◌++◌, length, Some, None, Ok, IfOk, OnOk, OnErr, OnSome, IfSome, IsErrOf, MatchOption};
ghost use Rattle.std.specs.Option.{option_map};
ghost use Rattle.cx_base.specs.declared.stop.Stop.TheVariants.{NoMemory};
ghost use Rattle.cx_engine.specs.Names.{declaration_of, number_of};

use cx_base::{Place, Stop};
use indexmap::IndexMap;
use std::alloc::Global;
use std::marker::Model;

/// The names that are declared so far, in order, each with its place.
#[derive(Drop)]
pub struct Names<'s> {
    places: IndexMap<&'s str, Place>,
}

impl<'s> Model for Names<'s> {
    ghost use Rattle.std.specs.Prelude.{List, map};
    ghost use Rattle.cx_engine.specs.Names.{Declared};

    ghost Value = { List Declared };

    ghost view = { λ n. map (λ e. record { name = e.0.now; at = e.1 }) n.places.entries };
}

impl<'s> Names<'s> {
    /// No names.
    pub fn new(alloc: Global) -> Names<'s>
        ensures { result ≡ [] }
    {
        Names {
            places: IndexMap::new(alloc),
        }
    }

    /// The place of a name's declaration.
    pub fn place_of(&self, name: &'s str) -> Option<Place>
        ensures { result ≡ option_map (λ d. d.at) (declaration_of name.now self.now) }
    {
        self.places.get(&name).copied()
    }

    /// The number of a name.
    pub fn number_of(&self, name: &'s str) -> Option<usize>
        ensures number { result ≡ number_of name.now self.now }
        ensures within { IfSome result (λ k. k < length self.now) }
    {
        self.places.get_index_of(&name)
    }

    /// Adds a name that is new. Refuses for want of memory alone.
    pub fn add(&mut self, name: &'s str, at: Place) -> Result<(), Stop>
        requires new { declaration_of name.now self.old ≡ None }
        ensures ok { OnOk result (self.new ≡ self.old ++ record { name = name.now; at = at } ∷ []) }
        ensures only_memory { OnErr result (IsErrOf result NoMemory) }
    {
        self.places.insert(name, at)?;
        Ok(())
    }
}
