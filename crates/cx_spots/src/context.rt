ghost use Rattle.std.specs.Prelude.{◌≡◌, ◌<◌, ◌≤◌, ◌+◌};

use cx_scope::Scope;
use std::alloc::Global;

/// Where a production stands: the names that are declared before, how many lists of template arguments are open with no
/// other bracket within, and how many constructs are open.
#[derive(Clone, Copy)]
pub struct Context<'c, 's> {
    pub alloc: Global,
    pub scope: &'c Scope<'s>,
    pub angle: u32,
    pub load: u32,
    ghost within: { angle ≤ load },
    ghost bounded: { load < 264 },
}

impl<'c, 's> Context<'c, 's> {
    ghost use Rattle.cx_grammar.specs.Names as names;
    ghost use Rattle.cx_spots.specs.Spots.{context_of};

    /// Where no construct is open.
    pub fn outermost(alloc: Global, scope: &'c Scope<'s>) -> Context<'c, 's>
        ensures scope { result.scope.now ≡ scope.now }
        ensures angle { result.angle ≡ 0 }
        ensures load { result.load ≡ 0 }
    {
        Context {
            alloc,
            scope,
            angle: 0,
            load: 0,
        }
    }

    /// Within one more construct.
    pub fn deeper(self) -> Context<'c, 's>
        requires { self.load < 263 }
        ensures same { context_of result ≡ names.deeper (context_of self.entry) }
        ensures load { result.load ≡ self.entry.load + 1 }
    {
        Context {
            alloc: self.alloc,
            scope: self.scope,
            angle: self.angle,
            load: self.load + 1,
        }
    }

    /// Within one more pair of brackets.
    pub fn inside(self) -> Context<'c, 's>
        requires { self.load < 263 }
        ensures same { context_of result ≡ names.inside (context_of self.entry) }
        ensures load { result.load ≡ self.entry.load + 1 }
    {
        Context {
            alloc: self.alloc,
            scope: self.scope,
            angle: 0,
            load: self.load + 1,
        }
    }

    /// Within one more list of template arguments.
    pub fn listed(self) -> Context<'c, 's>
        requires { self.load < 263 }
        ensures same { context_of result ≡ names.listed (context_of self.entry) }
        ensures load { result.load ≡ self.entry.load + 1 }
    {
        Context {
            alloc: self.alloc,
            scope: self.scope,
            angle: self.angle + 1,
            load: self.load + 1,
        }
    }
}
