ghost use Rattle.std.specs.Prelude.{◌≡◌};
ghost use Rattle.cx_syntax.specs.Contexts.{more_lists, deeper, inside, listed};

/// How many lists of template arguments are open with no other bracket within ([temp.names]).
#[derive(Clone, Copy, Debug, PartialEq, Eq)]
pub enum OpenLists {
    None,
    One,
    Several,
}

impl OpenLists {
    /// One list more. Takes no memory.
    pub fn more(self) -> OpenLists
        ensures { result ≡ more_lists self }
    {
        match self {
            OpenLists::None => OpenLists::One,
            OpenLists::One | OpenLists::Several => OpenLists::Several,
        }
    }
}

/// Where a production stands.
#[derive(Clone, Copy, Debug, PartialEq, Eq)]
pub struct Context {
    /// How many more constructs its tokens may be within, counted so that a token fits where there is room for one:
    /// 257 less the load of the tokens.
    pub room: u32,
    pub lists: OpenLists,
}

impl Context {
    /// Within one more construct. Takes no memory.
    #[tactic(auto, unfolding(crate::specs::Contexts::deeper))]
    pub fn deeper(self) -> Context
        ensures { result ≡ deeper self }
    {
        Context {
            room: self.room.saturating_sub(1),
            lists: self.lists,
        }
    }

    /// Within one more pair of brackets. Takes no memory.
    #[tactic(auto, unfolding(crate::specs::Contexts::inside))]
    pub fn inside(self) -> Context
        ensures { result ≡ inside self }
    {
        Context {
            room: self.room.saturating_sub(1),
            lists: OpenLists::None,
        }
    }

    /// Within one more list of template arguments. Takes no memory.
    #[tactic(auto, unfolding(crate::specs::Contexts::listed))]
    pub fn listed(self) -> Context
        ensures { result ≡ listed self }
    {
        Context {
            room: self.room.saturating_sub(1),
            lists: self.lists.more(),
        }
    }
}
