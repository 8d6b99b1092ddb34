//! How large trees are.

ghost use Rattle.std.specs.Prelude.{◌≡◌, ◌+◌, ◌<◌, ◌≤◌, ◌↔◌, ◌⊎◌, min, max, IsTrue};

/// How large a tree or a list of trees is.
#[derive(Clone, Copy)]
pub(crate) struct Count {
    // The nodes, counted as a tree up to one past the limit.
    pub nodes: u32,
    // The nodes on the longest path from the top.
    pub depth: u32,
}

// The most nodes of a tree, and the most on a path in it.
const MOST_NODES: u32 = 65_536;

const MOST_DEPTH: u32 = 512;

impl Count {
    // Of no tree.
    pub(crate) fn none() -> Count
        ensures nodes { result.nodes ≡ 0 }
        ensures depth { result.depth ≡ 0 }
    {
        Count { nodes: 0, depth: 0 }
    }

    // Of a tree whose parts are counted so.
    pub(crate) fn below_one(self) -> Count
        requires nodes_fit { self.nodes ≤ 65537 }
        requires depth_fits { self.depth ≤ 512 }
        ensures nodes { result.nodes ≡ min (self.nodes + 1) 65537 }
        ensures depth { result.depth ≡ self.depth + 1 }
    {
        Count {
            nodes: (self.nodes + 1).min(MOST_NODES + 1),
            depth: self.depth + 1,
        }
    }

    // Of trees and another one beside them.
    pub(crate) fn and(self, other: Count) -> Count
        requires self_fits { self.nodes ≤ 65537 }
        requires other_fits { other.nodes ≤ 65537 }
        ensures nodes { result.nodes ≡ min (self.nodes + other.nodes) 65537 }
        ensures depth { result.depth ≡ max self.depth other.depth }
    {
        Count {
            nodes: (self.nodes + other.nodes).min(MOST_NODES + 1),
            depth: self.depth.max(other.depth),
        }
    }

    // Whether it passes a limit.
    pub(crate) fn is_too_large(self) -> bool
        ensures { IsTrue result ↔ ((65536 < self.nodes) ⊎ (512 < self.depth)) }
    {
        self.nodes > MOST_NODES || self.depth > MOST_DEPTH
    }
}
