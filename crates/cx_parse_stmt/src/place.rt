ghost use Rattle.std.specs.Prelude.{◌≡◌, ◌<◌, not};
ghost use Rattle.cx_grammar.specs.Production.{begins};
ghost use Rattle.cx_grammar.specs.Requires.{is_not_closing};
ghost use Rattle.cx_grammar.specs.Statements.{place_or};
ghost use Rattle.cx_spots.specs.Spots.{context_of, left_at};
ghost use Rattle.cx_parse_stmt.specs.Within.{standing};

use cx_base::Place;
use cx_scope::Scope;
use cx_spots::{Context, Spot};
use std::alloc::Global;

/// The place that is told, or another one.
pub(crate) fn place_or(other: Place, at: Option<Place>) -> Place
    ensures { result ≡ place_or other at }
{
    at.unwrap_or(other)
}

/// Where a statement stands.
pub(crate) fn standing<'c, 's>(alloc: Global, scope: &'c Scope<'s>, load: u32) -> Context<'c, 's>
    requires { load < 264 }
    ensures same { context_of result ≡ standing scope.now load }
    ensures scope { result.scope.now ≡ scope.now }
    ensures angle { result.angle ≡ 0 }
    ensures load { result.load ≡ load }
{
    Context {
        alloc,
        scope,
        angle: 0,
        load,
    }
}

/// Whether a block ends before the next piece.
pub(crate) fn closes_block(spot: Spot<'_, '_>) -> bool
    ensures { begins is_not_closing (left_at spot.entry) ≡ not result }
{
    spot.piece().is_punct("}")
}
