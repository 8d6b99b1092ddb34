//! Units of functions ([basic.link]).

ghost use Rattle.std.specs.Prelude.{◌≡◌, ◌+◌, ◌*◌, ◌<◌, ◌≤◌, ◌^◌, [], true, not, length, map, IfOk};
ghost use Rattle.cx_base.specs.Refusal as refusals;
ghost use Rattle.cx_lexer.specs.Division.{EndsOnce, AreSpelled};
ghost use Rattle.cx_lexer.specs.Tokens.{token_tree};
ghost use Rattle.cx_scope.specs.Frames.{entered};
ghost use Rattle.cx_statements.specs.DeclarationViews.{decl_tree, unit_tree};
ghost use Rattle.cx_grammar.specs.Expressions.{no_requires};
ghost use Rattle.cx_grammar.specs.Declarations.{unit_levels, is_end_kind, is_not_end};
ghost use Rattle.cx_grammar.specs.Production.{Gives, begins, repeat};
ghost use Rattle.cx_spots.specs.Spots.{Lightens, weight, left_at};
ghost use Rattle.cx_parse_decl.specs.Functions.{more_function, outermost};
ghost use Rattle.cx_parse_decl.specs.Units.{depth, IsUnit, unit_at};
ghost use Rattle.cx_parse_decl.specs.Views.{AtEnd};

use crate::functions::function;
use cx_base::Stop;
use cx_lexer::{Token, TokenKind};
use cx_scope::Scope;
use cx_spots::{Read, Spot};
use cx_statements::{Decl, Unit};
use std::alloc::Global;

/// Whether a kind is that of the end.
fn is_end_kind(kind: TokenKind) -> bool
    ensures { result ≡ is_end_kind kind }
{
    matches!(kind, TokenKind::End)
}

/// Whether the next piece is the end.
fn is_end(spot: Spot<'_, '_>) -> bool
    ensures same { result ≡ not (begins is_not_end (left_at spot.entry)) }
    ensures here { result ≡ true → AtEnd (left_at spot.entry) }
{
    is_end_kind(spot.piece().token.kind)
}

/// One function more.
#[tactic(auto, unfolding(crate::specs::Functions::more_function))]
fn one_more<'t, 's>(
    alloc: Global,
    scope: &mut Scope<'s>,
    so_far: Vec<Decl<'s>>,
    spot: Spot<'t, 's>,
) -> Read<'t, 's, Vec<Decl<'s>>>
    requires scope { 0 < length scope.old }
    requires room { weight spot < 2 ^ 32 }
    ensures exact { Gives (λ x. ((map decl_tree x.0.items, x.1.next, scope.new), left_at x.1)) result ((more_function (unit_levels no_requires depth) outermost (map decl_tree so_far.entry.items, spot.entry.next, scope.old)).read 256 (left_at spot.entry)) }
    ensures lightens { Lightens 16 spot.entry result }
    ensures counts { IfOk result (λ x. (spot.entry.next < x.1.next) × (length x.0.items ≡ length so_far.entry.items + 1)) }
    ensures scope { IfOk result (λ x. 0 < length scope.new) }
{
    let (function, spot) = function(alloc, scope, spot)?;
    let mut functions = so_far;
    functions.push(function)?;
    Ok((functions, spot))
}

/// The functions of a unit, up to its end.
fn functions<'t, 's>(
    alloc: Global,
    scope: &mut Scope<'s>,
    spot: Spot<'t, 's>,
) -> Read<'t, 's, Vec<Decl<'s>>>
    requires scope { 0 < length scope.old }
    requires room { weight spot < 2 ^ 32 }
    ensures exact { Gives (λ x. ((map decl_tree x.0.items, x.1.next, scope.new), left_at x.1)) result ((repeat is_not_end (more_function (unit_levels no_requires depth) outermost) ([], spot.entry.next, scope.old)).read 256 (left_at spot.entry)) }
    ensures counts { IfOk result (λ x. length x.0.items ≤ weight spot.entry) }
    ensures here { IfOk result (λ x. AtEnd (left_at x.1)) }
{
    let mut functions: Vec<Decl<'s>> = Vec::new(alloc);
    let mut spot = spot;
    'functions: while !is_end(spot) {
        let (more, behind) = one_more(alloc, scope, functions, spot)?;
        functions = more;
        spot = behind;
    }
    Ok((functions, spot))
}

/// The unit that the tokens are. Where they are none, the fault stands at the first token that does not fit:
/// Unsupported for a token that the language never has and for the word that begins a requires-expression, else Syntax.
/// Before it the limit on the depth is passed at the first token whose load is above it. Refuses otherwise for want of
/// memory alone.
pub fn parse_unit<'s>(alloc: Global, tokens: &[Token<'s>]) -> Result<Unit<'s>, Stop>
    requires ended { EndsOnce (map token_tree tokens.now) }
    requires spelled { AreSpelled (map token_tree tokens.now) }
    requires room { 16 * length tokens.now < 2 ^ 32 }
    ensures exact { refusals.Gives unit_tree result (unit_at (map token_tree tokens.now)) }
    ensures spelled { IfOk result (λ u. IsUnit (map token_tree tokens.now) (unit_tree u)) }
    ensures bounded { IfOk result (λ u. length (unit_tree u) < 2 ^ 32) }
{
    let mut scope = Scope::new(alloc);
    scope.enter()?;
    let (declarations, _) = functions(alloc, &mut scope, Spot::before(tokens, 0))?;
    Ok(Unit { declarations })
}
