//! Initialisers ([dcl.init]).

ghost use Rattle.std.specs.Prelude.{◌≡◌, ◌<◌, ◌≤◌, ◌+◌, ◌^◌, codes, map, IfOk};
ghost use Rattle.cx_statements.specs.StatementViews.{init_tree};
ghost use Rattle.cx_grammar.specs.Statements as statements;
ghost use Rattle.cx_spots.specs.Spots.{ReadsNode, Lightens, weight, context_of, below};

use cx_parse_expr::{read_expr, read_exprs_until};
use cx_spots::{Class, Context, Read, Spot};
use cx_statements::Init;

/// A value behind `=`.
#[tactic(auto, unfolding(cx_grammar::specs::Statements::value_init))]
pub(crate) fn value_init<'t, 's>(
    context: Context<'_, 's>,
    spot: Spot<'t, 's>,
) -> Read<'t, 's, Init<'s>>
    requires load { context.load ≤ 257 }
    requires room { weight spot < 2 ^ 32 }
    ensures exact { ReadsNode init_tree (statements.value_init (below (context_of context.entry)) (context_of context.entry)) spot.entry result }
    ensures lightens { Lightens 4 spot.entry result }
{
    let (_, spot) = spot.take(context, context.load, Class::Punct("="))?;
    let (value, spot) = read_expr(context, spot)?;
    Ok((Init::Value(value), spot))
}

/// A list in braces ([dcl.init.list]).
#[tactic(auto, unfolding(cx_grammar::specs::Statements::list_init))]
fn list_init<'t, 's>(context: Context<'_, 's>, spot: Spot<'t, 's>) -> Read<'t, 's, Init<'s>>
    requires load { context.load ≤ 257 }
    requires room { weight spot < 2 ^ 32 }
    ensures exact { ReadsNode init_tree (statements.list_init (below (context_of context.entry)) (context_of context.entry)) spot.entry result }
    ensures lightens { Lightens 4 spot.entry result }
{
    let (open, spot) = spot.take(context, context.load + 1, Class::Punct("{"))?;
    let (items, spot) = read_exprs_until(context.inside(), "}", spot)?;
    let (_, spot) = spot.take(context, context.load + 1, Class::Punct("}"))?;
    let (node, spot) = spot.number();
    Ok((
        Init::List {
            node,
            at: open.token.at,
            items,
        },
        spot,
    ))
}

/// Reads an initialiser.
#[tactic(auto, unfolding(cx_grammar::specs::Statements::init))]
pub fn read_init<'t, 's>(context: Context<'_, 's>, spot: Spot<'t, 's>) -> Read<'t, 's, Init<'s>>
    requires load { context.load ≤ 257 }
    requires room { weight spot < 2 ^ 32 }
    ensures exact { ReadsNode init_tree (statements.init (below (context_of context.entry)) (context_of context.entry)) spot.entry result }
    ensures lightens { Lightens 4 spot.entry result }
{
    if spot.begins(context, Class::Punct("{")) {
        list_init(context, spot)
    } else {
        value_init(context, spot)
    }
}
