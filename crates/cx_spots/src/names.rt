//! Names behind `::` ([expr.prim.id.qual]).

ghost use Rattle.std.specs.Prelude.{◌≡◌, ◌<◌, ◌≤◌, ◌+◌, ◌^◌, codes, map, IfOk};
ghost use Rattle.cx_grammar.specs.Production.{repeat};
ghost use Rattle.cx_grammar.specs.Words.{punct};
ghost use Rattle.cx_grammar.specs.Types as types;
ghost use Rattle.cx_spots.specs.Spots.{Reads, Lightens, weight, context_of};
ghost use Rattle.cx_tree.specs.Trees.{argument_tree, texts};

use crate::class::Class;
use crate::context::Context;
use crate::spot::{Read, Spot};

/// One name more.
#[tactic(auto, unfolding(cx_grammar::specs::Types::more_name))]
fn more_name<'t, 's>(
    context: Context<'_, 's>,
    so_far: Vec<&'s str>,
    spot: Spot<'t, 's>,
) -> Read<'t, 's, Vec<&'s str>>
    requires load { context.load ≤ 258 }
    requires room { weight spot < 2 ^ 32 }
    ensures exact { Reads (λ v. texts v.items) (types.more_name (context_of context.entry) (texts so_far.entry.items)) spot.entry result }
    ensures lightens { Lightens 8 spot.entry result }
    ensures next { IfOk result (λ x. x.1.next ≡ spot.entry.next) }
{
    let (_, spot) = spot.take(context, context.load, Class::Punct("::"))?;
    let (name, spot) = spot.take(context, context.load, Class::AnyName)?;
    let mut names = so_far;
    names.push(name.token.text)?;
    Ok((names, spot))
}

/// Any number of names more.
fn more_names<'t, 's>(
    context: Context<'_, 's>,
    so_far: Vec<&'s str>,
    spot: Spot<'t, 's>,
) -> Read<'t, 's, Vec<&'s str>>
    requires load { context.load ≤ 258 }
    requires room { weight spot < 2 ^ 32 }
    ensures exact { Reads (λ v. texts v.items) (repeat (punct (codes "::")) (types.more_name (context_of context.entry)) (texts so_far.entry.items)) spot.entry result }
    ensures lightens { Lightens 0 spot.entry result }
    ensures next { IfOk result (λ x. x.1.next ≡ spot.entry.next) }
{
    let mut names = so_far;
    let mut spot = spot;
    'names: while spot.begins(context, Class::Punct("::")) {
        let (more, behind) = more_name(context, names, spot)?;
        names = more;
        spot = behind;
    }
    Ok((names, spot))
}

/// One or more names behind `::`.
#[tactic(auto, unfolding(cx_grammar::specs::Types::qualified_names))]
pub fn qualified_names<'t, 's>(
    context: Context<'_, 's>,
    spot: Spot<'t, 's>,
) -> Read<'t, 's, Vec<&'s str>>
    requires load { context.load ≤ 258 }
    requires room { weight spot < 2 ^ 32 }
    ensures exact { Reads (λ v. texts v.items) (types.qualified_names (context_of context.entry)) spot.entry result }
    ensures lightens { Lightens 8 spot.entry result }
    ensures next { IfOk result (λ x. x.1.next ≡ spot.entry.next) }
{
    let (_, spot) = spot.take(context, context.load, Class::Punct("::"))?;
    let (name, spot) = spot.take(context, context.load, Class::AnyName)?;
    let mut names = Vec::new(context.alloc);
    names.push(name.token.text)?;
    more_names(context, names, spot)
}
