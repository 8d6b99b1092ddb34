//! Lists of template arguments ([temp.names]).

ghost use Rattle.std.specs.Prelude.{◌≡◌, ◌<◌, ◌≤◌, ◌+◌, ◌^◌, codes, map};
ghost use Rattle.cx_grammar.specs.Production.{repeat};
ghost use Rattle.cx_grammar.specs.Words.{punct};
ghost use Rattle.cx_grammar.specs.Types as types;
ghost use Rattle.cx_parse_expr.specs.Asks.{Asks};
ghost use Rattle.cx_spots.specs.Spots.{ReadsNode, Lightens, weight, context_of, at, below};
ghost use Rattle.cx_tree.specs.Trees.{argument_tree, texts};

use crate::ask::{Asked, Reply};
use crate::deeper::argument;
use cx_spots::{Class, Context, Read, Spot};
use cx_tree::TemplateArgument;

/// One argument more.
#[tactic(auto, unfolding(cx_grammar::specs::Types::more_argument))]
fn more_argument<'c, 't, 's, F: for<'a, 'b> Fn(Asked<'a, 'b, 's>) -> Read<'b, 's, Reply<'s>>>(
    ask: &F,
    context: Context<'c, 's>,
    so_far: Vec<TemplateArgument<'s>>,
    spot: Spot<'t, 's>,
) -> Read<'t, 's, Vec<TemplateArgument<'s>>>
    requires law { Asks (F.pre ask.now) (F.post ask.now) context.load }
    requires load { context.load ≤ 257 }
    requires room { weight spot < 2 ^ 32 }
    ensures exact { ReadsNode (λ v. map argument_tree v.items) (λ n. types.more_argument (at (context_of context.entry)) (context_of context.entry) (map argument_tree so_far.entry.items, n)) spot.entry result }
    ensures lightens { Lightens 4 spot.entry result }
{
    let (_, spot) = spot.take(context, context.load, Class::Punct(","))?;
    let (more, spot) = argument(ask, context, spot)?;
    let mut arguments = so_far;
    arguments.push(more)?;
    Ok((arguments, spot))
}

/// Any number of arguments more.
fn more_arguments<'c, 't, 's, F: for<'a, 'b> Fn(Asked<'a, 'b, 's>) -> Read<'b, 's, Reply<'s>>>(
    ask: &F,
    context: Context<'c, 's>,
    so_far: Vec<TemplateArgument<'s>>,
    spot: Spot<'t, 's>,
) -> Read<'t, 's, Vec<TemplateArgument<'s>>>
    requires law { Asks (F.pre ask.now) (F.post ask.now) context.load }
    requires load { context.load ≤ 257 }
    requires room { weight spot < 2 ^ 32 }
    ensures exact { ReadsNode (λ v. map argument_tree v.items) (λ n. repeat (punct (codes ",")) (types.more_argument (at (context_of context.entry)) (context_of context.entry)) (map argument_tree so_far.entry.items, n)) spot.entry result }
    ensures lightens { Lightens 0 spot.entry result }
{
    let mut arguments = so_far;
    let mut spot = spot;
    'arguments: while spot.begins(context, Class::Punct(",")) {
        let (more, behind) = more_argument(ask, context, arguments, spot)?;
        arguments = more;
        spot = behind;
    }
    Ok((arguments, spot))
}

/// One or more arguments.
#[tactic(auto, unfolding(cx_grammar::specs::Types::some_arguments))]
fn some_arguments<'c, 't, 's, F: for<'a, 'b> Fn(Asked<'a, 'b, 's>) -> Read<'b, 's, Reply<'s>>>(
    ask: &F,
    context: Context<'c, 's>,
    spot: Spot<'t, 's>,
) -> Read<'t, 's, Vec<TemplateArgument<'s>>>
    requires law { Asks (F.pre ask.now) (F.post ask.now) context.load }
    requires load { context.load ≤ 257 }
    requires room { weight spot < 2 ^ 32 }
    ensures exact { ReadsNode (λ v. map argument_tree v.items) (types.some_arguments (at (context_of context.entry)) (context_of context.entry)) spot.entry result }
    ensures lightens { Lightens 4 spot.entry result }
{
    let (first, spot) = argument(ask, context, spot)?;
    let mut arguments: Vec<TemplateArgument<'s>> = Vec::new(context.alloc);
    arguments.push(first)?;
    more_arguments(ask, context, arguments, spot)
}

/// One or more arguments between `<` and `>`.
#[tactic(auto, unfolding(cx_grammar::specs::Types::argument_list))]
pub(crate) fn argument_list<
    'c,
    't,
    's,
    F: for<'a, 'b> Fn(Asked<'a, 'b, 's>) -> Read<'b, 's, Reply<'s>>,
>(ask: &F, context: Context<'c, 's>, spot: Spot<'t, 's>) -> Read<'t, 's, Vec<TemplateArgument<'s>>>
    requires law { Asks (F.pre ask.now) (F.post ask.now) (context.load + 1) }
    requires load { context.load ≤ 258 }
    requires room { weight spot < 2 ^ 32 }
    ensures exact { ReadsNode (λ v. map argument_tree v.items) (types.argument_list (below (context_of context.entry)) (context_of context.entry)) spot.entry result }
    ensures lightens { Lightens 4 spot.entry result }
{
    let (_, spot) = spot.take(context, context.load + 1, Class::Punct("<"))?;
    let (arguments, spot) = some_arguments(ask, context.listed(), spot)?;
    let (_, spot) = spot.take(context, context.load + 1, Class::Closing)?;
    Ok((arguments, spot))
}
