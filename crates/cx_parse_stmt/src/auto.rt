//! `auto` with its `const`, its constraint and its `&` ([dcl.spec.auto]).

ghost use Rattle.std.specs.Prelude.{◌≡◌, ◌<◌, ◌≤◌, ◌+◌, ◌^◌, codes, map, IfOk};
ghost use Rattle.std.specs.Option.{option_map};
ghost use Rattle.cx_statements.specs.StatementViews.{constraint_tree, auto_tree};
ghost use Rattle.cx_grammar.specs.Requires as requirements;
ghost use Rattle.cx_grammar.specs.Statements as statements;
ghost use Rattle.cx_spots.specs.Spots.{Reads, ReadsNode, Lightens, weight, context_of, below};

use crate::place::place_or;
use cx_base::Place;
use cx_parse_expr::read_argument_list;
use cx_scope::NameKind;
use cx_spots::{Class, Context, Read, Spot};
use cx_statements::{Auto, Constraint};

/// Reads a concept with its template arguments, which constrains a type ([temp.param]).
#[tactic(auto, unfolding(cx_grammar::specs::Requires::constraint))]
pub fn read_constraint<'t, 's>(
    context: Context<'_, 's>,
    spot: Spot<'t, 's>,
) -> Read<'t, 's, Constraint<'s>>
    requires load { context.load ≤ 257 }
    requires room { weight spot < 2 ^ 32 }
    ensures exact { ReadsNode constraint_tree (requirements.constraint (below (context_of context.entry)) (context_of context.entry)) spot.entry result }
    ensures lightens { Lightens 4 spot.entry result }
{
    let (name, spot) = spot.take(context, context.load, Class::Named(NameKind::Concept))?;
    if !spot.begins(context, Class::Punct("<")) {
        let (node, spot) = spot.number();
        return Ok((
            Constraint {
                node,
                at: name.token.at,
                name: name.token.text,
                arguments: Vec::new(context.alloc),
            },
            spot,
        ));
    }
    let (arguments, spot) = read_argument_list(context, spot)?;
    let (node, spot) = spot.number();
    Ok((
        Constraint {
            node,
            at: name.token.at,
            name: name.token.text,
            arguments,
        },
        spot,
    ))
}

/// `const` behind `auto`, where it may stand before it too.
#[tactic(auto, unfolding(cx_grammar::specs::Statements::const_behind_auto))]
fn const_behind_auto<'t, 's>(
    context: Context<'_, 's>,
    before: bool,
    spot: Spot<'t, 's>,
) -> Read<'t, 's, bool>
    ensures exact { Reads (λ b. b) (statements.const_behind_auto (context_of context.entry) before) spot.entry result }
    ensures lightens { Lightens 0 spot.entry result }
    ensures next { IfOk result (λ x. x.1.next ≡ spot.entry.next) }
{
    if !spot.begins(context, Class::Word("const")) {
        return Ok((before, spot));
    }
    let (_, spot) = spot.take(context, context.load, Class::Word("const"))?;
    Ok((true, spot))
}

/// `&` behind `auto`.
#[tactic(auto, unfolding(cx_grammar::specs::Statements::reference_behind_auto))]
fn reference_behind_auto<'t, 's>(context: Context<'_, 's>, spot: Spot<'t, 's>) -> Read<'t, 's, bool>
    ensures exact { Reads (λ b. b) (statements.reference_behind_auto (context_of context.entry)) spot.entry result }
    ensures lightens { Lightens 0 spot.entry result }
    ensures next { IfOk result (λ x. x.1.next ≡ spot.entry.next) }
{
    if !spot.begins(context, Class::Punct("&")) {
        return Ok((false, spot));
    }
    let (_, spot) = spot.take(context, context.load, Class::Punct("&"))?;
    Ok((true, spot))
}

/// Reads `auto` and what stands behind it. The place of the whole is told where something stands before it.
#[tactic(auto, unfolding(cx_grammar::specs::Statements::auto_behind))]
pub fn read_auto_behind<'t, 's>(
    context: Context<'_, 's>,
    at: Option<Place>,
    before: bool,
    constraint: Option<Constraint<'s>>,
    spot: Spot<'t, 's>,
) -> Read<'t, 's, Auto<'s>>
    requires load { context.load ≤ 257 }
    requires room { weight spot < 2 ^ 32 }
    ensures exact { ReadsNode auto_tree (statements.auto_behind (context_of context.entry) at before (option_map constraint_tree constraint.entry)) spot.entry result }
    ensures lightens { Lightens 4 spot.entry result }
{
    let (word, spot) = spot.take(context, context.load, Class::Word("auto"))?;
    let (constant, spot) = const_behind_auto(context, before, spot)?;
    let (reference, spot) = reference_behind_auto(context, spot)?;
    let (node, spot) = spot.number();
    Ok((
        Auto {
            node,
            at: place_or(word.token.at, at),
            constant,
            constraint,
            reference,
        },
        spot,
    ))
}
