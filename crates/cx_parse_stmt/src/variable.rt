//! Declarations of variables ([stmt.dcl]).

ghost use Rattle.std.specs.Prelude.{◌≡◌, ◌<◌, ◌≤◌, ◌+◌, ◌^◌, codes, true, false, map, None, Some};
ghost use Rattle.std.specs.Option.{option_map};
ghost use Rattle.cx_scope.specs.Frames.{noted};
ghost use Rattle.cx_scope.specs.declared.name_kind.NameKind.TheVariants.{Value};
ghost use Rattle.cx_tree.specs.Trees.{type_tree};
ghost use Rattle.cx_statements.specs.StatementViews.{auto_tree, constraint_tree, variable_tree};
ghost use Rattle.cx_grammar.specs.Statements as statements;
ghost use Rattle.cx_spots.specs.Spots.{Lightens, weight, context_of, below};
ghost use Rattle.cx_parse_stmt.specs.Within.{ReadsNamed, LightensStmt};
ghost use Rattle.cx_parse_stmt.specs.Views.{names_behind, opened_tree};

use crate::auto::{read_auto_behind, read_constraint};
use crate::init::{read_init, value_init};
use crate::opened::Opened;
use crate::place::place_or;
use cx_base::Place;
use cx_parse_expr::{read_core, read_type, type_behind};
use cx_scope::NameKind;
use cx_spots::{Class, Context, Read, Spot};
use cx_statements::{Auto, Variable, WrittenType};
use cx_tree::TypeSyn;

/// A name, an initialiser and `;` behind a type.
#[tactic(auto, unfolding(cx_grammar::specs::Statements::variable_behind))]
fn variable_behind<'t, 's>(
    context: Context<'_, 's>,
    is_constexpr: bool,
    of: TypeSyn<'s>,
    spot: Spot<'t, 's>,
) -> Read<'t, 's, Variable<'s>>
    requires load { context.load ≤ 257 }
    requires room { weight spot < 2 ^ 32 }
    ensures exact { ReadsNamed variable_tree (λ v. noted context.entry.scope.now v.name.now Value) (λ n. statements.variable_behind (below (context_of context.entry)) (context_of context.entry) is_constexpr (type_tree of.entry, n)) spot.entry result }
    ensures lightens { Lightens 8 spot.entry result }
{
    let (name, spot) = spot.take(context, context.load, Class::AnyName)?;
    let (init, spot) = read_init(context, spot)?;
    let (_, spot) = spot.take(context, context.load, Class::Punct(";"))?;
    let (node, spot) = spot.number();
    Ok((
        Variable {
            node,
            at: name.token.at,
            is_constexpr,
            written: WrittenType::Type(of),
            name: name.token.text,
            init,
        },
        spot,
    ))
}

/// A name, a value and `;` behind `auto`.
#[tactic(auto, unfolding(cx_grammar::specs::Statements::auto_variable_behind))]
fn auto_variable_behind<'t, 's>(
    context: Context<'_, 's>,
    is_constexpr: bool,
    of: Auto<'s>,
    spot: Spot<'t, 's>,
) -> Read<'t, 's, Variable<'s>>
    requires load { context.load ≤ 257 }
    requires room { weight spot < 2 ^ 32 }
    ensures exact { ReadsNamed variable_tree (λ v. noted context.entry.scope.now v.name.now Value) (λ n. statements.auto_variable_behind (below (context_of context.entry)) (context_of context.entry) is_constexpr (auto_tree of.entry, n)) spot.entry result }
    ensures lightens { Lightens 8 spot.entry result }
{
    let (name, spot) = spot.take(context, context.load, Class::AnyName)?;
    let (init, spot) = value_init(context, spot)?;
    let (_, spot) = spot.take(context, context.load, Class::Punct(";"))?;
    let (node, spot) = spot.number();
    Ok((
        Variable {
            node,
            at: name.token.at,
            is_constexpr,
            written: WrittenType::Auto(of),
            name: name.token.text,
            init,
        },
        spot,
    ))
}

/// A variable of a type.
#[tactic(auto, unfolding(cx_grammar::specs::Statements::variable_of))]
pub(crate) fn variable_of<'t, 's>(
    context: Context<'_, 's>,
    is_constexpr: bool,
    of: TypeSyn<'s>,
    spot: Spot<'t, 's>,
) -> Read<'t, 's, Opened<'s>>
    requires load { context.load ≤ 257 }
    requires room { weight spot < 2 ^ 32 }
    ensures exact { ReadsNamed opened_tree (λ s. names_behind context.entry.scope.now (opened_tree s)) (λ n. statements.variable_of (below (context_of context.entry)) (context_of context.entry) is_constexpr (type_tree of.entry, n)) spot.entry result }
    ensures lightens { LightensStmt opened_tree 8 spot.entry result }
{
    let (variable, spot) = variable_behind(context, is_constexpr, of, spot)?;
    Ok((Opened::Variable(variable), spot))
}

/// A variable of `auto`.
#[tactic(auto, unfolding(cx_grammar::specs::Statements::variable_of_auto))]
pub(crate) fn variable_of_auto<'t, 's>(
    context: Context<'_, 's>,
    is_constexpr: bool,
    of: Auto<'s>,
    spot: Spot<'t, 's>,
) -> Read<'t, 's, Opened<'s>>
    requires load { context.load ≤ 257 }
    requires room { weight spot < 2 ^ 32 }
    ensures exact { ReadsNamed opened_tree (λ s. names_behind context.entry.scope.now (opened_tree s)) (λ n. statements.variable_of_auto (below (context_of context.entry)) (context_of context.entry) is_constexpr (auto_tree of.entry, n)) spot.entry result }
    ensures lightens { LightensStmt opened_tree 8 spot.entry result }
{
    let (variable, spot) = auto_variable_behind(context, is_constexpr, of, spot)?;
    Ok((Opened::Variable(variable), spot))
}

/// A variable whose type is read from its first token on.
#[tactic(auto, unfolding(cx_grammar::specs::Statements::typed_variable))]
pub(crate) fn typed_variable<'t, 's>(
    context: Context<'_, 's>,
    is_constexpr: bool,
    spot: Spot<'t, 's>,
) -> Read<'t, 's, Opened<'s>>
    requires load { context.load ≤ 257 }
    requires room { weight spot < 2 ^ 32 }
    ensures exact { ReadsNamed opened_tree (λ s. names_behind context.entry.scope.now (opened_tree s)) (statements.typed_variable (below (context_of context.entry)) (context_of context.entry) is_constexpr) spot.entry result }
    ensures lightens { LightensStmt opened_tree 4 spot.entry result }
{
    let (of, spot) = read_type(context, spot)?;
    variable_of(context, is_constexpr, of, spot)
}

/// A variable of `auto` that a concept constrains, perhaps behind `const`, whose place is then told.
#[tactic(auto, unfolding(cx_grammar::specs::Statements::constrained_auto))]
fn constrained_auto<'t, 's>(
    context: Context<'_, 's>,
    at: Option<Place>,
    is_constexpr: bool,
    before: bool,
    spot: Spot<'t, 's>,
) -> Read<'t, 's, Opened<'s>>
    requires load { context.load ≤ 257 }
    requires room { weight spot < 2 ^ 32 }
    ensures exact { ReadsNamed opened_tree (λ s. names_behind context.entry.scope.now (opened_tree s)) (statements.constrained_auto (below (context_of context.entry)) (context_of context.entry) at is_constexpr before) spot.entry result }
    ensures lightens { LightensStmt opened_tree 4 spot.entry result }
{
    let (constraint, spot) = read_constraint(context, spot)?;
    let at = place_or(constraint.at, at);
    let (of, spot) = read_auto_behind(context, Some(at), before, Some(constraint), spot)?;
    variable_of_auto(context, is_constexpr, of, spot)
}

/// A variable of `auto` that nothing constrains, perhaps behind `const`, whose place is then told.
#[tactic(auto, unfolding(cx_grammar::specs::Statements::plain_auto))]
pub(crate) fn plain_auto<'t, 's>(
    context: Context<'_, 's>,
    at: Option<Place>,
    is_constexpr: bool,
    before: bool,
    spot: Spot<'t, 's>,
) -> Read<'t, 's, Opened<'s>>
    requires load { context.load ≤ 257 }
    requires room { weight spot < 2 ^ 32 }
    ensures exact { ReadsNamed opened_tree (λ s. names_behind context.entry.scope.now (opened_tree s)) (statements.plain_auto (below (context_of context.entry)) (context_of context.entry) at is_constexpr before) spot.entry result }
    ensures lightens { LightensStmt opened_tree 4 spot.entry result }
{
    let (of, spot) = read_auto_behind(context, at, before, None, spot)?;
    variable_of_auto(context, is_constexpr, of, spot)
}

/// A variable whose declaration begins with `const`.
#[tactic(auto, unfolding(cx_grammar::specs::Statements::const_variable))]
pub(crate) fn const_variable<'t, 's>(
    context: Context<'_, 's>,
    is_constexpr: bool,
    spot: Spot<'t, 's>,
) -> Read<'t, 's, Opened<'s>>
    requires load { context.load ≤ 257 }
    requires room { weight spot < 2 ^ 32 }
    ensures exact { ReadsNamed opened_tree (λ s. names_behind context.entry.scope.now (opened_tree s)) (statements.const_variable (below (context_of context.entry)) (context_of context.entry) is_constexpr) spot.entry result }
    ensures lightens { LightensStmt opened_tree 4 spot.entry result }
{
    let (word, spot) = spot.take(context, context.load, Class::Word("const"))?;
    let at = word.token.at;
    if spot.begins(context, Class::Named(NameKind::Concept)) {
        return constrained_auto(context, Some(at), is_constexpr, true, spot);
    }
    if spot.begins(context, Class::Word("auto")) {
        return plain_auto(context, Some(at), is_constexpr, true, spot);
    }
    let (core, spot) = read_core(context.deeper(), spot)?;
    let (of, spot) = type_behind(context, at, true, core.core, spot)?;
    variable_of(context, is_constexpr, of, spot)
}

/// A declaration of a variable behind `constexpr`.
#[tactic(auto, unfolding(cx_grammar::specs::Statements::variable))]
pub(crate) fn variable<'t, 's>(
    context: Context<'_, 's>,
    is_constexpr: bool,
    spot: Spot<'t, 's>,
) -> Read<'t, 's, Opened<'s>>
    requires load { context.load ≤ 257 }
    requires room { weight spot < 2 ^ 32 }
    ensures exact { ReadsNamed opened_tree (λ s. names_behind context.entry.scope.now (opened_tree s)) (statements.variable (below (context_of context.entry)) (context_of context.entry) is_constexpr) spot.entry result }
    ensures lightens { LightensStmt opened_tree 4 spot.entry result }
{
    if spot.begins(context, Class::Word("const")) {
        const_variable(context, is_constexpr, spot)
    } else if spot.begins(context, Class::Named(NameKind::Concept)) {
        constrained_auto(context, None, is_constexpr, false, spot)
    } else if spot.begins(context, Class::Word("auto")) {
        plain_auto(context, None, is_constexpr, false, spot)
    } else {
        typed_variable(context, is_constexpr, spot)
    }
}
