//! Types as they are written ([dcl.type]).

ghost use Rattle.std.specs.Prelude.{◌≡◌, ◌<◌, ◌≤◌, ◌+◌, ◌^◌, IfOk};
ghost use Rattle.cx_tree.specs.Trees.{type_tree, core_tree};
ghost use Rattle.cx_grammar.specs.Types as types;
ghost use Rattle.cx_parse_expr.specs.Asks.{Asks};
ghost use Rattle.cx_spots.specs.Spots.{Reads, ReadsNode, Lightens, weight, context_of, at, below, left_at};
ghost use Rattle.cx_spots.specs.Views.{placed_core};

use crate::arguments::argument_list;
use crate::ask::{Asked, Reply};
use crate::deeper::{core, expr};
use cx_base::Place;
use cx_scope::NameKind;
use cx_spots::{Class, Context, Cored, Read, Spot, qualified_names, scalar_core};
use cx_tree::{Core, TypeSyn};

/// A core as a type without `const` and `&`, which is a node.
pub(crate) fn as_type<'t, 's>(core: Cored<'s>, spot: Spot<'t, 's>) -> (TypeSyn<'s>, Spot<'t, 's>)
    requires { weight spot + 1 < 2 ^ 32 }
    ensures tree { (type_tree result.0, result.1.next) ≡ types.as_type (placed_core core.entry, spot.entry.next) }
    ensures left { left_at result.1 ≡ left_at spot.entry }
{
    let (node, spot) = spot.number();
    let head = TypeSyn {
        node,
        at: core.at,
        constant: false,
        core: core.core,
        reference: false,
    };
    (head, spot)
}

/// A class template with arguments ([temp.names]).
#[tactic(auto, unfolding(cx_grammar::specs::Types::class_core))]
fn class_core<'c, 't, 's, F: for<'a, 'b> Fn(Asked<'a, 'b, 's>) -> Read<'b, 's, Reply<'s>>>(
    ask: &F,
    context: Context<'c, 's>,
    spot: Spot<'t, 's>,
) -> Read<'t, 's, Cored<'s>>
    requires law { Asks (F.pre ask.now) (F.post ask.now) (context.load + 1) }
    requires load { context.load ≤ 258 }
    requires room { weight spot < 2 ^ 32 }
    ensures exact { ReadsNode placed_core (types.class_core (below (context_of context.entry)) (context_of context.entry)) spot.entry result }
    ensures lightens { Lightens 8 spot.entry result }
{
    let (name, spot) = spot.take(context, context.load, Class::Named(NameKind::ClassTemplate))?;
    let (arguments, spot) = argument_list(ask, context, spot)?;
    let core = Core::Class(name.token.text, arguments);
    Ok((
        Cored {
            at: name.token.at,
            core,
        },
        spot,
    ))
}

/// The name of a type.
#[tactic(auto, unfolding(cx_grammar::specs::Types::type_name_core))]
fn type_name_core<'t, 's>(context: Context<'_, 's>, spot: Spot<'t, 's>) -> Read<'t, 's, Cored<'s>>
    requires load { context.load ≤ 258 }
    requires room { weight spot < 2 ^ 32 }
    ensures exact { ReadsNode placed_core (types.type_name_core (context_of context.entry)) spot.entry result }
    ensures lightens { Lightens 8 spot.entry result }
{
    let (name, spot) = spot.take(context, context.load, Class::Named(NameKind::TypeName))?;
    let core = Core::TypeName(name.token.text);
    Ok((
        Cored {
            at: name.token.at,
            core,
        },
        spot,
    ))
}

/// The name of a type, or a class template with arguments: what may stand before `::`.
#[tactic(auto, unfolding(cx_grammar::specs::Types::head_core))]
fn head_core<'c, 't, 's, F: for<'a, 'b> Fn(Asked<'a, 'b, 's>) -> Read<'b, 's, Reply<'s>>>(
    ask: &F,
    context: Context<'c, 's>,
    spot: Spot<'t, 's>,
) -> Read<'t, 's, Cored<'s>>
    requires law { Asks (F.pre ask.now) (F.post ask.now) (context.load + 1) }
    requires load { context.load ≤ 258 }
    requires room { weight spot < 2 ^ 32 }
    ensures exact { ReadsNode placed_core (types.head_core (below (context_of context.entry)) (context_of context.entry)) spot.entry result }
    ensures lightens { Lightens 8 spot.entry result }
{
    if spot.begins(context, Class::Named(NameKind::ClassTemplate)) {
        class_core(ask, context, spot)
    } else {
        type_name_core(context, spot)
    }
}

/// A member of a type, by `typename` ([temp.res]).
#[tactic(auto, unfolding(cx_grammar::specs::Types::member_core))]
fn member_core<'c, 't, 's, F: for<'a, 'b> Fn(Asked<'a, 'b, 's>) -> Read<'b, 's, Reply<'s>>>(
    ask: &F,
    context: Context<'c, 's>,
    spot: Spot<'t, 's>,
) -> Read<'t, 's, Cored<'s>>
    requires law { Asks (F.pre ask.now) (F.post ask.now) (context.load + 1) }
    requires load { context.load ≤ 258 }
    requires room { weight spot < 2 ^ 32 }
    ensures exact { ReadsNode placed_core (types.member_core (below (context_of context.entry)) (context_of context.entry)) spot.entry result }
    ensures lightens { Lightens 8 spot.entry result }
{
    let (word, spot) = spot.take(context, context.load, Class::Word("typename"))?;
    let (head, spot) = head_core(ask, context, spot)?;
    let (names, spot) = qualified_names(context, spot)?;
    let (head, spot) = as_type(head, spot);
    let head = Box::new(context.alloc, head)?;
    let core = Core::MemberType(head, names);
    Ok((
        Cored {
            at: word.token.at,
            core,
        },
        spot,
    ))
}

/// The type of an expression ([dcl.type.decltype]).
#[tactic(auto, unfolding(cx_grammar::specs::Types::decltype_core))]
fn decltype_core<'c, 't, 's, F: for<'a, 'b> Fn(Asked<'a, 'b, 's>) -> Read<'b, 's, Reply<'s>>>(
    ask: &F,
    context: Context<'c, 's>,
    spot: Spot<'t, 's>,
) -> Read<'t, 's, Cored<'s>>
    requires law { Asks (F.pre ask.now) (F.post ask.now) (context.load + 1) }
    requires load { context.load ≤ 258 }
    requires room { weight spot < 2 ^ 32 }
    ensures exact { ReadsNode placed_core (types.decltype_core (below (context_of context.entry)) (context_of context.entry)) spot.entry result }
    ensures lightens { Lightens 8 spot.entry result }
{
    let (word, spot) = spot.take(context, context.load, Class::Word("decltype"))?;
    let (_, spot) = spot.take(context, context.load + 1, Class::Punct("("))?;
    let (operand, spot) = expr(ask, context.inside(), spot)?;
    let (_, spot) = spot.take(context, context.load + 1, Class::Punct(")"))?;
    let operand = Box::new(context.alloc, operand)?;
    let core = Core::Decltype(operand);
    Ok((
        Cored {
            at: word.token.at,
            core,
        },
        spot,
    ))
}

/// `void`.
#[tactic(auto, unfolding(cx_grammar::specs::Types::void_core))]
fn void_core<'t, 's>(context: Context<'_, 's>, spot: Spot<'t, 's>) -> Read<'t, 's, Cored<'s>>
    requires load { context.load ≤ 258 }
    requires room { weight spot < 2 ^ 32 }
    ensures exact { ReadsNode placed_core (types.void_core (context_of context.entry)) spot.entry result }
    ensures lightens { Lightens 8 spot.entry result }
{
    let (word, spot) = spot.take(context, context.load, Class::Word("void"))?;
    Ok((
        Cored {
            at: word.token.at,
            core: Core::Void,
        },
        spot,
    ))
}

/// A scalar.
#[tactic(auto, unfolding(cx_grammar::specs::Types::scalar_only))]
fn scalar_only<'t, 's>(context: Context<'_, 's>, spot: Spot<'t, 's>) -> Read<'t, 's, Cored<'s>>
    requires load { context.load ≤ 258 }
    requires room { weight spot < 2 ^ 32 }
    ensures exact { ReadsNode placed_core (types.scalar_only (context_of context.entry)) spot.entry result }
    ensures lightens { Lightens 8 spot.entry result }
{
    let (core, spot) = scalar_core(context, spot)?;
    Ok((core, spot))
}

/// A core, by its first token.
#[tactic(auto, unfolding(cx_grammar::specs::Types::core))]
pub(crate) fn core_here<
    'c,
    't,
    's,
    F: for<'a, 'b> Fn(Asked<'a, 'b, 's>) -> Read<'b, 's, Reply<'s>>,
>(ask: &F, context: Context<'c, 's>, spot: Spot<'t, 's>) -> Read<'t, 's, Cored<'s>>
    requires law { Asks (F.pre ask.now) (F.post ask.now) (context.load + 1) }
    requires load { context.load ≤ 258 }
    requires room { weight spot < 2 ^ 32 }
    ensures exact { ReadsNode placed_core (types.core (below (context_of context.entry)) (context_of context.entry)) spot.entry result }
    ensures lightens { Lightens 8 spot.entry result }
{
    if spot.begins(context, Class::AnyName) {
        head_core(ask, context, spot)
    } else if spot.begins(context, Class::Word("typename")) {
        member_core(ask, context, spot)
    } else if spot.begins(context, Class::Word("decltype")) {
        decltype_core(ask, context, spot)
    } else if spot.begins(context, Class::Word("void")) {
        void_core(context, spot)
    } else {
        scalar_only(context, spot)
    }
}

/// The word `const` or nothing, where it is not there yet.
#[tactic(auto, unfolding(cx_grammar::specs::Types::maybe_const))]
fn maybe_const<'t, 's>(
    context: Context<'_, 's>,
    before: bool,
    spot: Spot<'t, 's>,
) -> Read<'t, 's, bool>
    requires load { context.load ≤ 257 }
    requires room { weight spot < 2 ^ 32 }
    ensures exact { Reads (λ b. b) (types.maybe_const (context_of context.entry) before) spot.entry result }
    ensures lightens { Lightens 0 spot.entry result }
    ensures next { IfOk result (λ x. x.1.next ≡ spot.entry.next) }
{
    if before {
        return Ok((true, spot));
    }
    if !spot.begins(context, Class::Word("const")) {
        return Ok((false, spot));
    }
    let (_, spot) = spot.take(context, context.load + 1, Class::Word("const"))?;
    Ok((true, spot))
}

/// `&` or nothing ([dcl.ref]).
#[tactic(auto, unfolding(cx_grammar::specs::Types::maybe_reference))]
fn maybe_reference<'t, 's>(context: Context<'_, 's>, spot: Spot<'t, 's>) -> Read<'t, 's, bool>
    requires load { context.load ≤ 257 }
    requires room { weight spot < 2 ^ 32 }
    ensures exact { Reads (λ b. b) (types.maybe_reference (context_of context.entry)) spot.entry result }
    ensures lightens { Lightens 0 spot.entry result }
    ensures next { IfOk result (λ x. x.1.next ≡ spot.entry.next) }
{
    if !spot.begins(context, Class::Punct("&")) {
        return Ok((false, spot));
    }
    let (_, spot) = spot.take(context, context.load + 1, Class::Punct("&"))?;
    Ok((true, spot))
}

/// What stands behind a core: `const`, where there is none before the core, and `&`. The type's place is told.
#[tactic(auto, unfolding(cx_grammar::specs::Types::type_behind))]
pub fn type_behind<'t, 's>(
    context: Context<'_, 's>,
    at: Place,
    before: bool,
    core: Core<'s>,
    spot: Spot<'t, 's>,
) -> Read<'t, 's, TypeSyn<'s>>
    requires load { context.load ≤ 257 }
    requires room { weight spot + 1 < 2 ^ 32 }
    ensures exact { ReadsNode type_tree (λ n. types.type_behind (context_of context.entry) at before (core_tree core.entry, n)) spot.entry result }
    ensures lightens { IfOk result (λ x. (spot.entry.next ≤ x.1.next) × (weight x.1 ≤ weight spot.entry + 1)) }
{
    let (constant, spot) = maybe_const(context, before, spot)?;
    let (reference, spot) = maybe_reference(context, spot)?;
    let (node, spot) = spot.number();
    Ok((
        TypeSyn {
            node,
            at,
            constant,
            core,
            reference,
        },
        spot,
    ))
}

/// A type that begins with `const`.
#[tactic(auto, unfolding(cx_grammar::specs::Types::const_type))]
pub(crate) fn const_type<
    'c,
    't,
    's,
    F: for<'a, 'b> Fn(Asked<'a, 'b, 's>) -> Read<'b, 's, Reply<'s>>,
>(ask: &F, context: Context<'c, 's>, spot: Spot<'t, 's>) -> Read<'t, 's, TypeSyn<'s>>
    requires law { Asks (F.pre ask.now) (F.post ask.now) (context.load + 1) }
    requires load { context.load ≤ 257 }
    requires room { weight spot < 2 ^ 32 }
    ensures exact { ReadsNode type_tree (types.const_type (below (context_of context.entry)) (context_of context.entry)) spot.entry result }
    ensures lightens { Lightens 4 spot.entry result }
{
    let (word, spot) = spot.take(context, context.load, Class::Word("const"))?;
    let (core, spot) = core(ask, context.deeper(), spot)?;
    type_behind(context, word.token.at, true, core.core, spot)
}

/// A type that begins with its core.
#[tactic(auto, unfolding(cx_grammar::specs::Types::bare_type))]
fn bare_type<'c, 't, 's, F: for<'a, 'b> Fn(Asked<'a, 'b, 's>) -> Read<'b, 's, Reply<'s>>>(
    ask: &F,
    context: Context<'c, 's>,
    spot: Spot<'t, 's>,
) -> Read<'t, 's, TypeSyn<'s>>
    requires law { Asks (F.pre ask.now) (F.post ask.now) (context.load + 1) }
    requires load { context.load ≤ 257 }
    requires room { weight spot < 2 ^ 32 }
    ensures exact { ReadsNode type_tree (types.bare_type (below (context_of context.entry)) (context_of context.entry)) spot.entry result }
    ensures lightens { Lightens 4 spot.entry result }
{
    let (core, spot) = core(ask, context.deeper(), spot)?;
    type_behind(context, core.at, false, core.core, spot)
}

/// A type, by its first token.
#[tactic(auto, unfolding(cx_grammar::specs::Types::type_id))]
pub(crate) fn type_here<
    'c,
    't,
    's,
    F: for<'a, 'b> Fn(Asked<'a, 'b, 's>) -> Read<'b, 's, Reply<'s>>,
>(ask: &F, context: Context<'c, 's>, spot: Spot<'t, 's>) -> Read<'t, 's, TypeSyn<'s>>
    requires law { Asks (F.pre ask.now) (F.post ask.now) (context.load + 1) }
    requires load { context.load ≤ 257 }
    requires room { weight spot < 2 ^ 32 }
    ensures exact { ReadsNode type_tree (types.type_id (below (context_of context.entry)) (context_of context.entry)) spot.entry result }
    ensures lightens { Lightens 4 spot.entry result }
{
    if spot.begins(context, Class::Word("const")) {
        const_type(ask, context, spot)
    } else {
        bare_type(ask, context, spot)
    }
}
