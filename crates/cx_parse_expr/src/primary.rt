//! Primary expressions ([expr.prim]).

ghost use Rattle.std.specs.Prelude.{◌≡◌, ◌<◌, ◌≤◌, ◌+◌, ◌^◌, codes, true, false, map, IfOk};
ghost use Rattle.cx_tree.specs.Trees.{expr_tree, type_tree, argument_tree};
ghost use Rattle.cx_grammar.specs.Expressions as expressions;
ghost use Rattle.cx_grammar.specs.Types as types;
ghost use Rattle.cx_parse_expr.specs.Asks.{Asks};
ghost use Rattle.cx_parse_expr.specs.Views.{ReadsOperand, as_operand, calling_of};
ghost use Rattle.cx_spots.specs.Views.{placed_core};
ghost use Rattle.cx_spots.specs.Spots.{ReadsNode, Lightens, weight, context_of, piece_tree, below};

use crate::arguments::argument_list;
use crate::ask::{Asked, Reply};
use crate::deeper::{core, expr, type_syn};
use crate::lists::exprs_until;
use crate::types::as_type;
use cx_base::{Place, Stop};
use cx_scope::NameKind;
use cx_spots::{Class, Context, Cored, Piece, Read, Spot, qualified_names, unsupported};
use cx_tree::{Core, Expr, TypeSyn};

/// How a call may follow an expression.
#[derive(Clone, Copy, Debug)]
pub enum Calling {
    No,
    May,
    Must,
}

/// An expression, and how a call may follow it.
#[derive(Debug, Drop)]
pub(crate) struct Operand<'s> {
    pub(crate) expr: Expr<'s>,
    pub(crate) calling: Calling,
}

/// A literal ([lex.icon]).
#[tactic(auto, unfolding(cx_grammar::specs::Expressions::literal))]
fn literal<'t, 's>(context: Context<'_, 's>, spot: Spot<'t, 's>) -> Read<'t, 's, Expr<'s>>
    requires load { context.load ≤ 257 }
    requires room { weight spot < 2 ^ 32 }
    ensures exact { ReadsNode expr_tree (expressions.literal (context_of context.entry)) spot.entry result }
    ensures lightens { Lightens 4 spot.entry result }
{
    let (piece, spot) = spot.take(context, context.load, Class::Literal)?;
    let (scalar, value) = piece.literal();
    let (node, spot) = spot.number();
    Ok((
        Expr::Int {
            node,
            at: piece.token.at,
            scalar,
            value,
        },
        spot,
    ))
}

/// `true` or `false` ([lex.bool]).
#[tactic(auto, unfolding(cx_grammar::specs::Expressions::truth))]
fn truth<'t, 's>(
    context: Context<'_, 's>,
    value: bool,
    text: &str,
    spot: Spot<'t, 's>,
) -> Read<'t, 's, Expr<'s>>
    requires load { context.load ≤ 257 }
    requires room { weight spot < 2 ^ 32 }
    ensures exact { ReadsNode expr_tree (expressions.truth value text.now (context_of context.entry)) spot.entry result }
    ensures lightens { Lightens 4 spot.entry result }
{
    let (word, spot) = spot.take(context, context.load, Class::Word(text))?;
    let (node, spot) = spot.number();
    Ok((
        Expr::Bool {
            node,
            at: word.token.at,
            value,
        },
        spot,
    ))
}

/// An expression in parentheses ([expr.prim.paren]).
#[tactic(auto, unfolding(cx_grammar::specs::Expressions::group))]
fn group<'c, 't, 's, F: for<'a, 'b> Fn(Asked<'a, 'b, 's>) -> Read<'b, 's, Reply<'s>>>(
    ask: &F,
    context: Context<'c, 's>,
    spot: Spot<'t, 's>,
) -> Read<'t, 's, Expr<'s>>
    requires law { Asks (F.pre ask.now) (F.post ask.now) (context.load + 1) }
    requires load { context.load ≤ 257 }
    requires room { weight spot < 2 ^ 32 }
    ensures exact { ReadsNode expr_tree (expressions.group (below (context_of context.entry)) (context_of context.entry)) spot.entry result }
    ensures lightens { Lightens 4 spot.entry result }
{
    let (open, spot) = spot.take(context, context.load + 1, Class::Punct("("))?;
    let (inner, spot) = expr(ask, context.inside(), spot)?;
    let (_, spot) = spot.take(context, context.load + 1, Class::Punct(")"))?;
    let (node, spot) = spot.number();
    let inner = Box::new(context.alloc, inner)?;
    Ok((
        Expr::Group {
            node,
            at: open.token.at,
            inner,
        },
        spot,
    ))
}

/// `static_cast` ([expr.static.cast]).
#[tactic(auto, unfolding(cx_grammar::specs::Expressions::static_cast, cx_grammar::specs::Production::read_token))]
fn static_cast<'c, 't, 's, F: for<'a, 'b> Fn(Asked<'a, 'b, 's>) -> Read<'b, 's, Reply<'s>>>(
    ask: &F,
    context: Context<'c, 's>,
    spot: Spot<'t, 's>,
) -> Read<'t, 's, Expr<'s>>
    requires law { Asks (F.pre ask.now) (F.post ask.now) (context.load + 1) }
    requires load { context.load ≤ 257 }
    requires room { weight spot < 2 ^ 32 }
    ensures exact { ReadsNode expr_tree (expressions.static_cast (below (context_of context.entry)) (context_of context.entry)) spot.entry result }
    ensures lightens { Lightens 4 spot.entry result }
{
    let (cast, spot) = spot.take(context, context.load, Class::Word("static_cast"))?;
    let (_, spot) = spot.take(context, context.load + 1, Class::Punct("<"))?;
    let (to, spot) = type_syn(ask, context.listed(), spot)?;
    let (_, spot) = spot.take(context, context.load + 1, Class::Closing)?;
    let (_, spot) = spot.take(context, context.load + 1, Class::Punct("("))?;
    let (operand, spot) = expr(ask, context.inside(), spot)?;
    let (_, spot) = spot.take(context, context.load + 1, Class::Punct(")"))?;
    let (node, spot) = spot.number();
    let to = Box::new(context.alloc, to)?;
    let operand = Box::new(context.alloc, operand)?;
    Ok((
        Expr::StaticCast {
            node,
            at: cast.token.at,
            to,
            operand,
        },
        spot,
    ))
}

/// `__is_same`.
#[tactic(auto, unfolding(cx_grammar::specs::Expressions::is_same))]
fn is_same<'c, 't, 's, F: for<'a, 'b> Fn(Asked<'a, 'b, 's>) -> Read<'b, 's, Reply<'s>>>(
    ask: &F,
    context: Context<'c, 's>,
    spot: Spot<'t, 's>,
) -> Read<'t, 's, Expr<'s>>
    requires law { Asks (F.pre ask.now) (F.post ask.now) (context.load + 1) }
    requires load { context.load ≤ 257 }
    requires room { weight spot < 2 ^ 32 }
    ensures exact { ReadsNode expr_tree (expressions.is_same (below (context_of context.entry)) (context_of context.entry)) spot.entry result }
    ensures lightens { Lightens 4 spot.entry result }
{
    let (same, spot) = spot.take(context, context.load, Class::Word("__is_same"))?;
    let (_, spot) = spot.take(context, context.load + 1, Class::Punct("("))?;
    let (left, spot) = type_syn(ask, context.inside(), spot)?;
    let (_, spot) = spot.take(context, context.load + 1, Class::Punct(","))?;
    let (right, spot) = type_syn(ask, context.inside(), spot)?;
    let (_, spot) = spot.take(context, context.load + 1, Class::Punct(")"))?;
    let (node, spot) = spot.number();
    let left = Box::new(context.alloc, left)?;
    let right = Box::new(context.alloc, right)?;
    Ok((
        Expr::IsSame {
            node,
            at: same.token.at,
            left,
            right,
        },
        spot,
    ))
}

/// `__out`.
#[tactic(auto, unfolding(cx_grammar::specs::Expressions::out))]
fn out<'c, 't, 's, F: for<'a, 'b> Fn(Asked<'a, 'b, 's>) -> Read<'b, 's, Reply<'s>>>(
    ask: &F,
    context: Context<'c, 's>,
    spot: Spot<'t, 's>,
) -> Read<'t, 's, Expr<'s>>
    requires law { Asks (F.pre ask.now) (F.post ask.now) (context.load + 1) }
    requires load { context.load ≤ 257 }
    requires room { weight spot < 2 ^ 32 }
    ensures exact { ReadsNode expr_tree (expressions.out (below (context_of context.entry)) (context_of context.entry)) spot.entry result }
    ensures lightens { Lightens 4 spot.entry result }
{
    let (word, spot) = spot.take(context, context.load, Class::Word("__out"))?;
    let (_, spot) = spot.take(context, context.load + 1, Class::Punct("("))?;
    let (operand, spot) = expr(ask, context.inside(), spot)?;
    let (_, spot) = spot.take(context, context.load + 1, Class::Punct(")"))?;
    let (node, spot) = spot.number();
    let operand = Box::new(context.alloc, operand)?;
    Ok((
        Expr::Out {
            node,
            at: word.token.at,
            operand,
        },
        spot,
    ))
}

/// A list in braces behind a type ([expr.type.conv]).
#[tactic(auto, unfolding(cx_grammar::specs::Expressions::list))]
fn list<'c, 't, 's, F: for<'a, 'b> Fn(Asked<'a, 'b, 's>) -> Read<'b, 's, Reply<'s>>>(
    ask: &F,
    context: Context<'c, 's>,
    of: TypeSyn<'s>,
    at: Place,
    spot: Spot<'t, 's>,
) -> Read<'t, 's, Expr<'s>>
    requires law { Asks (F.pre ask.now) (F.post ask.now) (context.load + 1) }
    requires load { context.load ≤ 257 }
    requires room { weight spot < 2 ^ 32 }
    ensures exact { ReadsNode expr_tree (λ n. expressions.list (below (context_of context.entry)) (context_of context.entry) (type_tree of.entry, n) at) spot.entry result }
    ensures lightens { Lightens 8 spot.entry result }
{
    let (_, spot) = spot.take(context, context.load + 1, Class::Punct("{"))?;
    let (items, spot) = exprs_until(ask, context.inside(), "}", spot)?;
    let (_, spot) = spot.take(context, context.load + 1, Class::Punct("}"))?;
    let (node, spot) = spot.number();
    let of = Box::new(context.alloc, of)?;
    Ok((
        Expr::List {
            node,
            at,
            of,
            items,
        },
        spot,
    ))
}

/// Names behind a type ([expr.prim.id.qual]).
#[tactic(auto, unfolding(cx_grammar::specs::Expressions::qualified))]
pub(crate) fn qualified<'t, 's>(
    context: Context<'_, 's>,
    head: TypeSyn<'s>,
    at: Place,
    spot: Spot<'t, 's>,
) -> Read<'t, 's, Expr<'s>>
    requires load { context.load ≤ 257 }
    requires room { weight spot < 2 ^ 32 }
    ensures exact { ReadsNode expr_tree (λ n. expressions.qualified (context_of context.entry) (type_tree head.entry, n) at) spot.entry result }
    ensures lightens { Lightens 7 spot.entry result }
{
    let (names, spot) = qualified_names(context, spot)?;
    let (node, spot) = spot.number();
    let head = Box::new(context.alloc, head)?;
    Ok((
        Expr::Qualified {
            node,
            at,
            head,
            names,
        },
        spot,
    ))
}

/// What stands behind a core: a list in braces.
#[tactic(auto, unfolding(cx_grammar::specs::Expressions::behind_core))]
pub(crate) fn behind_core<
    'c,
    't,
    's,
    F: for<'a, 'b> Fn(Asked<'a, 'b, 's>) -> Read<'b, 's, Reply<'s>>,
>(ask: &F, context: Context<'c, 's>, core: Cored<'s>, spot: Spot<'t, 's>) -> Read<'t, 's, Expr<'s>>
    requires law { Asks (F.pre ask.now) (F.post ask.now) (context.load + 1) }
    requires load { context.load ≤ 257 }
    requires room { weight spot + 1 < 2 ^ 32 }
    ensures exact { ReadsNode expr_tree (λ n. expressions.behind_core (below (context_of context.entry)) (context_of context.entry) (placed_core core.entry, n)) spot.entry result }
    ensures lightens { Lightens 4 spot.entry result }
{
    let at = core.at;
    let (of, spot) = as_type(core, spot);
    list(ask, context, of, at, spot)
}

/// What stands behind the name of a type or a class template with arguments: a list in braces, or names.
#[tactic(auto, unfolding(cx_grammar::specs::Expressions::behind_head))]
pub(crate) fn behind_head<
    'c,
    't,
    's,
    F: for<'a, 'b> Fn(Asked<'a, 'b, 's>) -> Read<'b, 's, Reply<'s>>,
>(ask: &F, context: Context<'c, 's>, core: Cored<'s>, spot: Spot<'t, 's>) -> Read<'t, 's, Expr<'s>>
    requires law { Asks (F.pre ask.now) (F.post ask.now) (context.load + 1) }
    requires load { context.load ≤ 257 }
    requires room { weight spot + 1 < 2 ^ 32 }
    ensures exact { ReadsNode expr_tree (λ n. expressions.behind_head (below (context_of context.entry)) (context_of context.entry) (placed_core core.entry, n)) spot.entry result }
    ensures lightens { Lightens 4 spot.entry result }
{
    let at = core.at;
    let begins_list = spot.begins(context, Class::Punct("{"));
    let (head, spot) = as_type(core, spot);
    if begins_list {
        list(ask, context, head, at, spot)
    } else {
        qualified(context, head, at, spot)
    }
}

/// What begins with the name of a type or of a class template.
#[tactic(auto, unfolding(cx_grammar::specs::Expressions::headed))]
fn headed<'c, 't, 's, F: for<'a, 'b> Fn(Asked<'a, 'b, 's>) -> Read<'b, 's, Reply<'s>>>(
    ask: &F,
    context: Context<'c, 's>,
    spot: Spot<'t, 's>,
) -> Read<'t, 's, Expr<'s>>
    requires law { Asks (F.pre ask.now) (F.post ask.now) (context.load + 1) }
    requires load { context.load ≤ 257 }
    requires room { weight spot < 2 ^ 32 }
    ensures exact { ReadsNode expr_tree (expressions.headed (below (context_of context.entry)) (context_of context.entry)) spot.entry result }
    ensures lightens { Lightens 4 spot.entry result }
{
    let (core, spot) = core(ask, context.deeper(), spot)?;
    behind_head(ask, context, core, spot)
}

/// What begins with another core that is no scalar.
#[tactic(auto, unfolding(cx_grammar::specs::Expressions::cored))]
fn cored<'c, 't, 's, F: for<'a, 'b> Fn(Asked<'a, 'b, 's>) -> Read<'b, 's, Reply<'s>>>(
    ask: &F,
    context: Context<'c, 's>,
    spot: Spot<'t, 's>,
) -> Read<'t, 's, Expr<'s>>
    requires law { Asks (F.pre ask.now) (F.post ask.now) (context.load + 1) }
    requires load { context.load ≤ 257 }
    requires room { weight spot < 2 ^ 32 }
    ensures exact { ReadsNode expr_tree (expressions.cored (below (context_of context.entry)) (context_of context.entry)) spot.entry result }
    ensures lightens { Lightens 4 spot.entry result }
{
    let (core, spot) = core(ask, context.deeper(), spot)?;
    behind_core(ask, context, core, spot)
}

/// A list in braces behind a scalar of one word.
#[tactic(auto, unfolding(cx_grammar::specs::Expressions::word_list))]
fn word_list<'c, 't, 's, F: for<'a, 'b> Fn(Asked<'a, 'b, 's>) -> Read<'b, 's, Reply<'s>>>(
    ask: &F,
    context: Context<'c, 's>,
    spot: Spot<'t, 's>,
) -> Read<'t, 's, Expr<'s>>
    requires law { Asks (F.pre ask.now) (F.post ask.now) (context.load + 1) }
    requires load { context.load ≤ 257 }
    requires room { weight spot < 2 ^ 32 }
    ensures exact { ReadsNode expr_tree (expressions.word_list (below (context_of context.entry)) (context_of context.entry)) spot.entry result }
    ensures lightens { Lightens 4 spot.entry result }
{
    let (word, spot) = spot.take(context, context.load + 1, Class::OneWord)?;
    behind_core(ask, context, word_core(word), spot)
}

/// A scalar of one word as a core.
pub(crate) fn word_core<'s>(word: Piece<'s>) -> Cored<'s>
    ensures { placed_core result ≡ types.placed_scalar (piece_tree word.entry) (types.scalar_of_word (piece_tree word.entry)) }
{
    Cored {
        at: word.token.at,
        core: Core::Scalar(word.scalar()),
    }
}

/// A name alone ([expr.prim.id.unqual]).
#[tactic(auto, unfolding(cx_grammar::specs::Expressions::name_alone))]
fn name_alone<'t, 's>(context: Context<'_, 's>, spot: Spot<'t, 's>) -> Read<'t, 's, Expr<'s>>
    requires load { context.load ≤ 257 }
    requires room { weight spot < 2 ^ 32 }
    ensures exact { ReadsNode expr_tree (expressions.name_alone (context_of context.entry)) spot.entry result }
    ensures lightens { Lightens 4 spot.entry result }
{
    let (name, spot) = spot.take(context, context.load, Class::AnyName)?;
    let (node, spot) = spot.number();
    Ok((
        Expr::Name {
            node,
            at: name.token.at,
            name: name.token.text,
        },
        spot,
    ))
}

/// A name, and template arguments where `<` follows.
#[tactic(auto, unfolding(cx_grammar::specs::Expressions::named))]
fn named<'c, 't, 's, F: for<'a, 'b> Fn(Asked<'a, 'b, 's>) -> Read<'b, 's, Reply<'s>>>(
    ask: &F,
    context: Context<'c, 's>,
    calling: Calling,
    spot: Spot<'t, 's>,
) -> Read<'t, 's, Operand<'s>>
    requires law { Asks (F.pre ask.now) (F.post ask.now) (context.load + 1) }
    requires load { context.load ≤ 257 }
    requires room { weight spot < 2 ^ 32 }
    ensures exact { ReadsOperand (expressions.named (calling_of calling) (below (context_of context.entry)) (context_of context.entry)) spot.entry result }
    ensures lightens { Lightens 4 spot.entry result }
{
    let (name, spot) = spot.take(context, context.load, Class::AnyName)?;
    let at = name.token.at;
    let name = name.token.text;
    if !spot.begins(context, Class::Punct("<")) {
        let (node, spot) = spot.number();
        let expr = Expr::Name { node, at, name };
        return Ok((
            Operand {
                expr,
                calling: Calling::May,
            },
            spot,
        ));
    }
    let (arguments, spot) = argument_list(ask, context, spot)?;
    let (node, spot) = spot.number();
    let expr = Expr::Template {
        node,
        at,
        name,
        arguments,
    };
    Ok((Operand { expr, calling }, spot))
}

/// An expression that was read, with how a call may follow it.
fn with_calling<'t, 's>(calling: Calling, read: Read<'t, 's, Expr<'s>>) -> Read<'t, 's, Operand<'s>>
    ensures { result ≡ as_operand calling read.entry }
{
    let (expr, spot) = read?;
    Ok((Operand { expr, calling }, spot))
}

/// A primary that begins with a word, or parentheses.
#[tactic(auto, using(crate::proofs::Unread::unread_here), unfolding(cx_grammar::specs::Expressions::worded))]
fn worded<'c, 't, 's, F: for<'a, 'b> Fn(Asked<'a, 'b, 's>) -> Read<'b, 's, Reply<'s>>>(
    ask: &F,
    context: Context<'c, 's>,
    spot: Spot<'t, 's>,
) -> Read<'t, 's, Operand<'s>>
    requires law { Asks (F.pre ask.now) (F.post ask.now) (context.load + 1) }
    requires load { context.load ≤ 257 }
    requires room { weight spot < 2 ^ 32 }
    ensures exact { ReadsOperand (expressions.worded (below (context_of context.entry)) (context_of context.entry)) spot.entry result }
    ensures lightens { Lightens 4 spot.entry result }
{
    if spot.begins(context, Class::Word("true")) {
        return with_calling(Calling::No, truth(context, true, "true", spot));
    }
    if spot.begins(context, Class::Word("false")) {
        return with_calling(Calling::No, truth(context, false, "false", spot));
    }
    if spot.begins(context, Class::Word("__is_same")) {
        return with_calling(Calling::No, is_same(ask, context, spot));
    }
    if spot.begins(context, Class::Word("__out")) {
        return with_calling(Calling::No, out(ask, context, spot));
    }
    if spot.begins(context, Class::Word("requires")) {
        return Err(unsupported(context.alloc, spot.piece().token.at));
    }
    with_calling(Calling::No, group(ask, context, spot))
}

/// What stands in a requires-clause too.
#[tactic(auto, unfolding(cx_grammar::specs::Expressions::simple_primary))]
pub(crate) fn simple_primary<
    'c,
    't,
    's,
    F: for<'a, 'b> Fn(Asked<'a, 'b, 's>) -> Read<'b, 's, Reply<'s>>,
>(ask: &F, context: Context<'c, 's>, spot: Spot<'t, 's>) -> Read<'t, 's, Operand<'s>>
    requires law { Asks (F.pre ask.now) (F.post ask.now) (context.load + 1) }
    requires load { context.load ≤ 257 }
    requires room { weight spot < 2 ^ 32 }
    ensures exact { ReadsOperand (expressions.simple_primary (below (context_of context.entry)) (context_of context.entry)) spot.entry result }
    ensures lightens { Lightens 4 spot.entry result }
{
    if spot.begins(context, Class::Literal) {
        return with_calling(Calling::No, literal(context, spot));
    }
    if spot.begins(context, Class::Named(NameKind::FunctionTemplate)) {
        return named(ask, context, Calling::Must, spot);
    }
    if spot.begins(context, Class::Named(NameKind::Concept)) {
        return named(ask, context, Calling::May, spot);
    }
    if spot.begins(context, Class::AnyName) {
        return with_calling(Calling::May, name_alone(context, spot));
    }
    worded(ask, context, spot)
}

/// A primary expression.
#[tactic(auto, unfolding(cx_grammar::specs::Expressions::primary))]
pub(crate) fn primary<'c, 't, 's, F: for<'a, 'b> Fn(Asked<'a, 'b, 's>) -> Read<'b, 's, Reply<'s>>>(
    ask: &F,
    context: Context<'c, 's>,
    spot: Spot<'t, 's>,
) -> Read<'t, 's, Operand<'s>>
    requires law { Asks (F.pre ask.now) (F.post ask.now) (context.load + 1) }
    requires load { context.load ≤ 257 }
    requires room { weight spot < 2 ^ 32 }
    ensures exact { ReadsOperand (expressions.primary (below (context_of context.entry)) (context_of context.entry)) spot.entry result }
    ensures lightens { Lightens 4 spot.entry result }
{
    if spot.begins(context, Class::HeadName) {
        return with_calling(Calling::No, headed(ask, context, spot));
    }
    if spot.begins(context, Class::CoreWord) {
        return with_calling(Calling::No, cored(ask, context, spot));
    }
    if spot.begins(context, Class::OneWord) {
        return with_calling(Calling::No, word_list(ask, context, spot));
    }
    if spot.begins(context, Class::Word("static_cast")) {
        return with_calling(Calling::No, static_cast(ask, context, spot));
    }
    simple_primary(ask, context, spot)
}
