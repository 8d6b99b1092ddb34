//! Primary expressions ([expr.prim]), and casts ([expr.static.cast]).

ghost use Rattle.cx_cursor.specs.Reads.{Reads};
ghost use Rattle.cx_productions.specs.Levels.{levels};
ghost use Rattle.cx_productions.specs.Primaries as primaries;
ghost use Rattle.cx_read_expr.specs.Parts.{boxed_expr, operand_of};

use crate::arguments::argument_list;
use crate::below::expr_below;
use crate::operands::Operand;
use crate::precedence::EXPRESSION_LEVEL;
use crate::requirements::requires_expr;
use crate::typed::{core_primary, head_primary, scalar_primary};
use crate::types::type_id;
use cx_cursor::{Class, Cursor, boxed};
use cx_names::NameKind;
use cx_productions::Calling;
use cx_syntax::{Context, Stopped};
use cx_tokens::{Punctuator, Word};
use cx_trees::Expr;

/// A literal ([lex.icon]).
#[tactic(auto, unfolding(cx_productions::specs::Primaries::int_literal))]
fn int_literal<'s>(cursor: &mut Cursor<'_, 's>, context: Context) -> Result<Box<Expr<'s>>, Stopped>
    ensures { Reads boxed_expr (primaries.int_literal context) cursor.old result cursor.new }
{
    let literal = cursor.take(context, Class::Literal)?;
    let node = cursor.number()?;
    let at = literal.token.at;
    let (scalar, value) = literal.literal();
    boxed(
        cursor.alloc(),
        Expr::Int {
            node,
            at,
            scalar,
            value,
        },
    )
}

/// `true` or `false` ([lex.bool]).
#[tactic(auto, unfolding(cx_productions::specs::Primaries::truth))]
fn truth<'s>(
    cursor: &mut Cursor<'_, 's>,
    word: Word,
    value: bool,
    context: Context,
) -> Result<Box<Expr<'s>>, Stopped>
    ensures { Reads boxed_expr (primaries.truth word value context) cursor.old result cursor.new }
{
    let first = cursor.take(context, Class::Word(word))?;
    let node = cursor.number()?;
    let at = first.token.at;
    boxed(cursor.alloc(), Expr::Bool { node, at, value })
}

/// An expression in parentheses ([expr.prim.paren]).
#[cycle(reading)]
#[tactic(auto, unfolding(cx_productions::specs::Primaries::group))]
fn group<'s>(
    cursor: &mut Cursor<'_, 's>,
    depth: u32,
    context: Context,
) -> Result<Box<Expr<'s>>, Stopped>
    ensures { Reads boxed_expr (primaries.group (levels depth) context) cursor.old result cursor.new }
{
    let opening = cursor.take(context.deeper(), Class::Punct(Punctuator::LeftParenthesis))?;
    let inner = expr_below(cursor, depth, EXPRESSION_LEVEL, context.inside())?;
    cursor.take(context.deeper(), Class::Punct(Punctuator::RightParenthesis))?;
    let node = cursor.number()?;
    let at = opening.token.at;
    boxed(cursor.alloc(), Expr::Group { node, at, inner })
}

/// `static_cast` ([expr.static.cast]).
#[cycle(reading)]
#[tactic(auto, unfolding(cx_productions::specs::Primaries::static_cast))]
fn static_cast<'s>(
    cursor: &mut Cursor<'_, 's>,
    depth: u32,
    context: Context,
) -> Result<Box<Expr<'s>>, Stopped>
    ensures { Reads boxed_expr (primaries.static_cast (levels depth) context) cursor.old result cursor.new }
{
    let first = cursor.take(context, Class::Word(Word::StaticCast))?;
    cursor.take(context.deeper(), Class::Punct(Punctuator::Less))?;
    let to = type_id(cursor, depth, context.listed())?;
    cursor.take(context.deeper(), Class::Closing(context.listed().lists))?;
    cursor.take(context.deeper(), Class::Punct(Punctuator::LeftParenthesis))?;
    let operand = expr_below(cursor, depth, EXPRESSION_LEVEL, context.inside())?;
    cursor.take(context.deeper(), Class::Punct(Punctuator::RightParenthesis))?;
    let node = cursor.number()?;
    let at = first.token.at;
    boxed(
        cursor.alloc(),
        Expr::StaticCast {
            node,
            at,
            to,
            operand,
        },
    )
}

/// `__is_same`.
#[cycle(reading)]
#[tactic(auto, unfolding(cx_productions::specs::Primaries::is_same))]
fn is_same<'s>(
    cursor: &mut Cursor<'_, 's>,
    depth: u32,
    context: Context,
) -> Result<Box<Expr<'s>>, Stopped>
    ensures { Reads boxed_expr (primaries.is_same (levels depth) context) cursor.old result cursor.new }
{
    let first = cursor.take(context, Class::Word(Word::IsSame))?;
    cursor.take(context.deeper(), Class::Punct(Punctuator::LeftParenthesis))?;
    let left = type_id(cursor, depth, context.inside())?;
    cursor.take(context.inside(), Class::Punct(Punctuator::Comma))?;
    let right = type_id(cursor, depth, context.inside())?;
    cursor.take(context.deeper(), Class::Punct(Punctuator::RightParenthesis))?;
    let node = cursor.number()?;
    let at = first.token.at;
    boxed(
        cursor.alloc(),
        Expr::IsSame {
            node,
            at,
            left,
            right,
        },
    )
}

/// `__out`.
#[cycle(reading)]
#[tactic(auto, unfolding(cx_productions::specs::Primaries::out))]
fn out<'s>(
    cursor: &mut Cursor<'_, 's>,
    depth: u32,
    context: Context,
) -> Result<Box<Expr<'s>>, Stopped>
    ensures { Reads boxed_expr (primaries.out (levels depth) context) cursor.old result cursor.new }
{
    let first = cursor.take(context, Class::Word(Word::Out))?;
    cursor.take(context.deeper(), Class::Punct(Punctuator::LeftParenthesis))?;
    let operand = expr_below(cursor, depth, EXPRESSION_LEVEL, context.inside())?;
    cursor.take(context.deeper(), Class::Punct(Punctuator::RightParenthesis))?;
    let node = cursor.number()?;
    let at = first.token.at;
    boxed(cursor.alloc(), Expr::Out { node, at, operand })
}

/// A name alone ([expr.prim.id.unqual]).
#[tactic(auto, unfolding(cx_productions::specs::Primaries::name_alone))]
fn name_alone<'s>(cursor: &mut Cursor<'_, 's>, context: Context) -> Result<Box<Expr<'s>>, Stopped>
    ensures { Reads boxed_expr (primaries.name_alone context) cursor.old result cursor.new }
{
    let name = cursor.take(context, Class::Name)?;
    let node = cursor.number()?;
    let at = name.token.at;
    let name = name.token.text;
    boxed(cursor.alloc(), Expr::Name { node, at, name })
}

/// A name of a template, with arguments or none, and how it is called with them.
#[cycle(reading)]
#[tactic(auto, unfolding(cx_productions::specs::Primaries::template_name))]
fn template_name<'s>(
    cursor: &mut Cursor<'_, 's>,
    depth: u32,
    kind: NameKind,
    calling: Calling,
    context: Context,
) -> Result<Operand<'s>, Stopped>
    ensures { Reads operand_of (primaries.template_name kind calling (levels depth) context) cursor.old result cursor.new }
{
    let name = cursor.take(context, Class::NameOf(kind))?;
    let at = name.token.at;
    let name = name.token.text;
    if !cursor.begins(Class::Punct(Punctuator::Less)) {
        let node = cursor.number()?;
        let tree = boxed(cursor.alloc(), Expr::Name { node, at, name })?;
        return Ok(Operand {
            tree,
            calling: Calling::May,
        });
    }
    let arguments = argument_list(cursor, depth, context)?;
    let node = cursor.number()?;
    let template = Expr::Template {
        node,
        at,
        name,
        arguments,
    };
    let tree = boxed(cursor.alloc(), template)?;
    Ok(Operand { tree, calling })
}

/// A primary that begins with a word, or a group.
#[cycle(reading)]
#[tactic(auto, unfolding(cx_productions::specs::Primaries::word_primary))]
fn word_primary<'s>(
    cursor: &mut Cursor<'_, 's>,
    depth: u32,
    context: Context,
) -> Result<Box<Expr<'s>>, Stopped>
    ensures { Reads boxed_expr (primaries.word_primary (levels depth) context) cursor.old result cursor.new }
{
    if cursor.begins(Class::Word(Word::True)) {
        truth(cursor, Word::True, true, context)
    } else if cursor.begins(Class::Word(Word::False)) {
        truth(cursor, Word::False, false, context)
    } else if cursor.begins(Class::Word(Word::IsSame)) {
        is_same(cursor, depth, context)
    } else if cursor.begins(Class::Word(Word::Out)) {
        out(cursor, depth, context)
    } else if cursor.begins(Class::Word(Word::Requires)) {
        requires_expr(cursor, depth, context)
    } else {
        group(cursor, depth, context)
    }
}

/// A primary that stands in the clause of a requires too.
#[cycle(reading)]
#[tactic(auto, unfolding(cx_productions::specs::Primaries::simple_primary))]
pub(crate) fn simple_primary<'s>(
    cursor: &mut Cursor<'_, 's>,
    depth: u32,
    context: Context,
) -> Result<Operand<'s>, Stopped>
    ensures { Reads operand_of (primaries.simple_primary (levels depth) context) cursor.old result cursor.new }
{
    if cursor.begins(Class::Literal) {
        let tree = int_literal(cursor, context)?;
        return Ok(Operand {
            tree,
            calling: Calling::Never,
        });
    }
    if cursor.begins(Class::NameOf(NameKind::FunctionTemplate)) {
        let kind = NameKind::FunctionTemplate;
        return template_name(cursor, depth, kind, Calling::Must, context);
    }
    if cursor.begins(Class::NameOf(NameKind::Concept)) {
        return template_name(cursor, depth, NameKind::Concept, Calling::May, context);
    }
    if cursor.begins(Class::Name) {
        let tree = name_alone(cursor, context)?;
        return Ok(Operand {
            tree,
            calling: Calling::May,
        });
    }
    let tree = word_primary(cursor, depth, context)?;
    Ok(Operand {
        tree,
        calling: Calling::Never,
    })
}

/// A primary expression.
#[cycle(reading)]
#[tactic(auto, unfolding(cx_productions::specs::Primaries::primary))]
pub(crate) fn primary<'s>(
    cursor: &mut Cursor<'_, 's>,
    depth: u32,
    context: Context,
) -> Result<Operand<'s>, Stopped>
    ensures { Reads operand_of (primaries.primary (levels depth) context) cursor.old result cursor.new }
{
    let tree = if cursor.begins(Class::HeadName) {
        head_primary(cursor, depth, context)?
    } else if cursor.begins(Class::CoreWord) {
        core_primary(cursor, depth, context)?
    } else if cursor.begins(Class::ScalarWord) {
        scalar_primary(cursor, depth, context)?
    } else if cursor.begins(Class::Word(Word::StaticCast)) {
        static_cast(cursor, depth, context)?
    } else {
        return simple_primary(cursor, depth, context);
    };
    Ok(Operand {
        tree,
        calling: Calling::Never,
    })
}
