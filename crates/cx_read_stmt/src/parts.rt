//! Parts of statements that are no statements.

ghost use Rattle.std.specs.Prelude.{◌≡◌};
ghost use Rattle.std.specs.Option.{option_map};
ghost use Rattle.cx_trees.specs.Views.{expr_tree};
ghost use Rattle.cx_productions.specs.Levels.{levels};
ghost use Rattle.cx_productions.specs.Statements as statements;
ghost use Rattle.cx_statement_trees.specs.StatementViews.{opening_tree, head_tree, assert_tree};
ghost use Rattle.cx_syntax.specs.Productions as productions;
ghost use Rattle.cx_syntax.specs.Combinators.{maybe};
ghost use Rattle.cx_syntax.specs.Classes.{punct};
ghost use Rattle.cx_tokens.specs.declared.punctuator.Punctuator.TheVariants.{Comma};
ghost use Rattle.cx_cursor.specs.Reads.{Reads};

use crate::openings::opening;
use cx_cursor::{Class, Cursor, boxed};
use cx_read_expr::{EXPRESSION_LEVEL, expr, expr_below};
use cx_statement_trees::{Assertion, ForHead, Opening};
use cx_syntax::{Context, Stopped};
use cx_tokens::{Punctuator, Word};
use cx_trees::Expr;

/// `"," Str`
#[tactic(auto, unfolding(cx_productions::specs::Statements::message))]
fn message<'s>(cursor: &mut Cursor<'_, 's>, context: Context) -> Result<&'s str, Stopped>
    ensures { Reads (λ text. text.now) (statements.message context) cursor.old result cursor.new }
{
    cursor.take(context, Class::Punct(Punctuator::Comma))?;
    let text = cursor.take(context, Class::Text)?;
    Ok(text.token.text)
}

/// `[ "," Str ]`
fn maybe_message<'s>(
    cursor: &mut Cursor<'_, 's>,
    context: Context,
) -> Result<Option<&'s str>, Stopped>
    ensures { Reads (option_map (λ text. text.now)) (maybe (punct Comma) (statements.message context)) cursor.old result cursor.new }
{
    if !cursor.begins(Class::Punct(Punctuator::Comma)) {
        return Ok(None);
    }
    let text = message(cursor, context)?;
    Ok(Some(text))
}

/// `"static_assert" "(" expr [ "," Str ] ")" ";"` ([dcl.pre])
#[tactic(auto, unfolding(cx_productions::specs::Statements::assertion))]
pub fn assertion<'s>(
    cursor: &mut Cursor<'_, 's>,
    depth: u32,
    context: Context,
) -> Result<Box<Assertion<'s>>, Stopped>
    ensures { Reads (λ a. assert_tree a.value) (statements.assertion (levels depth) context) cursor.old result cursor.new }
{
    let start = cursor.take(context, Class::Word(Word::StaticAssert))?;
    cursor.take(context.deeper(), Class::Punct(Punctuator::LeftParenthesis))?;
    let condition = expr_below(cursor, depth, EXPRESSION_LEVEL, context.inside())?;
    let message = maybe_message(cursor, context.inside())?;
    cursor.take(context.deeper(), Class::Punct(Punctuator::RightParenthesis))?;
    cursor.take(context, Class::Punct(Punctuator::Semicolon))?;
    let node = cursor.number()?;
    boxed(
        cursor.alloc(),
        Assertion {
            node,
            at: start.token.at,
            condition,
            message,
        },
    )
}

/// `"(" expr ")"`
#[tactic(auto, unfolding(cx_productions::specs::Statements::condition))]
pub(crate) fn condition<'s>(
    cursor: &mut Cursor<'_, 's>,
    depth: u32,
    context: Context,
) -> Result<Box<Expr<'s>>, Stopped>
    ensures { Reads (λ e. expr_tree e.value) (statements.condition (levels depth) context) cursor.old result cursor.new }
{
    cursor.take(context.deeper(), Class::Punct(Punctuator::LeftParenthesis))?;
    let condition = expr_below(cursor, depth, EXPRESSION_LEVEL, context.inside())?;
    cursor.take(context.deeper(), Class::Punct(Punctuator::RightParenthesis))?;
    Ok(condition)
}

/// `[ expr ]`, up to what stands after it.
#[tactic(auto, unfolding(cx_productions::specs::Statements::expr_until))]
pub(crate) fn expr_until<'s>(
    cursor: &mut Cursor<'_, 's>,
    depth: u32,
    after: Punctuator,
    context: Context,
) -> Result<Option<Box<Expr<'s>>>, Stopped>
    ensures { Reads (option_map (λ e. expr_tree e.value)) (statements.expr_until after (levels depth) context) cursor.old result cursor.new }
{
    if cursor.begins(Class::Punct(after)) {
        return Ok(None);
    }
    let value = expr(cursor, depth, EXPRESSION_LEVEL, context)?;
    Ok(Some(value))
}

/// `";" | variable | expr ";"`
#[tactic(auto, unfolding(cx_productions::specs::Statements::for_init))]
fn for_init<'s>(
    cursor: &mut Cursor<'_, 's>,
    depth: u32,
    context: Context,
) -> Result<Option<Opening<'s>>, Stopped>
    ensures { Reads (option_map opening_tree) (statements.for_init (levels depth) context) cursor.old result cursor.new }
{
    if cursor.begins(Class::Punct(Punctuator::Semicolon)) {
        cursor.take(context, Class::Punct(Punctuator::Semicolon))?;
        return Ok(None);
    }
    let first = opening(cursor, depth, context)?;
    Ok(Some(first))
}

/// `( variable | expr ";" | ";" ) [ expr ] ";" [ expr ]`
#[tactic(auto, unfolding(cx_productions::specs::Statements::for_head))]
pub(crate) fn for_head<'s>(
    cursor: &mut Cursor<'_, 's>,
    depth: u32,
    context: Context,
) -> Result<Box<ForHead<'s>>, Stopped>
    ensures { Reads (λ h. head_tree h.value) (statements.for_head (levels depth) context) cursor.old result cursor.new }
{
    let init = for_init(cursor, depth, context)?;
    let condition = expr_until(cursor, depth, Punctuator::Semicolon, context)?;
    cursor.take(context, Class::Punct(Punctuator::Semicolon))?;
    let step = expr_until(cursor, depth, Punctuator::RightParenthesis, context)?;
    boxed(
        cursor.alloc(),
        ForHead {
            init,
            condition,
            step,
        },
    )
}
