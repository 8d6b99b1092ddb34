//! Initialisers ([dcl.init]).

ghost use Rattle.cx_productions.specs.Levels.{levels};
ghost use Rattle.cx_productions.specs.Statements as statements;
ghost use Rattle.cx_statement_trees.specs.StatementViews.{init_tree};
ghost use Rattle.cx_cursor.specs.Reads.{Reads};

use cx_cursor::{Class, Cursor};
use cx_read_expr::{EXPRESSION_LEVEL, expr, expr_list};
use cx_statement_trees::Init;
use cx_syntax::{Context, Stopped};
use cx_tokens::Punctuator;

/// `"=" expr`
#[tactic(auto, unfolding(cx_productions::specs::Statements::value_init))]
pub(crate) fn value_init<'s>(
    cursor: &mut Cursor<'_, 's>,
    depth: u32,
    context: Context,
) -> Result<Init<'s>, Stopped>
    ensures { Reads init_tree (statements.value_init (levels depth) context) cursor.old result cursor.new }
{
    cursor.take(context, Class::Punct(Punctuator::Equal))?;
    let value = expr(cursor, depth, EXPRESSION_LEVEL, context)?;
    Ok(Init::Value(value))
}

/// `"{" [ exprs ] "}"`
#[tactic(auto, unfolding(cx_productions::specs::Statements::list_init))]
fn list_init<'s>(
    cursor: &mut Cursor<'_, 's>,
    depth: u32,
    context: Context,
) -> Result<Init<'s>, Stopped>
    ensures { Reads init_tree (statements.list_init (levels depth) context) cursor.old result cursor.new }
{
    let opening = cursor.take(context.deeper(), Class::Punct(Punctuator::LeftBrace))?;
    let items = expr_list(
        cursor,
        depth,
        Class::Punct(Punctuator::RightBrace),
        context.inside(),
    )?;
    cursor.take(context.deeper(), Class::Punct(Punctuator::RightBrace))?;
    let node = cursor.number()?;
    Ok(Init::List {
        node,
        at: opening.token.at,
        items,
    })
}

/// An initialiser: `"=" expr`, or a list in braces.
#[tactic(auto, unfolding(cx_productions::specs::Statements::init))]
pub fn init<'s>(
    cursor: &mut Cursor<'_, 's>,
    depth: u32,
    context: Context,
) -> Result<Init<'s>, Stopped>
    ensures { Reads init_tree (statements.init (levels depth) context) cursor.old result cursor.new }
{
    if cursor.begins(Class::Punct(Punctuator::LeftBrace)) {
        list_init(cursor, depth, context)
    } else {
        value_init(cursor, depth, context)
    }
}
