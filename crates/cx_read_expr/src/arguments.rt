//! Template arguments ([temp.arg]), and lists of them ([temp.names]).

ghost use Rattle.std.specs.Prelude.{[], ◌∷◌, map};
ghost use Rattle.cx_tokens.specs.declared.punctuator.Punctuator.TheVariants as punctuator;
ghost use Rattle.cx_syntax.specs.Classes.{punct};
ghost use Rattle.cx_syntax.specs.Combinators.{one_more, separated};
ghost use Rattle.cx_syntax.specs.Productions.{repeat};
ghost use Rattle.cx_cursor.specs.Reads.{Reads};
ghost use Rattle.cx_trees.specs.Views.{argument_tree};
ghost use Rattle.cx_productions.specs.Arguments as arguments;
ghost use Rattle.cx_productions.specs.Levels.{levels};
ghost use Rattle.cx_productions.specs.Types as types;
ghost use Rattle.cx_read_expr.specs.Parts.{all_arguments, boxed_expr, placed_core};

use crate::below::argument_below;
use crate::cores::{PlacedCore, core, head_core};
use crate::expressions::{expr, expr_of};
use crate::operands::Operand;
use crate::precedence::EXPRESSION_LEVEL;
use crate::scalars::{long_core, scalar_after, scalar_at, scalar_of_word};
use crate::typed::{after_head, list_after};
use crate::types::{const_type, type_after};
use cx_cursor::{Class, Cursor};
use cx_productions::Calling;
use cx_syntax::{Context, Stopped};
use cx_tokens::{Punctuator, Word};
use cx_trees::{Expr, TemplateArgument};

/// `,` and one argument more.
#[cycle(reading)]
fn more_argument<'s>(
    cursor: &mut Cursor<'_, 's>,
    depth: u32,
    so_far: Vec<TemplateArgument<'s>>,
    context: Context,
) -> Result<Vec<TemplateArgument<'s>>, Stopped>
    ensures { Reads all_arguments (one_more context ((levels depth).argument context) (map argument_tree so_far.entry.items)) cursor.old result cursor.new }
{
    cursor.take(context, Class::Punct(Punctuator::Comma))?;
    let argument = argument_below(cursor, depth, context)?;
    let mut arguments = so_far;
    arguments.push(argument)?;
    Ok(arguments)
}

/// Any number of arguments more.
#[cycle(reading)]
fn arguments_after<'s>(
    cursor: &mut Cursor<'_, 's>,
    depth: u32,
    so_far: Vec<TemplateArgument<'s>>,
    context: Context,
) -> Result<Vec<TemplateArgument<'s>>, Stopped>
    ensures { Reads all_arguments (repeat (λ so_far. punct punctuator.Comma) (one_more context ((levels depth).argument context)) (map argument_tree so_far.entry.items)) cursor.old result cursor.new }
{
    let mut arguments = so_far;
    'turns: while cursor.begins(Class::Punct(Punctuator::Comma)) {
        arguments = more_argument(cursor, depth, arguments, context)?;
    }
    Ok(arguments)
}

/// One argument or more.
#[cycle(reading)]
fn arguments<'s>(
    cursor: &mut Cursor<'_, 's>,
    depth: u32,
    context: Context,
) -> Result<Vec<TemplateArgument<'s>>, Stopped>
    ensures { Reads all_arguments (separated context ((levels depth).argument context)) cursor.old result cursor.new }
{
    let first = argument_below(cursor, depth, context)?;
    let mut arguments: Vec<TemplateArgument<'s>> = Vec::new(cursor.alloc());
    arguments.push(first)?;
    arguments_after(cursor, depth, arguments, context)
}

/// `<`, one argument or more, and `>`, which may be a half of `>>`.
#[cycle(reading)]
#[tactic(auto, unfolding(cx_productions::specs::Types::argument_list))]
pub fn argument_list<'s>(
    cursor: &mut Cursor<'_, 's>,
    depth: u32,
    context: Context,
) -> Result<Vec<TemplateArgument<'s>>, Stopped>
    ensures { Reads all_arguments (types.argument_list (levels depth) context) cursor.old result cursor.new }
{
    let inner = context.listed();
    cursor.take(context.deeper(), Class::Punct(Punctuator::Less))?;
    let arguments = arguments(cursor, depth, inner)?;
    cursor.take(context.deeper(), Class::Closing(inner.lists))?;
    Ok(arguments)
}

/// An expression whose first operand, which is not called, is read.
#[cycle(reading)]
#[tactic(auto, unfolding(cx_productions::specs::Arguments::value_of_operand))]
fn value_of_operand<'s>(
    cursor: &mut Cursor<'_, 's>,
    depth: u32,
    operand: Box<Expr<'s>>,
    context: Context,
) -> Result<TemplateArgument<'s>, Stopped>
    ensures { Reads argument_tree (arguments.value_of_operand (levels depth) context (boxed_expr operand.entry)) cursor.old result cursor.new }
{
    let operand = Operand {
        tree: operand,
        calling: Calling::Never,
    };
    let expr = expr_of(cursor, depth, operand, context)?;
    Ok(TemplateArgument::Value(expr))
}

/// A type whose core is read.
#[tactic(auto, unfolding(cx_productions::specs::Arguments::type_of_core))]
fn type_of_core<'s>(
    cursor: &mut Cursor<'_, 's>,
    core: PlacedCore<'s>,
    context: Context,
) -> Result<TemplateArgument<'s>, Stopped>
    ensures { Reads argument_tree (arguments.type_of_core context (placed_core core.entry)) cursor.old result cursor.new }
{
    let at = core.at;
    let syn = type_after(cursor, at, false, core, context)?;
    Ok(TemplateArgument::Type(syn))
}

/// What comes after a core: a list in braces makes it an expression.
#[cycle(reading)]
#[tactic(auto, unfolding(cx_productions::specs::Arguments::core_argument_after))]
fn core_argument_after<'s>(
    cursor: &mut Cursor<'_, 's>,
    depth: u32,
    core: PlacedCore<'s>,
    context: Context,
) -> Result<TemplateArgument<'s>, Stopped>
    ensures { Reads argument_tree (arguments.core_argument_after (levels depth) context (placed_core core.entry)) cursor.old result cursor.new }
{
    if !cursor.begins(Class::Punct(Punctuator::LeftBrace)) {
        return type_of_core(cursor, core, context);
    }
    let operand = list_after(cursor, depth, core, context)?;
    value_of_operand(cursor, depth, operand, context)
}

/// What comes after a head: names make it an expression too.
#[cycle(reading)]
#[tactic(auto, unfolding(cx_productions::specs::Arguments::head_argument_after))]
fn head_argument_after<'s>(
    cursor: &mut Cursor<'_, 's>,
    depth: u32,
    core: PlacedCore<'s>,
    context: Context,
) -> Result<TemplateArgument<'s>, Stopped>
    ensures { Reads argument_tree (arguments.head_argument_after (levels depth) context (placed_core core.entry)) cursor.old result cursor.new }
{
    if !cursor.begins(Class::AfterHead) {
        return type_of_core(cursor, core, context);
    }
    let operand = after_head(cursor, depth, core, context)?;
    value_of_operand(cursor, depth, operand, context)
}

/// An argument that begins with the name of a type or of a class template.
#[cycle(reading)]
#[tactic(auto, unfolding(cx_productions::specs::Arguments::head_argument))]
fn head_argument<'s>(
    cursor: &mut Cursor<'_, 's>,
    depth: u32,
    context: Context,
) -> Result<TemplateArgument<'s>, Stopped>
    ensures { Reads argument_tree (arguments.head_argument (levels depth) context) cursor.old result cursor.new }
{
    let core = head_core(cursor, depth, context.deeper())?;
    head_argument_after(cursor, depth, core, context)
}

/// An argument that begins with another core that is no scalar.
#[cycle(reading)]
#[tactic(auto, unfolding(cx_productions::specs::Arguments::core_argument))]
fn core_argument<'s>(
    cursor: &mut Cursor<'_, 's>,
    depth: u32,
    context: Context,
) -> Result<TemplateArgument<'s>, Stopped>
    ensures { Reads argument_tree (arguments.core_argument (levels depth) context) cursor.old result cursor.new }
{
    let core = core(cursor, depth, context.deeper())?;
    core_argument_after(cursor, depth, core, context)
}

/// An argument that begins with a scalar, which of one word may be the type of a list.
#[cycle(reading)]
#[tactic(auto, unfolding(cx_productions::specs::Arguments::scalar_argument))]
fn scalar_argument<'s>(
    cursor: &mut Cursor<'_, 's>,
    depth: u32,
    context: Context,
) -> Result<TemplateArgument<'s>, Stopped>
    ensures { Reads argument_tree (arguments.scalar_argument (levels depth) context) cursor.old result cursor.new }
{
    let word = cursor.take(context.deeper(), Class::ScalarWord)?;
    if cursor.begins(Class::Punct(Punctuator::LeftBrace)) {
        let core = scalar_at(cursor.alloc(), word, scalar_of_word(word))?;
        let operand = list_after(cursor, depth, core, context)?;
        return value_of_operand(cursor, depth, operand, context);
    }
    let scalar = scalar_after(cursor, word, context.deeper())?;
    let core = scalar_at(cursor.alloc(), word, scalar)?;
    type_of_core(cursor, core, context)
}

/// An argument that begins with `long`.
#[tactic(auto, unfolding(cx_productions::specs::Arguments::long_argument))]
fn long_argument<'s>(
    cursor: &mut Cursor<'_, 's>,
    context: Context,
) -> Result<TemplateArgument<'s>, Stopped>
    ensures { Reads argument_tree (arguments.long_argument context) cursor.old result cursor.new }
{
    let core = long_core(cursor, context.deeper())?;
    type_of_core(cursor, core, context)
}

/// An argument that begins with `const`.
#[cycle(reading)]
#[tactic(auto, unfolding(cx_productions::specs::Arguments::const_argument))]
fn const_argument<'s>(
    cursor: &mut Cursor<'_, 's>,
    depth: u32,
    context: Context,
) -> Result<TemplateArgument<'s>, Stopped>
    ensures { Reads argument_tree (arguments.const_argument (levels depth) context) cursor.old result cursor.new }
{
    let syn = const_type(cursor, depth, context)?;
    Ok(TemplateArgument::Type(syn))
}

/// An argument that is an expression by its first token.
#[cycle(reading)]
#[tactic(auto, unfolding(cx_productions::specs::Arguments::value_argument))]
fn value_argument<'s>(
    cursor: &mut Cursor<'_, 's>,
    depth: u32,
    context: Context,
) -> Result<TemplateArgument<'s>, Stopped>
    ensures { Reads argument_tree (arguments.value_argument (levels depth) context) cursor.old result cursor.new }
{
    let expr = expr(cursor, depth, EXPRESSION_LEVEL, context)?;
    Ok(TemplateArgument::Value(expr))
}

/// A template argument: a type, or an expression.
#[cycle(reading)]
#[tactic(auto, unfolding(cx_productions::specs::Arguments::argument))]
pub(crate) fn argument<'s>(
    cursor: &mut Cursor<'_, 's>,
    depth: u32,
    context: Context,
) -> Result<TemplateArgument<'s>, Stopped>
    ensures { Reads argument_tree (arguments.argument (levels depth) context) cursor.old result cursor.new }
{
    if cursor.begins(Class::Word(Word::Const)) {
        const_argument(cursor, depth, context)
    } else if cursor.begins(Class::HeadName) {
        head_argument(cursor, depth, context)
    } else if cursor.begins(Class::CoreWord) {
        core_argument(cursor, depth, context)
    } else if cursor.begins(Class::ScalarWord) {
        scalar_argument(cursor, depth, context)
    } else if cursor.begins(Class::Word(Word::Long)) {
        long_argument(cursor, context)
    } else {
        value_argument(cursor, depth, context)
    }
}
