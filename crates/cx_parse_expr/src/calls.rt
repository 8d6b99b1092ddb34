//! What the parsers of other crates call: each reads a production from a spot on.

ghost use Rattle.std.specs.Prelude.{◌≡◌, ◌<◌, ◌≤◌, ◌+◌, ◌^◌, map};
ghost use Rattle.cx_tree.specs.Trees.{expr_tree, type_tree, argument_tree};
ghost use Rattle.cx_grammar.specs.Expressions as expressions;
ghost use Rattle.cx_grammar.specs.Types as types;
ghost use Rattle.cx_spots.specs.Spots.{ReadsNode, Lightens, weight, context_of, at, below};
ghost use Rattle.cx_spots.specs.Views.{placed_core};
ghost use Rattle.cx_parse_expr.specs.Views.{calling_of};

use crate::arguments::argument_list;
use crate::clause::clause;
use crate::deeper::core;
use crate::engine::read;
use crate::expression::{expr_behind, expr_here};
use crate::lists::exprs_until;
use crate::postfix::tail_here;
use crate::primary::{Calling, behind_core, behind_head};
use crate::types::type_here;
use cx_spots::{Context, Cored, Read, Spot};
use cx_tree::{Expr, TemplateArgument, TypeSyn};

/// Reads an expression ([expr]).
pub fn read_expr<'t, 's>(context: Context<'_, 's>, spot: Spot<'t, 's>) -> Read<'t, 's, Expr<'s>>
    requires load { context.load ≤ 257 }
    requires room { weight spot < 2 ^ 32 }
    ensures exact { ReadsNode expr_tree (expressions.expr (below (context_of context.entry)) (context_of context.entry)) spot.entry result }
    ensures asked { ReadsNode expr_tree ((at (context_of context.entry)).expr (context_of context.entry)) spot.entry result }
    ensures lightens { Lightens 4 spot.entry result }
{
    expr_here(&read, context, spot)
}

/// Reads a type ([dcl.type]).
pub fn read_type<'t, 's>(context: Context<'_, 's>, spot: Spot<'t, 's>) -> Read<'t, 's, TypeSyn<'s>>
    requires load { context.load ≤ 257 }
    requires room { weight spot < 2 ^ 32 }
    ensures exact { ReadsNode type_tree (types.type_id (below (context_of context.entry)) (context_of context.entry)) spot.entry result }
    ensures asked { ReadsNode type_tree ((at (context_of context.entry)).type (context_of context.entry)) spot.entry result }
    ensures lightens { Lightens 4 spot.entry result }
{
    type_here(&read, context, spot)
}

/// Reads the clause of a requires ([temp.pre]).
pub fn read_clause<'t, 's>(context: Context<'_, 's>, spot: Spot<'t, 's>) -> Read<'t, 's, Expr<'s>>
    requires load { context.load ≤ 257 }
    requires room { weight spot < 2 ^ 32 }
    ensures exact { ReadsNode expr_tree (expressions.clause (below (context_of context.entry)) (context_of context.entry)) spot.entry result }
    ensures lightens { Lightens 4 spot.entry result }
{
    clause(context, spot)
}

/// Reads a core: a type without its `const` and `&`.
pub fn read_core<'t, 's>(context: Context<'_, 's>, spot: Spot<'t, 's>) -> Read<'t, 's, Cored<'s>>
    requires load { context.load ≤ 258 }
    requires room { weight spot < 2 ^ 32 }
    ensures exact { ReadsNode placed_core ((at (context_of context.entry)).core (context_of context.entry)) spot.entry result }
    ensures lightens { Lightens 8 spot.entry result }
{
    core(&read, context, spot)
}

/// Reads none or more expressions, up to what closes their list.
pub fn read_exprs_until<'t, 's>(
    context: Context<'_, 's>,
    closing: &str,
    spot: Spot<'t, 's>,
) -> Read<'t, 's, Vec<Expr<'s>>>
    requires load { context.load ≤ 257 }
    requires room { weight spot < 2 ^ 32 }
    ensures exact { ReadsNode (λ v. map expr_tree v.items) (expressions.exprs_until closing.now (at (context_of context.entry)) (context_of context.entry)) spot.entry result }
    ensures lightens { Lightens 0 spot.entry result }
{
    exprs_until(&read, context, closing, spot)
}

/// Reads one or more template arguments between `<` and `>` ([temp.names]).
pub fn read_argument_list<'t, 's>(
    context: Context<'_, 's>,
    spot: Spot<'t, 's>,
) -> Read<'t, 's, Vec<TemplateArgument<'s>>>
    requires load { context.load ≤ 258 }
    requires room { weight spot < 2 ^ 32 }
    ensures exact { ReadsNode (λ v. map argument_tree v.items) (types.argument_list (below (context_of context.entry)) (context_of context.entry)) spot.entry result }
    ensures lightens { Lightens 4 spot.entry result }
{
    argument_list(&read, context, spot)
}

/// Reads what makes an expression of its first operand.
pub fn read_expr_behind<'t, 's>(
    context: Context<'_, 's>,
    operand: Expr<'s>,
    spot: Spot<'t, 's>,
) -> Read<'t, 's, Expr<'s>>
    requires load { context.load ≤ 257 }
    requires room { weight spot < 2 ^ 32 }
    ensures exact { ReadsNode expr_tree (λ n. expressions.expr_behind (below (context_of context.entry)) (context_of context.entry) (expr_tree operand.entry, n)) spot.entry result }
    ensures lightens { Lightens 0 spot.entry result }
{
    expr_behind(&read, context, operand, spot)
}

/// Reads the postfix operators behind an operand ([expr.post]).
pub fn read_tail<'t, 's>(
    context: Context<'_, 's>,
    calling: Calling,
    operand: Expr<'s>,
    spot: Spot<'t, 's>,
) -> Read<'t, 's, Expr<'s>>
    requires load { context.load ≤ 257 }
    requires room { weight spot < 2 ^ 32 }
    ensures exact { ReadsNode expr_tree (λ n. expressions.tail (below (context_of context.entry)) (calling_of calling) (context_of context.entry) (expr_tree operand.entry, n)) spot.entry result }
    ensures lightens { Lightens 0 spot.entry result }
{
    tail_here(&read, context, calling, operand, spot)
}

/// Reads what makes an expression of a core: a list in braces.
pub fn read_behind_core<'t, 's>(
    context: Context<'_, 's>,
    core: Cored<'s>,
    spot: Spot<'t, 's>,
) -> Read<'t, 's, Expr<'s>>
    requires load { context.load ≤ 257 }
    requires room { weight spot + 1 < 2 ^ 32 }
    ensures exact { ReadsNode expr_tree (λ n. expressions.behind_core (below (context_of context.entry)) (context_of context.entry) (placed_core core.entry, n)) spot.entry result }
    ensures lightens { Lightens 4 spot.entry result }
{
    behind_core(&read, context, core, spot)
}

/// Reads what makes an expression of the name of a type or a class template with arguments: a list in braces, or names.
pub fn read_behind_head<'t, 's>(
    context: Context<'_, 's>,
    core: Cored<'s>,
    spot: Spot<'t, 's>,
) -> Read<'t, 's, Expr<'s>>
    requires load { context.load ≤ 257 }
    requires room { weight spot + 1 < 2 ^ 32 }
    ensures exact { ReadsNode expr_tree (λ n. expressions.behind_head (below (context_of context.entry)) (context_of context.entry) (placed_core core.entry, n)) spot.entry result }
    ensures lightens { Lightens 4 spot.entry result }
{
    behind_head(&read, context, core, spot)
}
