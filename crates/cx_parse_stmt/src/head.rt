//! The head of a `for` ([stmt.for]).

ghost use Rattle.std.specs.Prelude.{◌≡◌, ◌<◌, ◌≤◌, ◌+◌, ◌^◌, codes, length, map, IfOk, OnOk, OnErr, IsErrOf};
ghost use Rattle.cx_base.specs.declared.stop.Stop.TheVariants.{NoMemory};
ghost use Rattle.cx_statements.specs.StatementViews.{for_init};
ghost use Rattle.cx_scope.specs.Frames.{left};
ghost use Rattle.cx_grammar.specs.Statements as statements;
ghost use Rattle.cx_spots.specs.Spots.{Lightens, weight, context_of, left_at, below};
ghost use Rattle.cx_parse_stmt.specs.Within.{ReadsNamed, standing};
ghost use Rattle.cx_parse_stmt.specs.Views.{names_of_init, for_head_tree};

use crate::jump::maybe_expr;
use crate::open::open_stmt;
use crate::opened::Opened;
use cx_base::Stop;
use cx_scope::{NameKind, Scope};
use cx_spots::{Class, Context, Read, Spot};
use cx_statements::ForInit;
use cx_tree::Expr;
use std::alloc::Global;

/// What stands in the parentheses of a `for`.
#[derive(Drop)]
pub(crate) struct ForHead<'s> {
    pub(crate) init: ForInit<'s>,
    pub(crate) condition: Option<Expr<'s>>,
    pub(crate) step: Option<Expr<'s>>,
}

/// The spot before a node that is not made after all.
fn without_node<'t, 's>(spot: Spot<'t, 's>, node: u32) -> Spot<'t, 's>
    ensures next { result.next ≡ node }
    ensures left { left_at result ≡ left_at spot.entry }
{
    Spot {
        tokens: spot.tokens,
        half: spot.half,
        next: node,
    }
}

/// What stands first, up to its `;`. An expression is no statement of its own there.
#[tactic(auto, unfolding(cx_grammar::specs::Statements::for_init))]
fn for_init<'t, 's>(context: Context<'_, 's>, spot: Spot<'t, 's>) -> Read<'t, 's, ForInit<'s>>
    requires load { context.load ≤ 257 }
    requires room { weight spot < 2 ^ 32 }
    ensures exact { ReadsNamed for_init (λ i. names_of_init context.entry.scope.now (for_init i)) (statements.for_init (below (context_of context.entry)) (context_of context.entry)) spot.entry result }
    ensures lightens { Lightens 4 spot.entry result }
{
    if spot.begins(context, Class::Punct(";")) {
        let (_, spot) = spot.take(context, context.load, Class::Punct(";"))?;
        return Ok((ForInit::Nothing, spot));
    }
    let (first, spot) = open_stmt(context, spot)?;
    match first {
        Opened::Variable(variable) => Ok((ForInit::Variable(variable), spot)),
        Opened::Expression { node, expr, .. } => {
            Ok((ForInit::Expression(expr), without_node(spot, node.0)))
        }
    }
}

/// Notes the name of a variable that stands first.
fn note_init<'s>(scope: &mut Scope<'s>, init: &ForInit<'s>) -> Result<(), Stop>
    requires { 0 < length scope.old }
    ensures ok { OnOk result (scope.new ≡ names_of_init scope.old (for_init init.now)) }
    ensures depth { length scope.new ≡ length scope.old }
    ensures only_memory { OnErr result (IsErrOf result NoMemory) }
{
    match init {
        ForInit::Variable(variable) => scope.note(variable.name, NameKind::Value),
        ForInit::Nothing => Ok(()),
        ForInit::Expression(_) => Ok(()),
    }
}

/// What stands in the parentheses. The name of a variable is then noted.
#[tactic(auto, unfolding(cx_grammar::specs::Statements::for_head))]
pub(crate) fn for_head<'t, 's>(
    alloc: Global,
    scope: &mut Scope<'s>,
    load: u32,
    spot: Spot<'t, 's>,
) -> Read<'t, 's, ForHead<'s>>
    requires load { load ≤ 257 }
    requires room { weight spot < 2 ^ 32 }
    requires frame { 0 < length scope.old }
    ensures exact { ReadsNamed for_head_tree (λ h. scope.new) (statements.for_head (below (standing scope.old load)) (standing scope.old load)) spot.entry result }
    ensures outer { IfOk result (λ x. left scope.new ≡ left scope.old) }
    ensures depth { IfOk result (λ x. length scope.new ≡ length scope.old) }
    ensures lightens { Lightens 4 spot.entry result }
{
    let context = Context {
        alloc,
        scope: &*scope,
        angle: 0,
        load,
    };
    let (init, spot) = for_init(context, spot)?;
    note_init(scope, &init)?;
    let context = Context {
        alloc,
        scope: &*scope,
        angle: 0,
        load,
    };
    let (condition, spot) = maybe_expr(context, ";", spot)?;
    let (_, spot) = spot.take(context, load, Class::Punct(";"))?;
    let (step, spot) = maybe_expr(context, ")", spot)?;
    Ok((
        ForHead {
            init,
            condition,
            step,
        },
        spot,
    ))
}
