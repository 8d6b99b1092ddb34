//! The clause of a requires ([temp.pre], [expr.log.and], [expr.log.or]).

ghost use Rattle.cx_syntax.specs.declared.operators.BinaryOperator.TheVariants as binary;
ghost use Rattle.cx_tokens.specs.declared.punctuator.Punctuator.TheVariants as punctuator;
ghost use Rattle.cx_syntax.specs.Classes.{punct};
ghost use Rattle.cx_syntax.specs.Productions.{repeat};
ghost use Rattle.cx_cursor.specs.Reads.{Reads};
ghost use Rattle.cx_productions.specs.Clauses as clauses;
ghost use Rattle.cx_productions.specs.Expressions as expressions;
ghost use Rattle.cx_productions.specs.Levels.{levels};
ghost use Rattle.cx_read_expr.specs.Parts.{boxed_expr, operand_of, chain_of};

use crate::binary::Chain;
use crate::cores::head_core;
use crate::operands::Operand;
use crate::postfix::must_call;
use crate::primaries::simple_primary;
use crate::typed::names_after;
use cx_cursor::{Class, Cursor, boxed};
use cx_syntax::{BinaryOperator, Context, Stopped};
use cx_tokens::Punctuator;
use cx_trees::Expr;

/// What must be called cannot be an operand: no token fits after it.
#[tactic(auto, unfolding(cx_productions::specs::Clauses::uncalled))]
fn uncalled<'s>(
    cursor: &mut Cursor<'_, 's>,
    operand: Operand<'s>,
    context: Context,
) -> Result<Box<Expr<'s>>, Stopped>
    ensures { Reads boxed_expr (clauses.uncalled context (operand_of operand.entry)) cursor.old result cursor.new }
{
    if must_call(operand.calling) {
        cursor.take(context, Class::Nothing)?;
    }
    Ok(operand.tree)
}

/// A head and names.
#[tactic(auto, unfolding(cx_productions::specs::Clauses::head_operand))]
fn head_operand<'s>(
    cursor: &mut Cursor<'_, 's>,
    depth: u32,
    context: Context,
) -> Result<Box<Expr<'s>>, Stopped>
    ensures { Reads boxed_expr (clauses.head_operand (levels depth) context) cursor.old result cursor.new }
{
    let core = head_core(cursor, depth, context.deeper())?;
    names_after(cursor, core, context)
}

/// Another operand.
#[tactic(auto, unfolding(cx_productions::specs::Clauses::simple_operand))]
fn simple_operand<'s>(
    cursor: &mut Cursor<'_, 's>,
    depth: u32,
    context: Context,
) -> Result<Box<Expr<'s>>, Stopped>
    ensures { Reads boxed_expr (clauses.simple_operand (levels depth) context) cursor.old result cursor.new }
{
    let operand = simple_primary(cursor, depth, context)?;
    uncalled(cursor, operand, context)
}

/// An operand.
#[tactic(auto, unfolding(cx_productions::specs::Clauses::clause_operand))]
fn clause_operand<'s>(
    cursor: &mut Cursor<'_, 's>,
    depth: u32,
    context: Context,
) -> Result<Box<Expr<'s>>, Stopped>
    ensures { Reads boxed_expr (clauses.clause_operand (levels depth) context) cursor.old result cursor.new }
{
    if cursor.begins(Class::HeadName) {
        head_operand(cursor, depth, context)
    } else {
        simple_operand(cursor, depth, context)
    }
}

/// `&&` and an operand more.
#[tactic(auto, unfolding(cx_productions::specs::Expressions::chain_turn, cx_productions::specs::Clauses::clause_operator))]
fn and_turn<'s>(
    cursor: &mut Cursor<'_, 's>,
    depth: u32,
    so_far: Chain<'s>,
) -> Result<Chain<'s>, Stopped>
    ensures { Reads chain_of (expressions.chain_turn (clauses.clause_operator punctuator.AmpersandAmpersand binary.And) (clauses.clause_operand (levels depth)) (chain_of so_far.entry)) cursor.old result cursor.new }
{
    let within = so_far.within;
    cursor.take(within, Class::Punct(Punctuator::AmpersandAmpersand))?;
    let right = clause_operand(cursor, depth, within.deeper())?;
    let node = cursor.number()?;
    let conjunction = Expr::Binary {
        node,
        at: so_far.tree.at(),
        operator: BinaryOperator::And,
        left: so_far.tree,
        right,
    };
    let tree = boxed(cursor.alloc(), conjunction)?;
    Ok(Chain {
        tree,
        within: within.deeper(),
    })
}

/// Any number of `&&` and operands more.
fn and_turns<'s>(
    cursor: &mut Cursor<'_, 's>,
    depth: u32,
    so_far: Chain<'s>,
) -> Result<Chain<'s>, Stopped>
    ensures { Reads chain_of (repeat (λ x. punct punctuator.AmpersandAmpersand) (expressions.chain_turn (clauses.clause_operator punctuator.AmpersandAmpersand binary.And) (clauses.clause_operand (levels depth))) (chain_of so_far.entry)) cursor.old result cursor.new }
{
    let mut chain = so_far;
    'turns: while cursor.begins(Class::Punct(Punctuator::AmpersandAmpersand)) {
        chain = and_turn(cursor, depth, chain)?;
    }
    Ok(chain)
}

/// Operands joined by `&&`.
#[tactic(auto, unfolding(cx_productions::specs::Clauses::conjunction))]
fn conjunction<'s>(
    cursor: &mut Cursor<'_, 's>,
    depth: u32,
    context: Context,
) -> Result<Box<Expr<'s>>, Stopped>
    ensures { Reads boxed_expr (clauses.conjunction (levels depth) context) cursor.old result cursor.new }
{
    let tree = clause_operand(cursor, depth, context)?;
    let within = context;
    let chain = and_turns(cursor, depth, Chain { tree, within })?;
    Ok(chain.tree)
}

/// `||` and a conjunction more.
#[tactic(auto, unfolding(cx_productions::specs::Expressions::chain_turn, cx_productions::specs::Clauses::clause_operator))]
fn or_turn<'s>(
    cursor: &mut Cursor<'_, 's>,
    depth: u32,
    so_far: Chain<'s>,
) -> Result<Chain<'s>, Stopped>
    ensures { Reads chain_of (expressions.chain_turn (clauses.clause_operator punctuator.BarBar binary.Or) (clauses.conjunction (levels depth)) (chain_of so_far.entry)) cursor.old result cursor.new }
{
    let within = so_far.within;
    cursor.take(within, Class::Punct(Punctuator::BarBar))?;
    let right = conjunction(cursor, depth, within.deeper())?;
    let node = cursor.number()?;
    let disjunction = Expr::Binary {
        node,
        at: so_far.tree.at(),
        operator: BinaryOperator::Or,
        left: so_far.tree,
        right,
    };
    let tree = boxed(cursor.alloc(), disjunction)?;
    Ok(Chain {
        tree,
        within: within.deeper(),
    })
}

/// Any number of `||` and conjunctions more.
fn or_turns<'s>(
    cursor: &mut Cursor<'_, 's>,
    depth: u32,
    so_far: Chain<'s>,
) -> Result<Chain<'s>, Stopped>
    ensures { Reads chain_of (repeat (λ x. punct punctuator.BarBar) (expressions.chain_turn (clauses.clause_operator punctuator.BarBar binary.Or) (clauses.conjunction (levels depth))) (chain_of so_far.entry)) cursor.old result cursor.new }
{
    let mut chain = so_far;
    'turns: while cursor.begins(Class::Punct(Punctuator::BarBar)) {
        chain = or_turn(cursor, depth, chain)?;
    }
    Ok(chain)
}

/// The clause of a requires: conjunctions joined by `||`.
#[tactic(auto, unfolding(cx_productions::specs::Clauses::clause))]
pub fn clause<'s>(
    cursor: &mut Cursor<'_, 's>,
    depth: u32,
    context: Context,
) -> Result<Box<Expr<'s>>, Stopped>
    ensures { Reads boxed_expr (clauses.clause (levels depth) context) cursor.old result cursor.new }
{
    let tree = conjunction(cursor, depth, context)?;
    let within = context;
    let chain = or_turns(cursor, depth, Chain { tree, within })?;
    Ok(chain.tree)
}
