//! Postfix expressions ([expr.post]).

ghost use Rattle.std.specs.Prelude.{◌≡◌};
ghost use Rattle.cx_syntax.specs.Productions.{begins};
ghost use Rattle.cx_cursor.specs.Reads.{Reads};
ghost use Rattle.cx_productions.specs.Expressions as expressions;
ghost use Rattle.cx_productions.specs.Levels.{levels};
ghost use Rattle.cx_read_expr.specs.Parts.{boxed_expr, operand_of, postfix_of};

use crate::lists::expr_list;
use crate::operands::Operand;
use crate::primaries::primary;
use cx_cursor::{Class, Cursor, boxed};
use cx_productions::Calling;
use cx_syntax::{Context, Stopped};
use cx_tokens::Punctuator;
use cx_trees::Expr;

/// A chain of postfix operators so far, whether a call may follow, and where its next operator stands.
#[derive(Drop)]
pub struct Postfix<'s> {
    pub(crate) tree: Box<Expr<'s>>,
    pub(crate) calling: Calling,
    pub(crate) within: Context,
}

/// A member of an object ([expr.ref]).
#[tactic(auto, unfolding(cx_productions::specs::Expressions::member_access))]
fn member_access<'s>(
    cursor: &mut Cursor<'_, 's>,
    so_far: Postfix<'s>,
) -> Result<Postfix<'s>, Stopped>
    ensures { Reads postfix_of (expressions.member_access (postfix_of so_far.entry)) cursor.old result cursor.new }
{
    let within = so_far.within;
    cursor.take(within, Class::Punct(Punctuator::Dot))?;
    let name = cursor.take(within.deeper(), Class::Name)?;
    let node = cursor.number()?;
    let member = Expr::Member {
        node,
        at: so_far.tree.at(),
        object: so_far.tree,
        name: name.token.text,
    };
    let tree = boxed(cursor.alloc(), member)?;
    Ok(Postfix {
        tree,
        calling: Calling::May,
        within: within.deeper(),
    })
}

/// A call ([expr.call]).
#[cycle(reading)]
#[tactic(auto, unfolding(cx_productions::specs::Expressions::call))]
fn call<'s>(
    cursor: &mut Cursor<'_, 's>,
    depth: u32,
    so_far: Postfix<'s>,
) -> Result<Postfix<'s>, Stopped>
    ensures { Reads postfix_of (expressions.call (levels depth) (postfix_of so_far.entry)) cursor.old result cursor.new }
{
    let within = so_far.within;
    let close = Class::Punct(Punctuator::RightParenthesis);
    cursor.take(within.deeper(), Class::Punct(Punctuator::LeftParenthesis))?;
    let arguments = expr_list(cursor, depth, close, within.inside())?;
    cursor.take(within.deeper(), close)?;
    let node = cursor.number()?;
    let call = Expr::Call {
        node,
        at: so_far.tree.at(),
        callee: so_far.tree,
        arguments,
    };
    let tree = boxed(cursor.alloc(), call)?;
    Ok(Postfix {
        tree,
        calling: Calling::Never,
        within: within.deeper(),
    })
}

/// `++` or `--` ([expr.post.incr]).
#[tactic(auto, unfolding(cx_productions::specs::Expressions::postfix_step))]
fn postfix_step<'s>(
    cursor: &mut Cursor<'_, 's>,
    so_far: Postfix<'s>,
) -> Result<Postfix<'s>, Stopped>
    ensures { Reads postfix_of (expressions.postfix_step (postfix_of so_far.entry)) cursor.old result cursor.new }
{
    let within = so_far.within;
    let sign = cursor.take(within, Class::Postfix)?;
    let node = cursor.number()?;
    let step = Expr::Postfix {
        node,
        at: so_far.tree.at(),
        operator: sign.postfix_operator(),
        operand: so_far.tree,
    };
    let tree = boxed(cursor.alloc(), step)?;
    Ok(Postfix {
        tree,
        calling: Calling::Never,
        within: within.deeper(),
    })
}

/// Whether a call may follow.
fn may_call(calling: Calling) -> bool
    ensures { result ≡ expressions.may_call calling }
{
    match calling {
        Calling::Never => false,
        Calling::May | Calling::Must => true,
    }
}

/// Whether a call must follow.
pub(crate) fn must_call(calling: Calling) -> bool
    ensures { result ≡ expressions.must_call calling }
{
    match calling {
        Calling::Never | Calling::May => false,
        Calling::Must => true,
    }
}

/// Whether a call follows.
#[tactic(auto, using(cx_cursor::proofs::Heads::begins_where))]
fn opens_call(cursor: &Cursor<'_, '_>, so_far: &Postfix<'_>) -> bool
    ensures { result ≡ begins (expressions.opens_call (postfix_of so_far.now)) cursor.now }
{
    may_call(so_far.calling) && cursor.begins(Class::Punct(Punctuator::LeftParenthesis))
}

/// Whether a chain goes on.
#[tactic(auto, using(cx_cursor::proofs::Heads::begins_or))]
fn continues_postfix(cursor: &Cursor<'_, '_>, so_far: &Postfix<'_>) -> bool
    ensures { result ≡ begins (expressions.continues_postfix (postfix_of so_far.now)) cursor.now }
{
    opens_call(cursor, so_far)
        || cursor.begins(Class::Punct(Punctuator::Dot))
        || cursor.begins(Class::Postfix)
}

/// One operator more.
#[cycle(reading)]
#[tactic(auto, unfolding(cx_productions::specs::Expressions::postfix_turn))]
fn postfix_turn<'s>(
    cursor: &mut Cursor<'_, 's>,
    depth: u32,
    so_far: Postfix<'s>,
) -> Result<Postfix<'s>, Stopped>
    ensures { Reads postfix_of (expressions.postfix_turn (levels depth) (postfix_of so_far.entry)) cursor.old result cursor.new }
{
    if opens_call(cursor, &so_far) {
        call(cursor, depth, so_far)
    } else if cursor.begins(Class::Punct(Punctuator::Dot)) {
        member_access(cursor, so_far)
    } else {
        postfix_step(cursor, so_far)
    }
}

/// A call, where one must follow.
#[cycle(reading)]
#[tactic(auto, unfolding(cx_productions::specs::Expressions::needed_call))]
fn needed_call<'s>(
    cursor: &mut Cursor<'_, 's>,
    depth: u32,
    so_far: Postfix<'s>,
) -> Result<Postfix<'s>, Stopped>
    ensures { Reads postfix_of (expressions.needed_call (levels depth) (postfix_of so_far.entry)) cursor.old result cursor.new }
{
    if must_call(so_far.calling) {
        call(cursor, depth, so_far)
    } else {
        Ok(so_far)
    }
}

/// Any number of operators more.
#[cycle(reading)]
fn postfix_chain<'s>(
    cursor: &mut Cursor<'_, 's>,
    depth: u32,
    so_far: Postfix<'s>,
) -> Result<Postfix<'s>, Stopped>
    ensures { Reads postfix_of (expressions.postfix_chain (levels depth) (postfix_of so_far.entry)) cursor.old result cursor.new }
{
    let mut chain = so_far;
    'turns: while continues_postfix(cursor, &chain) {
        chain = postfix_turn(cursor, depth, chain)?;
    }
    Ok(chain)
}

/// The postfix operators after an operand.
#[cycle(reading)]
#[tactic(auto, unfolding(cx_productions::specs::Expressions::postfix_after))]
pub(crate) fn postfix_after<'s>(
    cursor: &mut Cursor<'_, 's>,
    depth: u32,
    operand: Operand<'s>,
    context: Context,
) -> Result<Box<Expr<'s>>, Stopped>
    ensures { Reads boxed_expr (expressions.postfix_after (levels depth) context (operand_of operand.entry)) cursor.old result cursor.new }
{
    let first = Postfix {
        tree: operand.tree,
        calling: operand.calling,
        within: context,
    };
    let first = needed_call(cursor, depth, first)?;
    let chain = postfix_chain(cursor, depth, first)?;
    Ok(chain.tree)
}

/// A postfix expression.
#[cycle(reading)]
#[tactic(auto, unfolding(cx_productions::specs::Expressions::postfix))]
pub(crate) fn postfix_expr<'s>(
    cursor: &mut Cursor<'_, 's>,
    depth: u32,
    context: Context,
) -> Result<Box<Expr<'s>>, Stopped>
    ensures { Reads boxed_expr (expressions.postfix (levels depth) context) cursor.old result cursor.new }
{
    let operand = primary(cursor, depth, context)?;
    postfix_after(cursor, depth, operand, context)
}
