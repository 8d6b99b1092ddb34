//! Statements that are a variable or an expression.

ghost use Rattle.std.specs.Prelude.{◌≡◌, ◌<◌, length, IfOk, OnErr, IsErrOf};
ghost use Rattle.cx_base.specs.declared.stop.Stop.TheVariants.{NoMemory};
ghost use Rattle.cx_statements.specs.StatementViews.{stmt_tree};
ghost use Rattle.cx_parse_stmt.specs.Views.{names_behind, opened_tree};

use cx_base::{NodeId, Place, Stop};
use cx_scope::{NameKind, Scope};
use cx_statements::{Stmt, Variable};
use cx_tree::Expr;

/// A statement that declares a variable or is an expression.
#[derive(Drop)]
pub(crate) enum Opened<'s> {
    Variable(Variable<'s>),
    Expression {
        node: NodeId,
        at: Place,
        expr: Expr<'s>,
    },
}

/// The statement. The name of a variable is then noted.
pub(crate) fn noted<'s>(scope: &mut Scope<'s>, opened: Opened<'s>) -> Result<Stmt<'s>, Stop>
    requires { 0 < length scope.old }
    ensures tree { IfOk result (λ s. stmt_tree s ≡ opened_tree opened.entry) }
    ensures scope { IfOk result (λ s. scope.new ≡ names_behind scope.old (opened_tree opened.entry)) }
    ensures only_memory { OnErr result (IsErrOf result NoMemory) }
{
    match opened {
        Opened::Variable(variable) => {
            scope.note(variable.name, NameKind::Value)?;
            Ok(Stmt::Variable(variable))
        }
        Opened::Expression { node, at, expr } => Ok(Stmt::Expression { node, at, expr }),
    }
}
