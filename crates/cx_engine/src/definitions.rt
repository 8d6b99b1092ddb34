//! What is built of a unit: the functions that it defines, each with the value that its body returns.

ghost use Rattle.std.specs.Prelude.{◌≡◌, map};
ghost use Rattle.std.specs.Option.{option_map};
ghost use Rattle.cx_tree.specs.Trees.{expr_tree};
ghost use Rattle.cx_tree.specs.Statements.{stmts};
ghost use Rattle.cx_statements.specs.StatementViews.{stmt_tree};
ghost use Rattle.cx_statements.specs.DeclarationViews.{decl_tree};
ghost use Rattle.cx_engine.specs.Definitions.{definition_tree, value_of_stmt, value_of_one, value_of_body, definition_of};

use cx_base::Place;
use cx_statements::{Decl, Stmt};
use cx_tree::Expr;

/// A function that is defined: its name, the place of that, and the value that its body returns.
#[derive(Clone, Copy)]
pub(crate) struct Definition<'t, 's> {
    pub at: Place,
    pub name: &'s str,
    pub value: &'t Expr<'s>,
}

/// What a statement returns, where it is a `return` of a value.
fn value_of_stmt<'t, 's>(stmt: &'t Stmt<'s>) -> Option<&'t Expr<'s>>
    ensures { option_map (λ e. expr_tree e.now) result ≡ value_of_stmt (stmt_tree stmt.now) }
{
    match stmt {
        Stmt::Return { value, .. } => value.as_ref(),
        _ => None,
    }
}

/// What these statements return, where they are one `return` of a value.
fn value_of_one<'t, 's>(statements: &'t [Stmt<'s>]) -> Option<&'t Expr<'s>>
    ensures { option_map (λ e. expr_tree e.now) result ≡ value_of_one (stmts (map stmt_tree statements.now)) }
{
    match statements {
        [] => None,
        [only] => value_of_stmt(only),
        [_, _, ..] => None,
    }
}

/// What a body returns, where it is a block of one `return` of a value.
fn value_of_body<'t, 's>(body: &'t Stmt<'s>) -> Option<&'t Expr<'s>>
    ensures { option_map (λ e. expr_tree e.now) result ≡ value_of_body (stmt_tree body.now) }
{
    match body {
        Stmt::Block { statements, .. } => value_of_one(statements),
        _ => None,
    }
}

/// The definition that a declaration is, where it is that of a function whose body is one `return` of a value.
pub(crate) fn definition_of<'t, 's>(decl: &'t Decl<'s>) -> Option<Definition<'t, 's>>
    ensures { option_map definition_tree result ≡ definition_of (decl_tree decl.now) }
{
    let Decl::Function(function) = decl else {
        return None;
    };
    let Some(body) = &function.body else {
        return None;
    };
    match value_of_body(body) {
        Some(value) => Some(Definition {
            at: function.at,
            name: function.name,
            value,
        }),
        None => None,
    }
}
