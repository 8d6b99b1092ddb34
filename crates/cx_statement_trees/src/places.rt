//! The places of statements and declarations.

use crate::declaration::Decl;
use crate::statement::Stmt;
use cx_base::Place;

impl Stmt<'_> {
    ghost use Rattle.std.specs.Prelude.{◌≡◌};
    ghost use Rattle.cx_productions.specs.StatementTrees.{stmt_mark};
    ghost use Rattle.cx_statement_trees.specs.StatementViews.{stmt_tree};

    /// The place of its own node.
    pub fn at(&self) -> Place
        ensures { result ≡ (stmt_mark (stmt_tree self.now)).at }
    {
        match self {
            Stmt::Empty { at, .. }
            | Stmt::Block { at, .. }
            | Stmt::Break { at, .. }
            | Stmt::Continue { at, .. }
            | Stmt::Return { at, .. }
            | Stmt::If { at, .. }
            | Stmt::While { at, .. }
            | Stmt::For { at, .. }
            | Stmt::Expression { at, .. } => *at,
            Stmt::StaticAssert(assertion) => assertion.at,
            Stmt::Variable(variable) => variable.at,
        }
    }
}

impl Decl<'_> {
    ghost use Rattle.std.specs.Prelude.{◌≡◌};
    ghost use Rattle.cx_productions.specs.DeclarationTrees.{decl_mark};
    ghost use Rattle.cx_statement_trees.specs.DeclarationViews.{decl_tree};

    /// The place of its own node.
    pub fn at(&self) -> Place
        ensures { result ≡ (decl_mark (decl_tree self.now)).at }
    {
        match self {
            Decl::Empty { at, .. } | Decl::Template { at, .. } => *at,
            Decl::StaticAssert(assertion) => assertion.at,
            Decl::Alias(alias) => alias.at,
            Decl::Constant(constant) => constant.at,
            Decl::Function(function) => function.at,
            Decl::Struct(item) => item.at,
        }
    }
}
