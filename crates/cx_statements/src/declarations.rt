//! The nodes of declarations, walked over in order.
#![tactic(auto, using(cx_tree::proofs::Walks::walked_append))]

ghost use Rattle.std.specs.Prelude.{◌≡◌};
ghost use Rattle.cx_tree.specs.Nodes.{walked};
ghost use Rattle.cx_tree.specs.UnitNodes.{decl_nodes};
ghost use Rattle.cx_statements.specs.DeclarationViews.{decl_tree};

use crate::declaration::Decl;
use crate::functions::walk_function;
use crate::optional::walk_maybe_expr;
use crate::statements::walk_assertion;
use crate::structs::{walk_alias, walk_constant, walk_struct};
use crate::templates::{walk_template_parameters, walk_templated};
use cx_tree::{Walk, step};

/// Walks over the nodes of a declaration: its parts in the order of the text, then its own.
pub(crate) fn walk_decl(declaration: &Decl, walk: Walk) -> Walk
    ensures { result ≡ walked walk (decl_nodes (decl_tree declaration.now)) }
{
    match declaration {
        Decl::Empty { at, .. } => step(walk, *at),
        Decl::StaticAssert(assertion) => walk_assertion(assertion, walk),
        Decl::Alias(alias) => walk_alias(alias, walk),
        Decl::Constant(constant) => walk_constant(constant, walk),
        Decl::Function(function) => walk_function(function, walk),
        Decl::Struct(item) => walk_struct(item, walk),
        Decl::Template {
            at,
            parameters,
            clause,
            templated,
            ..
        } => {
            let walk = walk_template_parameters(parameters, walk);
            let walk = walk_maybe_expr(clause, walk);
            step(walk_templated(templated, walk), *at)
        }
    }
}
