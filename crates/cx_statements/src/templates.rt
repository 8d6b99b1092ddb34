//! The nodes of template parameters and of what a template declares, walked over in order.
#![tactic(auto, using(cx_tree::proofs::Walks::walked_append))]

ghost use Rattle.std.specs.Prelude.{◌≡◌, map};
ghost use Rattle.std.specs.List.{flat_map};
ghost use Rattle.cx_tree.specs.Nodes.{walked};
ghost use Rattle.cx_tree.specs.UnitNodes.{template_parameter_nodes, templated_nodes};
ghost use Rattle.cx_statements.specs.DeclarationViews.{template_parameter, templated_tree};

use crate::declaration::{TemplateParameter, Templated};
use crate::functions::walk_function;
use crate::optional::{walk_maybe_expr, walk_maybe_type};
use crate::structs::walk_struct;
use crate::variables::walk_constraint;
use cx_tree::{Walk, step, walk_arguments, walk_expr};

/// Walks over the nodes of a template parameter.
fn walk_template_parameter(parameter: &TemplateParameter, walk: Walk) -> Walk
    ensures { result ≡ walked walk (template_parameter_nodes (template_parameter parameter.now)) }
{
    match parameter {
        TemplateParameter::Type { at, default, .. } => step(walk_maybe_type(default, walk), *at),
        TemplateParameter::Constrained {
            at,
            constraint,
            default,
            ..
        } => {
            let walk = walk_constraint(constraint, walk);
            step(walk_maybe_type(default, walk), *at)
        }
        TemplateParameter::Value { at, default, .. } => step(walk_maybe_expr(default, walk), *at),
    }
}

/// Walks over the nodes of template parameters, in order.
pub(crate) fn walk_template_parameters(items: &[TemplateParameter], walk: Walk) -> Walk
    ensures { result ≡ walked walk (flat_map template_parameter_nodes (map template_parameter items.now)) }
{
    let mut walk = walk;
    for item in items {
        walk = walk_template_parameter(item, walk);
    }
    walk
}

/// Walks over the nodes of what a template declares.
pub(crate) fn walk_templated(templated: &Templated, walk: Walk) -> Walk
    ensures { result ≡ walked walk (templated_nodes (templated_tree templated.now)) }
{
    match templated {
        Templated::Function(function) => walk_function(function, walk),
        Templated::Struct(item) => walk_struct(item, walk),
        Templated::Concept { at, condition, .. } => step(walk_expr(condition, walk), *at),
        Templated::Specialisation(item, arguments) => {
            walk_struct(item, walk_arguments(arguments, walk))
        }
    }
}
