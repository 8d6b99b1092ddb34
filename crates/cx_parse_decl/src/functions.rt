//! Functions ([dcl.fct.def]).

ghost use Rattle.std.specs.Prelude.{◌≡◌, ◌+◌, ◌<◌, ◌≤◌, ◌^◌, length, IfOk};
ghost use Rattle.cx_statements.specs.DeclarationViews.{decl_tree};
ghost use Rattle.cx_grammar.specs.Expressions.{no_requires};
ghost use Rattle.cx_grammar.specs.Declarations.{unit_levels};
ghost use Rattle.cx_grammar.specs.Names.{deeper};
ghost use Rattle.cx_grammar.specs.Production.{Gives};
ghost use Rattle.cx_spots.specs.Spots.{Lightens, weight, left_at};
ghost use Rattle.cx_parse_decl.specs.Functions as productions;
ghost use Rattle.cx_parse_decl.specs.Units.{depth};
ghost use Rattle.cx_parse_decl.specs.Views.{unit_context};

use cx_base::Scalar;
use cx_parse_stmt::read_block;
use cx_scope::{NameKind, Scope};
use cx_spots::{Class, Context, Read, Spot};
use cx_statements::{Decl, FunctionDecl, Specifiers};
use cx_tree::{Core, TypeSyn};
use std::alloc::Global;

/// A function, the body of which is a block. Its name is declared, and known in its body.
#[tactic(auto, unfolding(crate::specs::Functions::function))]
pub(crate) fn function<'t, 's>(
    alloc: Global,
    scope: &mut Scope<'s>,
    spot: Spot<'t, 's>,
) -> Read<'t, 's, Decl<'s>>
    requires scope { 0 < length scope.old }
    requires room { weight spot < 2 ^ 32 }
    ensures exact { Gives (λ x. ((decl_tree x.0, x.1.next, scope.new), left_at x.1)) result ((productions.function (unit_levels no_requires depth) (deeper (unit_context scope.old)) spot.entry.next).read 256 (left_at spot.entry)) }
    ensures lightens { Lightens 16 spot.entry result }
    ensures counts { IfOk result (λ x. spot.entry.next < x.1.next) }
    ensures scope { IfOk result (λ x. 0 < length scope.new) }
{
    let context = Context::outermost(alloc, scope);
    let (int, spot) = spot.take(context, 2, Class::Word("int"))?;
    let (name, spot) = spot.take(context, 1, Class::AnyName)?;
    let (_, spot) = spot.take(context, 2, Class::Punct("("))?;
    let (_, spot) = spot.take(context, 2, Class::Punct(")"))?;
    let (type_node, spot) = spot.number();
    scope.note(name.token.text, NameKind::Function)?;
    scope.enter()?;
    let (body, spot) = read_block(alloc, scope, 1, spot)?;
    scope.leave();
    let (node, spot) = spot.number();
    let function = FunctionDecl {
        node,
        at: name.token.at,
        specifiers: Specifiers {
            is_inline: false,
            is_static: false,
            is_constexpr: false,
        },
        result: TypeSyn {
            node: type_node,
            at: int.token.at,
            constant: false,
            core: Core::Scalar(Scalar::Int),
            reference: false,
        },
        name: name.token.text,
        parameters: Vec::new(alloc),
        is_const: false,
        trailing: None,
        body: Some(body),
    };
    Ok((Decl::Function(function), spot))
}
