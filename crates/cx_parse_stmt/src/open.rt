//! Statements that begin with a type, an `auto` or an expression: variables ([stmt.dcl]) and expressions ([stmt.expr]).

ghost use Rattle.std.specs.Prelude.{◌≡◌, ◌<◌, ◌≤◌, ◌+◌, ◌^◌, codes, true, false, map, None, Some};
ghost use Rattle.cx_tree.specs.Trees.{expr_tree};
ghost use Rattle.cx_statements.specs.StatementViews.{constraint_tree};
ghost use Rattle.cx_grammar.specs.Statements as statements;
ghost use Rattle.cx_spots.specs.Spots.{weight, context_of, below};
ghost use Rattle.cx_spots.specs.Views.{placed_core};
ghost use Rattle.cx_parse_stmt.specs.Within.{ReadsNamed, LightensStmt};
ghost use Rattle.cx_parse_stmt.specs.Views.{names_behind, opened_tree};

use crate::auto::{read_auto_behind, read_constraint};
use crate::opened::Opened;
use crate::variable::{
    const_variable, plain_auto, typed_variable, variable, variable_of, variable_of_auto,
};
use cx_parse_expr::{
    Calling, read_behind_core, read_behind_head, read_core, read_expr, read_expr_behind, read_tail,
    type_behind,
};
use cx_scope::NameKind;
use cx_spots::{Class, Context, Cored, Read, Spot, scalar_behind};
use cx_statements::Constraint;
use cx_tree::{Core, Expr};

/// A statement that is an expression whose first operand is read.
#[tactic(auto, unfolding(cx_grammar::specs::Statements::expr_stmt_of))]
fn expr_stmt_of<'t, 's>(
    context: Context<'_, 's>,
    operand: Expr<'s>,
    spot: Spot<'t, 's>,
) -> Read<'t, 's, Opened<'s>>
    requires load { context.load ≤ 257 }
    requires room { weight spot < 2 ^ 32 }
    ensures exact { ReadsNamed opened_tree (λ s. names_behind context.entry.scope.now (opened_tree s)) (λ n. statements.expr_stmt_of (below (context_of context.entry)) (context_of context.entry) (expr_tree operand.entry, n)) spot.entry result }
    ensures lightens { LightensStmt opened_tree 4 spot.entry result }
{
    let (expr, spot) = read_expr_behind(context, operand, spot)?;
    let (_, spot) = spot.take(context, context.load, Class::Punct(";"))?;
    let (node, spot) = spot.number();
    let at = expr.at();
    Ok((Opened::Expression { node, at, expr }, spot))
}

/// What stands behind a core that is no name: a list in braces makes an expression of it, else it is a variable's type.
#[tactic(auto, unfolding(cx_grammar::specs::Statements::core_stmt))]
fn core_stmt<'t, 's>(
    context: Context<'_, 's>,
    core: Cored<'s>,
    spot: Spot<'t, 's>,
) -> Read<'t, 's, Opened<'s>>
    requires load { context.load ≤ 257 }
    requires room { weight spot + 1 < 2 ^ 32 }
    ensures exact { ReadsNamed opened_tree (λ s. names_behind context.entry.scope.now (opened_tree s)) (λ n. statements.core_stmt (below (context_of context.entry)) (context_of context.entry) (placed_core core.entry, n)) spot.entry result }
    ensures lightens { LightensStmt opened_tree 4 spot.entry result }
{
    if spot.begins(context, Class::Punct("{")) {
        let (primary, spot) = read_behind_core(context, core, spot)?;
        let (operand, spot) = read_tail(context, Calling::No, primary, spot)?;
        return expr_stmt_of(context, operand, spot);
    }
    let (of, spot) = type_behind(context, core.at, false, core.core, spot)?;
    variable_of(context, false, of, spot)
}

/// What stands behind the name of a type, or a class template with arguments: a list in braces or `::` makes an
/// expression of it, else it is a variable's type.
#[tactic(auto, unfolding(cx_grammar::specs::Statements::head_stmt))]
fn head_stmt<'t, 's>(
    context: Context<'_, 's>,
    core: Cored<'s>,
    spot: Spot<'t, 's>,
) -> Read<'t, 's, Opened<'s>>
    requires load { context.load ≤ 257 }
    requires room { weight spot + 1 < 2 ^ 32 }
    ensures exact { ReadsNamed opened_tree (λ s. names_behind context.entry.scope.now (opened_tree s)) (λ n. statements.head_stmt (below (context_of context.entry)) (context_of context.entry) (placed_core core.entry, n)) spot.entry result }
    ensures lightens { LightensStmt opened_tree 4 spot.entry result }
{
    if spot.begins(context, Class::GoesOn) {
        let (primary, spot) = read_behind_head(context, core, spot)?;
        let (operand, spot) = read_tail(context, Calling::No, primary, spot)?;
        return expr_stmt_of(context, operand, spot);
    }
    let (of, spot) = type_behind(context, core.at, false, core.core, spot)?;
    variable_of(context, false, of, spot)
}

/// What begins with a scalar of one word, which may be a list's type.
#[tactic(auto, unfolding(cx_grammar::specs::Statements::word_stmt))]
fn word_stmt<'t, 's>(context: Context<'_, 's>, spot: Spot<'t, 's>) -> Read<'t, 's, Opened<'s>>
    requires load { context.load ≤ 257 }
    requires room { weight spot < 2 ^ 32 }
    ensures exact { ReadsNamed opened_tree (λ s. names_behind context.entry.scope.now (opened_tree s)) (statements.word_stmt (below (context_of context.entry)) (context_of context.entry)) spot.entry result }
    ensures lightens { LightensStmt opened_tree 4 spot.entry result }
{
    let (word, spot) = spot.take(context, context.load + 1, Class::OneWord)?;
    let at = word.token.at;
    if spot.begins(context, Class::Punct("{")) {
        let core = Core::Scalar(word.scalar());
        let (primary, spot) = read_behind_core(context, Cored { at, core }, spot)?;
        let (operand, spot) = read_tail(context, Calling::No, primary, spot)?;
        return expr_stmt_of(context, operand, spot);
    }
    let (scalar, spot) = scalar_behind(context.deeper(), word, spot)?;
    let (of, spot) = type_behind(context, at, false, Core::Scalar(scalar), spot)?;
    variable_of(context, false, of, spot)
}

/// A concept's name as an expression, with its template arguments if it has some ([temp.names]).
#[tactic(auto, using(crate::proofs::Concepts::concept_lemmas))]
fn concept_expr(concept: Constraint<'_>) -> Expr<'_>
    ensures { expr_tree result ≡ statements.concept_expr (constraint_tree concept.entry) }
{
    if concept.arguments.is_empty() {
        return Expr::Name {
            node: concept.node,
            at: concept.at,
            name: concept.name,
        };
    }
    Expr::Template {
        node: concept.node,
        at: concept.at,
        name: concept.name,
        arguments: concept.arguments,
    }
}

/// What begins with a concept's name: `auto` behind it and its arguments makes a variable of it.
#[tactic(auto, unfolding(cx_grammar::specs::Statements::concept_stmt))]
fn concept_stmt<'t, 's>(context: Context<'_, 's>, spot: Spot<'t, 's>) -> Read<'t, 's, Opened<'s>>
    requires load { context.load ≤ 257 }
    requires room { weight spot < 2 ^ 32 }
    ensures exact { ReadsNamed opened_tree (λ s. names_behind context.entry.scope.now (opened_tree s)) (statements.concept_stmt (below (context_of context.entry)) (context_of context.entry)) spot.entry result }
    ensures lightens { LightensStmt opened_tree 4 spot.entry result }
{
    let (concept, spot) = read_constraint(context, spot)?;
    if spot.begins(context, Class::Word("auto")) {
        let at = Some(concept.at);
        let (of, spot) = read_auto_behind(context, at, false, Some(concept), spot)?;
        return variable_of_auto(context, false, of, spot);
    }
    let (operand, spot) = read_tail(context, Calling::May, concept_expr(concept), spot)?;
    expr_stmt_of(context, operand, spot)
}

/// An expression and `;`.
#[tactic(auto, unfolding(cx_grammar::specs::Statements::expr_stmt))]
fn expr_stmt<'t, 's>(context: Context<'_, 's>, spot: Spot<'t, 's>) -> Read<'t, 's, Opened<'s>>
    requires load { context.load ≤ 257 }
    requires room { weight spot < 2 ^ 32 }
    ensures exact { ReadsNamed opened_tree (λ s. names_behind context.entry.scope.now (opened_tree s)) (statements.expr_stmt (below (context_of context.entry)) (context_of context.entry)) spot.entry result }
    ensures lightens { LightensStmt opened_tree 4 spot.entry result }
{
    let (expr, spot) = read_expr(context, spot)?;
    let (_, spot) = spot.take(context, context.load, Class::Punct(";"))?;
    let (node, spot) = spot.number();
    let at = expr.at();
    Ok((Opened::Expression { node, at, expr }, spot))
}

/// A variable or an expression, by its first token.
#[tactic(auto, unfolding(cx_grammar::specs::Statements::open_stmt))]
pub(crate) fn open_stmt<'t, 's>(
    context: Context<'_, 's>,
    spot: Spot<'t, 's>,
) -> Read<'t, 's, Opened<'s>>
    requires load { context.load ≤ 257 }
    requires room { weight spot < 2 ^ 32 }
    ensures exact { ReadsNamed opened_tree (λ s. names_behind context.entry.scope.now (opened_tree s)) (statements.open_stmt (below (context_of context.entry)) (context_of context.entry)) spot.entry result }
    ensures lightens { LightensStmt opened_tree 4 spot.entry result }
{
    if spot.begins(context, Class::Word("constexpr")) {
        let (_, spot) = spot.take(context, context.load, Class::Word("constexpr"))?;
        variable(context, true, spot)
    } else if spot.begins(context, Class::Word("const")) {
        const_variable(context, false, spot)
    } else if spot.begins(context, Class::Word("auto")) {
        plain_auto(context, None, false, false, spot)
    } else if spot.begins(context, Class::Named(NameKind::Concept)) {
        concept_stmt(context, spot)
    } else if spot.begins(context, Class::HeadName) {
        let (core, spot) = read_core(context.deeper(), spot)?;
        head_stmt(context, core, spot)
    } else if spot.begins(context, Class::CoreWord) {
        let (core, spot) = read_core(context.deeper(), spot)?;
        core_stmt(context, core, spot)
    } else if spot.begins(context, Class::OneWord) {
        word_stmt(context, spot)
    } else if spot.begins(context, Class::Word("long")) {
        typed_variable(context, false, spot)
    } else {
        expr_stmt(context, spot)
    }
}
