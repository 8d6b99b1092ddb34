//! The nodes of a tree are numbered without a gap.

ghost use Rattle.std.specs.Prelude.{ℕ};
ghost use Rattle.cx_syntax.specs.declared.context.Context.{Context};
ghost use Rattle.cx_productions.specs.Nodes.{expr_nodes, type_nodes};
ghost use Rattle.cx_productions.specs.Levels.{levels};
ghost use Rattle.cx_productions.specs.Types.{type_id};
ghost use Rattle.cx_productions.specs.Expressions.{expr};
ghost use Rattle.cx_productions.specs.Clauses.{clause};
ghost use Rattle.cx_productions.specs.StatementNodes.{stmt_nodes};
ghost use Rattle.cx_productions.specs.Statements.{stmt};
ghost use Rattle.cx_productions.specs.Units.{unit_levels};
ghost use Rattle.cx_production_laws.specs.NumberedNodes.{NumberedNodes};

/// Expressions ([expr]), types ([dcl.type]) and the clause of a requires ([temp.pre]).
pub fn numbers_of_expressions()
    ensures expressions { (level : ℕ) (c : Context) → NumberedNodes expr_nodes (λ n. expr (levels n) level c) }
    ensures types { (c : Context) → NumberedNodes type_nodes (λ n. type_id (levels n) c) }
    ensures clauses { (c : Context) → NumberedNodes expr_nodes (λ n. clause (levels n) c) }
{}

/// Statements ([stmt.stmt]).
#[tactic(auto, using(crate::proofs::NodeLaws::nodes_of_stmt))]
pub fn numbers_of_statements()
    ensures statements { (c : Context) → NumberedNodes stmt_nodes (λ n. stmt (unit_levels n) c) }
{}
