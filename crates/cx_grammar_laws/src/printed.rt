//! The grammar as it is printed: productions that choose by the first tokens have the trees and beginnings of the
//! alternatives that the text of the grammar has.

ghost use Rattle.std.specs.Prelude.{ℕ, suc, Bool};
ghost use Rattle.cx_grammar.specs.Names.{Context};
ghost use Rattle.cx_grammar.specs.Expressions.{argument, levels, goes_on};
ghost use Rattle.cx_grammar.specs.Requires.{requirement, requires_expr};
ghost use Rattle.cx_grammar.specs.Statements.{open_stmt, variable};
ghost use Rattle.cx_grammar.specs.Words.{any_name};
ghost use Rattle.cx_grammar.specs.Declarations.{no_piece, parameter, variable_or_function, field_or_function, unit_levels};
ghost use Rattle.cx_grammar.specs.Printed.{IsAsPrinted};
ghost use Rattle.cx_grammar_laws.specs.PrintedRequires.{printed_requirement, printed_requires_expr};
ghost use Rattle.cx_grammar_laws.specs.Printed.{printed_argument, nothing, printed_open_stmt, printed_variable, printed_parameter, printed_variable_or_function, printed_field_or_function};

/// Template arguments ([temp.arg]): a type or an expression, where what would go on behind a type, `{` or `::`, does not
/// stand behind it. A scalar is read where its type is within one more construct, so there is one level at least.
pub fn arguments_as_printed()
    ensures printed { (requires : Bool) (c : Context) (n depth : ℕ) → IsAsPrinted (argument (levels requires (suc depth)) c n) goes_on (printed_argument (levels requires (suc depth)) c n) }
{}

/// Statements that begin with a type, an `auto` or an expression ([stmt.expr], [stmt.dcl]): a declaration of a variable,
/// behind `constexpr` or not, or an expression and `;`. There is one level at least, as above.
pub fn statements_as_printed()
    ensures printed { (requires : Bool) (c : Context) (n depth : ℕ) → IsAsPrinted (open_stmt (levels requires (suc depth)) c n) nothing (printed_open_stmt (levels requires (suc depth)) c n) }
{}

/// Declarations of variables ([dcl.dcl], [dcl.spec.auto]): of a type, or of `auto` behind `const` and a constraint, each
/// there or not.
pub fn variables_as_printed()
    ensures printed { (requires : Bool) (c : Context) (is_constexpr : Bool) (n depth : ℕ) → IsAsPrinted (variable (levels requires depth) c is_constexpr n) nothing (printed_variable (levels requires depth) c is_constexpr n) }
{}

/// Parameters ([dcl.fct]): of a type, or where `auto` may stand of `auto` behind `const` and a constraint, each there or
/// not, with a name or none. No name stands behind a parameter.
pub fn parameters_as_printed()
    ensures printed { (requires : Bool) (autos : Bool) (c : Context) (n depth : ℕ) → IsAsPrinted (parameter autos (levels requires depth) c n) any_name (printed_parameter autos (levels requires depth) c n) }
{}

/// Variables and functions of the unit ([dcl.dcl], [dcl.fct]): a variable, which is constexpr, or a function, each behind
/// specifiers, a type and its name.
pub fn variables_and_functions_as_printed()
    ensures printed { (requires : Bool) (c : Context) (n depth : ℕ) → IsAsPrinted (variable_or_function (unit_levels requires depth) c n) nothing (printed_variable_or_function (unit_levels requires depth) c n) }
{}

/// Members of a class ([class.mem]): a field, which has no specifiers, or a function, which is not static.
pub fn fields_and_functions_as_printed()
    ensures printed { (requires : Bool) (templated : Bool) (c : Context) (n depth : ℕ) → IsAsPrinted (field_or_function templated (unit_levels requires depth) c n) nothing (printed_field_or_function templated (unit_levels requires depth) c n) }
{}

/// Requirements ([expr.prim.req.simple] to [expr.prim.req.nested]): no expression begins one with `typename` or
/// `requires`.
pub fn requirements_as_printed()
    ensures printed { (requires : Bool) (c : Context) (n depth : ℕ) → IsAsPrinted (requirement (levels requires depth) c n) no_piece (printed_requirement (levels requires depth) c n) }
{}

/// Requires-expressions ([expr.prim.req]): parameters in parentheses or none, then one or more requirements in braces. Of
/// the parameters each has a type and a name or none; `void` alone is none of them.
pub fn requires_expressions_as_printed()
    ensures printed { (requires : Bool) (c : Context) (n depth : ℕ) → IsAsPrinted (requires_expr (levels requires depth) c n) no_piece (printed_requires_expr (levels requires depth) c n) }
{}
