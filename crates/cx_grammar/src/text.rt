//! The grammar as it is printed: productions that are factored have the trees and beginnings of the text of the grammar.
//! Each law is the contract of a function that does nothing.

ghost use Rattle.std.specs.Prelude.{◌≡◌, ℕ, suc, Bool};
ghost use Rattle.cx_grammar.specs.Names.{Context};
ghost use Rattle.cx_grammar.specs.Expressions.{expr, operand, postfix, levels, is_operator};
ghost use Rattle.cx_grammar.specs.Printed.{IsAsPrinted, behind_lor, printed_expr, printed_operand, behind_postfix, printed_postfix};

/// Conditional expressions and assignments ([expr.cond], [expr.ass]).
pub fn expressions_as_printed()
    ensures printed { (requires : Bool) (c : Context) (n depth : ℕ) → IsAsPrinted (expr (levels requires depth) c n) (behind_lor c) (printed_expr (levels requires depth) c n) }
{}

/// Binary operators ([expr.mul] to [expr.log.or]): an operand, then operators of a level with operands of the tighter
/// levels, grouped from the left.
pub fn operands_as_printed()
    ensures printed { (requires : Bool) (c : Context) (n level depth : ℕ) → IsAsPrinted (operand (levels requires depth) (suc level) c n) (is_operator level c.angle) (printed_operand requires depth level c n) }
{}

/// Postfix expressions ([expr.post]): a primary, then members, calls and steps, each of all that is before it. A call
/// stands only behind a name, a name with template arguments or a member, and must stand behind the name of a function
/// template with arguments.
pub fn postfixes_as_printed()
    ensures printed { (requires : Bool) (c : Context) (n depth : ℕ) → IsAsPrinted (postfix (levels requires depth) c n) behind_postfix (printed_postfix requires depth c n) }
{}
