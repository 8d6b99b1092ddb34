//! The productions that are asked one construct deeper, each by its parser.

ghost use Rattle.std.specs.Prelude.{◌≡◌, ◌<◌, ◌≤◌, ◌+◌, ◌^◌};
ghost use Rattle.cx_parse_expr.specs.Asks.{Asks, Answers, deepest};
ghost use Rattle.cx_spots.specs.Spots.{weight};

use crate::argument::argument_here;
use crate::ask::{Asked, Question, Reply, argument_reply, core_reply, expr_reply, type_reply};
use crate::binary::{binary_rest_here, operand_here};
use crate::expression::expr_here;
use crate::postfix::{called_here, tail_here};
use crate::types::{core_here, type_here};
use crate::unary::unary_here;
use cx_spots::Read;

/// Reads what a question asks for, by asking one construct deeper.
#[tactic(auto, using(crate::proofs::Answering::answering))]
fn answer<'c, 't, 's, F: for<'a, 'b> Fn(Asked<'a, 'b, 's>) -> Read<'b, 's, Reply<'s>>>(
    ask: F,
    asked: Asked<'c, 't, 's>,
) -> Read<'t, 's, Reply<'s>>
    requires law { Asks (F.pre ask) (F.post ask) (asked.context.load + 1) }
    requires load { asked.context.load ≤ deepest asked.question }
    requires room { weight asked.spot < 2 ^ 32 }
    ensures { Answers asked.entry.question asked.entry.context asked.entry.spot result }
{
    let context = asked.context;
    let spot = asked.spot;
    match asked.question {
        Question::Expr => expr_reply(expr_here(&ask, context, spot)),
        Question::Unary => expr_reply(unary_here(&ask, context, spot)),
        Question::BinaryRest(level, left) => {
            expr_reply(binary_rest_here(&ask, context, level, left, spot))
        }
        Question::Operand(level) => expr_reply(operand_here(&ask, context, level, spot)),
        Question::Tail(calling, operand) => {
            expr_reply(tail_here(&ask, context, calling, operand, spot))
        }
        Question::Called(operand) => expr_reply(called_here(&ask, context, operand, spot)),
        Question::Type => type_reply(type_here(&ask, context, spot)),
        Question::Core => core_reply(core_here(&ask, context, spot)),
        Question::Argument => argument_reply(argument_here(&ask, context, spot)),
    }
}

/// Reads what a question asks for.
#[cycle(engine)]
pub(crate) fn read<'c, 't, 's>(asked: Asked<'c, 't, 's>) -> Read<'t, 's, Reply<'s>>
    requires load { asked.context.load ≤ deepest asked.question }
    requires room { weight asked.spot < 2 ^ 32 }
    ensures { Answers asked.entry.question asked.entry.context asked.entry.spot result }
{
    let load = asked.context.load;
    answer(
        move |deeper|
            requires load { deeper.context.load ≡ load + 1 }
            requires limit { deeper.context.load ≤ deepest deeper.question }
            requires room { weight deeper.spot < 2 ^ 32 }
            ensures { Answers deeper.entry.question deeper.entry.context deeper.entry.spot result }
        {
            let _load = load;
            read(deeper)
        },
        asked,
    )
}
