//! From the bytes of a unit to its plain text, or the first stop of the stages.

ghost use Rattle.std.specs.Prelude.{◌<◌, ◌≤◌, ◌*◌, ◌^◌, length, map, IfOk, MatchResult};
ghost use Rattle.cx_base.specs.Refusal.{Gives, Stops};
ghost use Rattle.cx_lexer.specs.Division.{EndsOnce, AreSpelled};
ghost use Rattle.cx_lexer.specs.Tokens.{token_tree};
ghost use Rattle.cx_plain.specs.PlainTree.{plain_tree};
ghost use Rattle.cx_plain.specs.PlainTyping.{IsTyped};
ghost use Rattle.conceptc.specs.Decision.{IsPlainOf, IsTranslated, IsJudged};
ghost use Rattle.conceptc.specs.Verdict.{judged_tokens, source_limit, verdict};

use crate::decision::Decision;
use cx_base::{List, Stop};
use cx_engine::{Translation, translate_unit};
use cx_lexer::{Token, lex, one_division};
use cx_parse_decl::parse_unit;
use cx_plain::print;
use std::alloc::Global;

/// The plain unit of a unit's tokens.
fn translate_tokens(alloc: Global, tokens: &[Token<'_>]) -> Result<Translation, Stop>
    requires ended { EndsOnce (map token_tree tokens.now) }
    requires spelled { AreSpelled (map token_tree tokens.now) }
    requires room { 16 * length tokens.now < 2 ^ 32 }
    ensures exact { Gives (λ t. plain_tree t.plain) result (judged_tokens (map token_tree tokens.now)) }
    ensures typed { IfOk result (λ t. IsTyped (plain_tree t.plain)) }
    ensures means { IfOk result (λ t. IsPlainOf (map token_tree tokens.now) (plain_tree t.plain)) }
{
    let unit = parse_unit(alloc, tokens)?;
    translate_unit(alloc, &unit)
}

/// The plain text of a unit.
#[tactic(auto, unfolding(crate::specs::Verdict::verdict, crate::specs::Verdict::judged, crate::specs::Verdict::tree_of))]
fn translate(alloc: Global, source: &[u8]) -> Result<Vec<u8>, Stop>
    requires within { length source.now ≤ source_limit }
    ensures { MatchResult result (λ text. IsTranslated source.now text.items) (λ stop. Stops stop (verdict source.now)) }
{
    one_division();
    let tokens = lex(alloc, source)?;
    let translation = translate_tokens(alloc, &tokens)?;
    print(alloc, &translation.plain)
}

/// What is decided of a unit.
pub fn judge(alloc: Global, source: &[u8]) -> Decision
    requires within { length source.now ≤ source_limit }
    ensures { IsJudged result source.now }
{
    match translate(alloc, source) {
        Ok(text) => Decision::Translated(List::from_vec(text)),
        Err(Stop::Fault(fault)) => Decision::Refused(fault),
        Err(Stop::Limit(limit, at)) => Decision::Passed(limit, at),
        Err(Stop::NoMemory) => Decision::OutOfMemory,
    }
}
