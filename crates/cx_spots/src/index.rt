ghost use Rattle.std.specs.Prelude.{◌≡◌, ◌+◌, ◌*◌, ◌<◌, ◌≤◌, ◌++◌, List, drop, length, map};
ghost use Rattle.cx_lexer.specs.Division.{EndsOnce, AreSpelled};
ghost use Rattle.cx_lexer.specs.Tokens.{TokenTree, token_tree};
ghost use Rattle.cx_grammar.specs.Pieces.{pieces};
ghost use Rattle.cx_spots.specs.Spots.{left_at, weight};

use crate::spot::Spot;
use cx_lexer::Token;

/// The spot before the token at an index, with the number of the next node.
pub fn spot_at<'t, 's>(tokens: &'t [Token<'s>], from: usize, next: u32) -> Spot<'t, 's>
    requires from { from < length tokens.now }
    requires ended { EndsOnce (map token_tree tokens.now) }
    requires spelled { AreSpelled (map token_tree tokens.now) }
    ensures left { left_at result ≡ pieces (drop from (map token_tree tokens.now)) }
    ensures next { result.next ≡ next }
    ensures light { weight result ≤ next + 16 * length tokens.now }
{
    Spot::before(&tokens[from..], next)
}

/// The index of the token behind what was read, which is of whole tokens.
pub fn index_of(tokens: &[Token<'_>], behind: Spot<'_, '_>) -> usize
    requires { (first last : List TokenTree) × (map token_tree tokens.now ≡ first ++ last) × (left_at behind ≡ pieces last) }
    ensures within { result ≤ length tokens.now }
    ensures left { left_at behind.entry ≡ pieces (drop result (map token_tree tokens.now)) }
{
    tokens.len() - behind.tokens.len()
}
