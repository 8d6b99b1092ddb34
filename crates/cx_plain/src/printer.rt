ghost use Rattle.std.specs.Prelude.{◌≡◌, IfOk, OnErr, IsErrOf};
ghost use Rattle.cx_base.specs.declared.stop.Stop.TheVariants.{NoMemory};
ghost use Rattle.cx_plain.specs.PlainTree.{plain_tree};
ghost use Rattle.cx_plain.specs.PlainText.{plain_text};
ghost use Rattle.cx_plain.specs.PlainTyping.{IsTyped};

use crate::numbered::{put_functions, put_prototypes};
use crate::tree::PlainUnit;
use cx_base::Stop;
use std::alloc::Global;

/// The one text of a plain unit that is typed. Refuses for want of memory alone.
#[tactic(auto, unfolding(crate::specs::PlainText::plain_text))]
pub fn print(alloc: Global, unit: &PlainUnit) -> Result<Vec<u8>, Stop>
    requires typed { IsTyped (plain_tree unit.now) }
    ensures text { IfOk result (λ text. text.items ≡ plain_text (plain_tree unit.now)) }
    ensures only_memory { OnErr result (IsErrOf result NoMemory) }
{
    let functions = unit.functions.as_slice();
    let mut out = String::new(alloc);
    out.push_str("// plain 1\n")?;
    put_prototypes(&mut out, functions)?;
    put_functions(&mut out, functions)?;
    Ok(out.into_bytes())
}
