ghost use Rattle.std.specs.Prelude.{◌≡◌, IfOk, OnErr, IsErrOf};
ghost use Rattle.cx_base.specs.declared.stop.Stop.TheVariants.{NoMemory};
ghost use Rattle.cx_plain_language.specs.View.{unit_view};
ghost use Rattle.cx_plain_language.specs.Text.{unit_text};

use crate::unit::PlainUnit;
use crate::units::{put_functions, put_globals, put_prototypes, put_structs};
use cx_base::Stop;
use std::alloc::Global;

/// The one text of a plain unit. Refuses for want of memory alone.
#[tactic(auto, unfolding(crate::specs::Text::unit_text))]
pub fn print(alloc: Global, unit: &PlainUnit) -> Result<Vec<u8>, Stop>
    ensures text { IfOk result (λ text. text.items ≡ unit_text (unit_view unit.now)) }
    ensures only_memory { OnErr result (IsErrOf result NoMemory) }
{
    let mut out = String::new(alloc);
    out.push_str("// plain 1\n")?;
    put_structs(&mut out, unit, unit.structs.as_slice())?;
    put_globals(&mut out, unit, unit.globals.as_slice())?;
    put_prototypes(&mut out, unit, unit.functions.as_slice())?;
    put_functions(&mut out, unit, unit.functions.as_slice())?;
    Ok(out.into_bytes())
}
