ghost use Rattle.std.specs.Prelude.{◌≡◌, IfOk, OnErr, IsErrOf};

use crate::stop::Stop;
use std::alloc::Global;
use std::marker::Model;

/// A text of its own that contracts see as its bytes, so that values which hold one are plain data.
#[derive(Debug, Drop)]
pub struct Text {
    string: String,
}

impl Model for Text {
    ghost use Rattle.std.specs.Prelude.{List, ℕ, string_bytes};

    ghost Value = { List ℕ };

    ghost view = { λ t. string_bytes t.string };
}

impl Text {
    ghost use Rattle.cx_base.specs.declared.stop.Stop.TheVariants.{NoMemory};

    /// A copy of a text. Refuses for want of memory alone.
    pub fn from_str(alloc: Global, text: &str) -> Result<Text, Stop>
        ensures ok { IfOk result (λ t. t ≡ text.now) }
        ensures only_memory { OnErr result (IsErrOf result NoMemory) }
    {
        let string = String::from_str(alloc, text)?;
        Ok(Text { string })
    }

    /// The text. Takes no memory.
    pub fn as_str(&self) -> &str
        ensures { result.now ≡ self.now }
    {
        self.string.as_str()
    }
}
