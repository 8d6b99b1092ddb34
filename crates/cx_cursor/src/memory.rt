ghost use Rattle.std.specs.Prelude.{◌≡◌, IfOk, IfErr};
ghost use Rattle.cx_syntax.specs.declared.stopped.Stopped.TheVariants.{NoMemory};

use cx_syntax::Stopped;
use std::alloc::Global;

/// A value in a box. Refuses for want of memory alone.
pub fn boxed<T: Drop>(alloc: Global, value: T) -> Result<Box<T>, Stopped>
    ensures value { IfOk result (λ b. b.value ≡ value) }
    ensures only_memory { IfErr result (λ e. e ≡ NoMemory) }
{
    match Box::new(alloc, value) {
        Ok(in_a_box) => Ok(in_a_box),
        Err(_) => Err(Stopped::NoMemory),
    }
}
