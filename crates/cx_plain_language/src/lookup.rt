ghost use Rattle.std.specs.Prelude.{◌≡◌, ◌++◌, map, slice_get, option_map};
ghost use Rattle.cx_plain_language.specs.View.{declared_view};

use crate::types::Declared;
use crate::unit::PlainFn;

impl<C, L, S, G> PlainFn<C, L, S, G> {
    /// The parameter or local of a number: parameters are numbered from 0, and locals behind them.
    #[tactic(auto, using(crate::proofs::Lookups::of_parameter, crate::proofs::Lookups::of_local))]
    pub fn variable(&self, number: u32) -> Option<&Declared<S>>
        ensures { option_map (λ d. declared_view d.now) result ≡ slice_get (map declared_view self.now.parameters ++ map declared_view self.now.locals) number }
    {
        let number = number as usize;
        let parameters = self.parameters.as_slice();
        if number < parameters.len() {
            parameters.get(number)
        } else {
            self.locals.as_slice().get(number - parameters.len())
        }
    }
}
