//! What follows from the definitions. A caller that needs a law calls its function, which does nothing.

ghost use Rattle.std.specs.Prelude.{◌≡◌, ℕ, Bool, List};
ghost use Rattle.cx_numbered.specs.Numbered.{DecidesEquality, HasEachOnce, IsNumberOf, Grows, put};

/// Growth of numbered lists is an order, and a number that is an item's alone stays so where each item stands
/// once.
#[tactic(auto, using(crate::proofs::Numbered::grows_self, crate::proofs::Numbered::grows_through, crate::proofs::Numbered::grows_both, crate::proofs::Numbered::number_kept))]
pub fn growth_is_an_order<T>()
    ensures reflexive { (xs : List T) → Grows xs xs }
    ensures transitive { (xs ys zs : List T) → Grows xs ys → Grows ys zs → Grows xs zs }
    ensures antisymmetric { (xs ys : List T) → Grows xs ys → Grows ys xs → xs ≡ ys }
    ensures kept { (old new : List T) (i : ℕ) (x : T) → Grows old new → HasEachOnce new → IsNumberOf old i x → IsNumberOf new i x }
{}

/// An item that is put into a numbered list has a number there, the list has grown, and each item still stands
/// once; nothing is put where the item has a number already.
#[tactic(auto, using(crate::proofs::Numbered::put_grows, crate::proofs::Numbered::put_once, crate::proofs::Numbered::put_has_number))]
pub fn putting_gives_a_number<T>()
    ensures grows { (same : T → T → Bool) (xs : List T) (x : T) → Grows xs (put same xs x) }
    ensures once { (same : T → T → Bool) → DecidesEquality same → (xs : List T) (x : T) → HasEachOnce xs → HasEachOnce (put same xs x) }
    ensures number { (same : T → T → Bool) → DecidesEquality same → (xs : List T) (x : T) → HasEachOnce xs → (i : ℕ) × IsNumberOf (put same xs x) i x }
    ensures there { (same : T → T → Bool) → DecidesEquality same → (xs : List T) (x : T) (i : ℕ) → IsNumberOf xs i x → put same xs x ≡ xs }
{}
