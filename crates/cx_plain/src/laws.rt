//! Laws of the definitions.

ghost use Rattle.std.specs.Prelude.{◌≡◌, ◌+◌, ◌<◌, ◌≤◌, ℕ, ℤ, pos, negsuc, List, length, Some, None, slice_get, FitsSigned};
ghost use Rattle.std.specs.Int.{w32};
ghost use Rattle.cx_base.specs.Outcome.{Returned, Undefined};
ghost use Rattle.cx_plain.specs.declared.operators.UnaryOperator.{UnaryOperator};
ghost use Rattle.cx_plain.specs.declared.operators.BinaryOperator.{BinaryOperator};
ghost use Rattle.cx_plain.specs.Arithmetic.{least, greatest, negation, complement, sum, difference, product, quotient, remainder, bits_and, bits_xor, bits_or};
ghost use Rattle.cx_plain.specs.Decimal.{SaysInteger};
ghost use Rattle.cx_plain.specs.PlainMeaning.{unary_result, binary_result, run_body, run_call, run};
ghost use Rattle.cx_plain.specs.PlainText.{constant_text};
ghost use Rattle.cx_plain.specs.PlainTree.{PlainFunction, PlainTree};
ghost use Rattle.cx_plain.specs.PlainTyping.{IsTyped};
ghost use Rattle.cx_plain.specs.Undefinedness.{SomeFails};

/// The arithmetic of int at its edges.
pub fn arithmetic()
    ensures overflow { (sum greatest (pos 1) ≡ None) × (sum greatest (pos 0) ≡ Some greatest)
        × (difference least (pos 1) ≡ None) × (difference (pos 0) greatest ≡ Some (negsuc 2147483646))
        × (product (pos 65536) (pos 32768) ≡ None) × (product (pos 65536) (negsuc 32767) ≡ Some least)
        × (negation least ≡ None) × (negation greatest ≡ Some (negsuc 2147483646)) }
    // Towards zero, and the remainder has the sign of the left operand.
    ensures division { (quotient (negsuc 6) (pos 2) ≡ Some (negsuc 2)) × (remainder (negsuc 6) (pos 2) ≡ Some (negsuc 0))
        × (quotient (pos 7) (negsuc 1) ≡ Some (negsuc 2)) × (remainder (pos 7) (negsuc 1) ≡ Some (pos 1)) }
    ensures no_quotient { (quotient (pos 1) (pos 0) ≡ None) × (remainder (pos 1) (pos 0) ≡ None)
        × (quotient least (negsuc 0) ≡ None) × (remainder least (negsuc 0) ≡ None) }
    ensures bits { (complement (pos 0) ≡ Some (negsuc 0)) × (complement least ≡ Some greatest)
        × (bits_and (negsuc 0) (pos 12) ≡ Some (pos 12)) × (bits_xor (negsuc 0) (pos 5) ≡ Some (negsuc 5))
        × (bits_or least (pos 1) ≡ Some (negsuc 2147483646)) }
    // What an operation gives for ints is an int.
    ensures unary { (operator : UnaryOperator) (x z : ℤ) →
        FitsSigned w32 x → unary_result operator x ≡ Some z → FitsSigned w32 z }
    ensures binary { (operator : BinaryOperator) (x y z : ℤ) →
        FitsSigned w32 x → FitsSigned w32 y → binary_result operator x y ≡ Some z → FitsSigned w32 z }
{}

/// A constant is written in decimal, and no two constants have one text.
pub fn one_text(a: i32, b: i32)
    ensures says { SaysInteger a (constant_text a) }
    ensures one { constant_text a ≡ constant_text b → a ≡ b }
{}

/// A function that ends in a number of steps does the same with more, which are left over.
pub fn steps()
    ensures returned { (n m k left : ℕ) (functions : List PlainFunction) (value : ℤ) →
        run n functions k ≡ Returned value left → run (n + m) functions k ≡ Returned value (left + m) }
    ensures undefined { (n m k : ℕ) (functions : List PlainFunction) →
        run n functions k ≡ Undefined → run (n + m) functions k ≡ Undefined }
    ensures within { (n k left : ℕ) (functions : List PlainFunction) (value : ℤ) →
        run n functions k ≡ Returned value left → left ≤ n }
    // The number of calls that may be open ends no run: more of them change nothing.
    ensures depth { (n m k : ℕ) (functions : List PlainFunction) →
        run_body (run_call (n + m) functions) (slice_get functions k) n ≡ run n functions k }
{}

/// A function of a typed unit gives ints, and does what has no meaning only where an operation gives nothing for its
/// operands.
pub fn typed_is_defined()
    ensures ints { (n k left : ℕ) (unit : PlainTree) (value : ℤ) →
        IsTyped unit → k < length unit.functions → run n unit.functions k ≡ Returned value left → FitsSigned w32 value }
    ensures undefined { (n k : ℕ) (unit : PlainTree) →
        IsTyped unit → k < length unit.functions → run n unit.functions k ≡ Undefined → SomeFails unit.functions }
{}
