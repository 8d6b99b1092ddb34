//! Laws of the definitions: each is the contract of a function that does nothing.

ghost use Rattle.std.specs.Prelude.{◌≡◌, ◌^◌, ◌<◌, ◌≤◌, ℕ, ℤ, pos, negsuc, List, ◌++◌, ◌∷◌, [], length, Option, Some, None, IsTrue, slice_get, true, false};
ghost use Rattle.cx_base.specs.declared.value.Scalar.{Scalar};
ghost use Rattle.cx_base.specs.declared.value.Scalar.TheVariants.{Bool, Int, Unsigned, LongLong, ULongLong};
ghost use Rattle.cx_machine.specs.declared.operators.UnaryOperator.{UnaryOperator};
ghost use Rattle.cx_machine.specs.declared.operators.UnaryOperator.TheVariants.{Minus, Complement};
ghost use Rattle.cx_machine.specs.declared.operators.BinaryOperator.{BinaryOperator};
ghost use Rattle.cx_machine.specs.declared.operators.BinaryOperator.TheVariants.{Add, Multiply, Divide, Remainder, ShiftLeft, ShiftRight, BitAnd, BitOr};
ghost use Rattle.cx_machine.specs.Scalars.{least, greatest, converted, is_value};
ghost use Rattle.cx_machine.specs.Arithmetic.{unary_result, binary_result, unary_type};
ghost use Rattle.cx_machine.specs.Values.{Val};
ghost use Rattle.cx_machine.specs.Machine.{State, Run, Place, Undefined, bind, give, make, whole, read, write, ended};

/// Arithmetic at its edges.
pub fn arithmetic()
    ensures overflow { (binary_result Add Int (greatest Int) (pos 1) ≡ None) × (binary_result Add Unsigned (greatest Unsigned) (pos 1) ≡ Some (pos 0))
        × (binary_result Multiply LongLong (pos (2 ^ 62)) (pos 2) ≡ None) × (binary_result Multiply ULongLong (pos (2 ^ 63)) (pos 2) ≡ Some (pos 0))
        × (unary_result Minus Int (least Int) ≡ None) × (unary_result Minus Unsigned (pos 1) ≡ Some (greatest Unsigned)) × (unary_result Complement Int (pos 0) ≡ Some (negsuc 0)) }
    // Towards zero, and the remainder has the sign of the left operand.
    ensures division { (binary_result Divide Int (negsuc 6) (pos 2) ≡ Some (negsuc 2)) × (binary_result Remainder Int (negsuc 6) (pos 2) ≡ Some (negsuc 0))
        × (binary_result Remainder Int (pos 7) (negsuc 1) ≡ Some (pos 1)) × (binary_result Divide Int (pos 1) (pos 0) ≡ None)
        × (binary_result Divide Int (least Int) (negsuc 0) ≡ None) × (binary_result Remainder LongLong (least LongLong) (negsuc 0) ≡ None) }
    ensures shifts { (binary_result ShiftLeft Int (pos 1) (pos 31) ≡ Some (least Int)) × (binary_result ShiftLeft Int (pos 1) (pos 32) ≡ None) × (binary_result ShiftRight Int (negsuc 2) (pos 1) ≡ Some (negsuc 1))
        × (binary_result ShiftRight Int (pos 1) (negsuc 0) ≡ None) × (binary_result ShiftLeft LongLong (pos 3) (pos 63) ≡ Some (least LongLong)) }
    ensures bits { (binary_result BitAnd Int (negsuc 0) (pos 12) ≡ Some (pos 12)) × (binary_result BitOr Int (least Int) (pos 1) ≡ Some (negsuc 2147483646)) }
    ensures conversions { (converted Bool (pos 2) ≡ pos 1) × (converted Bool (pos 0) ≡ pos 0) × (converted Int (greatest Unsigned) ≡ negsuc 0) × (converted Unsigned (negsuc 0) ≡ greatest Unsigned)
        × (converted Int (pos (2 ^ 32)) ≡ pos 0) × (converted ULongLong (negsuc 0) ≡ greatest ULongLong) × (converted Unsigned (greatest LongLong) ≡ greatest Unsigned) }
{}

/// What an operator or a conversion gives is a value of its type, where the operands are values of theirs.
pub fn values_of_types()
    ensures conversion { (t : Scalar) (z : ℤ) → IsTrue (is_value t (converted t z)) }
    ensures unary { (operator : UnaryOperator) (t : Scalar) (x z : ℤ) → IsTrue (is_value t x) → unary_result operator t x ≡ Some z → IsTrue (is_value (unary_type operator t) z) }
    ensures binary { (operator : BinaryOperator) (t : Scalar) (x y z : ℤ) → IsTrue (is_value t x) → binary_result operator t x y ≡ Some z → IsTrue (is_value t z) }
{}

/// Runs follow one another in one order, however they are gathered.
pub fn order()
    ensures nothing_first { (v : Val) (next : Val → Run Val) (s : State) → bind (give v) next s ≡ next v s }
    ensures nothing_last { (run : Run Val) (s : State) → bind run give s ≡ run s }
    ensures gathered { (run : Run Val) (next after : Val → Run Val) (s : State) → bind (bind run next) after s ≡ bind run (λ v. bind (next v) after) s }
{}

/// What is read of an object is what was made or written there last, until its lifetime ends.
pub fn objects()
    ensures made { (globals : List Val) (v : Val) (s : State) → bind (make v) (λ k. read globals (whole k)) s ≡ bind (make v) (λ k. give v) s }
    ensures written { (globals : List Val) (v w : Val) (s : State) → bind (make v) (λ k. bind (write (whole k) w) (λ u. read globals (whole k))) s ≡ bind (make w) (λ k. give w) s }
    ensures over { (globals : List Val) (k n : ℕ) (s : State) → n ≤ k → read globals (whole k) (record s { store = ended n s.store }) ≡ Undefined s.printed }
{}
