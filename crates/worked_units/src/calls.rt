//! Calls as expressions ([expr.call]), and names that are not called.

ghost use Rattle.std.specs.Prelude.{◌≡◌, [], ◌∷◌};
ghost use Rattle.cx_base.specs.declared.kind.Kind.TheVariants as kind;
ghost use Rattle.cx_questions.specs.Answers.{soft, hard};
ghost use Rattle.worked_units.specs.Units.{p, called, valued, won, holds, fails};
ghost use Rattle.worked_units.specs.Calls.{bodies_and_locals_unit, bodies_and_locals_unit_call_10_3, bodies_and_locals_unit_call_11_3, bodies_and_locals_unit_call_12_3, bodies_and_locals_unit_call_13_3, bodies_and_locals_unit_call_14_3, bodies_and_locals_unit_call_15_3, bodies_and_locals_unit_call_16_3, bodies_and_locals_unit_call_17_3, bodies_and_locals_unit_call_18_10, bodies_and_locals_unit_call_9_3, bodies_and_locals_unit_locals_10_3, bodies_and_locals_unit_locals_11_3, bodies_and_locals_unit_locals_12_3, bodies_and_locals_unit_locals_13_3, bodies_and_locals_unit_locals_14_3, bodies_and_locals_unit_locals_15_3, bodies_and_locals_unit_locals_16_3, bodies_and_locals_unit_locals_17_3, bodies_and_locals_unit_locals_18_10, bodies_and_locals_unit_locals_9_3, names_not_called_unit, names_not_called_unit_assert_11_1, names_not_called_unit_assert_12_1, names_not_called_unit_assert_13_1, names_not_called_unit_assert_14_1, names_not_called_unit_assert_15_1, names_not_called_unit_assert_16_1, names_not_called_unit_assert_17_1, names_not_called_unit_assert_18_1, results_unit, results_unit_assert_14_1, results_unit_assert_15_1, results_unit_assert_16_1, results_unit_assert_17_1, results_unit_assert_18_1, results_unit_assert_19_1, results_unit_assert_8_1, results_unit_assert_9_1};

/// A call's result is an lvalue for a reference, and a prvalue otherwise.
pub fn results()
    ensures prvalue { valued results_unit results_unit_assert_8_1 ≡ holds }
    ensures of_void { valued results_unit results_unit_assert_9_1 ≡ holds }
    ensures place { valued results_unit results_unit_assert_14_1 ≡ holds }
    ensures other_type { valued results_unit results_unit_assert_15_1 ≡ fails }
    ensures look { valued results_unit results_unit_assert_16_1 ≡ holds }
    ensures to_const { valued results_unit results_unit_assert_17_1 ≡ fails }
    ensures member_of_prvalue { valued results_unit results_unit_assert_18_1 ≡ holds }
    ensures const_struct { valued results_unit results_unit_assert_19_1 ≡ hard kind.Unsupported (p 5 1) }
{}

/// Names that mean no value, and functions that are not called.
pub fn names_not_called()
    ensures constant { valued names_not_called_unit names_not_called_unit_assert_11_1 ≡ fails }
    ensures a_local { valued names_not_called_unit names_not_called_unit_assert_12_1 ≡ fails }
    ensures a_field { valued names_not_called_unit names_not_called_unit_assert_13_1 ≡ fails }
    ensures no_struct { valued names_not_called_unit names_not_called_unit_assert_14_1 ≡ fails }
    ensures a_function { valued names_not_called_unit names_not_called_unit_assert_15_1 ≡ hard kind.Unsupported (p 8 62) }
    ensures a_concept { valued names_not_called_unit names_not_called_unit_assert_16_1 ≡ fails }
    ensures arguments_first { valued names_not_called_unit names_not_called_unit_assert_17_1 ≡ fails }
    ensures outside { valued names_not_called_unit names_not_called_unit_assert_18_1 ≡ soft kind.InvalidExpr (p 18 15) }
{}

/// Calls in function bodies, with locals as arguments.
pub fn bodies_and_locals()
    ensures of_struct { called bodies_and_locals_unit bodies_and_locals_unit_call_9_3 bodies_and_locals_unit_locals_9_3 ≡ won 3 [] [] }
    ensures of_int { called bodies_and_locals_unit bodies_and_locals_unit_call_10_3 bodies_and_locals_unit_locals_10_3 ≡ won 4 [] [] }
    ensures of_member { called bodies_and_locals_unit bodies_and_locals_unit_call_11_3 bodies_and_locals_unit_locals_11_3 ≡ won 4 [] [] }
    ensures of_variable { called bodies_and_locals_unit bodies_and_locals_unit_call_12_3 bodies_and_locals_unit_locals_12_3 ≡ won 5 [] [] }
    ensures of_const_variable { called bodies_and_locals_unit bodies_and_locals_unit_call_13_3 bodies_and_locals_unit_locals_13_3 ≡ won 6 [] [] }
    ensures of_reference_to_const { called bodies_and_locals_unit bodies_and_locals_unit_call_14_3 bodies_and_locals_unit_locals_14_3 ≡ won 6 [] [] }
    ensures of_reference { called bodies_and_locals_unit bodies_and_locals_unit_call_15_3 bodies_and_locals_unit_locals_15_3 ≡ won 5 [] [] }
    ensures of_prvalue { called bodies_and_locals_unit bodies_and_locals_unit_call_16_3 bodies_and_locals_unit_locals_16_3 ≡ won 6 [] [] }
    ensures of_bool_member { called bodies_and_locals_unit bodies_and_locals_unit_call_17_3 bodies_and_locals_unit_locals_17_3 ≡ won 4 [] [] }
    ensures of_list { called bodies_and_locals_unit bodies_and_locals_unit_call_18_10 bodies_and_locals_unit_locals_18_10 ≡ won 3 [] [] }
{}
