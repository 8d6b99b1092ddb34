//! Requires-expressions ([expr.prim.req]).

ghost use Rattle.std.specs.Prelude.{◌≡◌, [], ◌∷◌, pos};
ghost use Rattle.cx_base.specs.declared.kind.Kind.TheVariants as kind;
ghost use Rattle.cx_base.specs.declared.value.Scalar.TheVariants as scalars;
ghost use Rattle.cx_term.specs.Term.{val};
ghost use Rattle.cx_questions.specs.Answers.{soft};
ghost use Rattle.worked_units.specs.Units.{p, called, valued, won, holds, fails, through, int};
ghost use Rattle.worked_units.specs.Requirements.{container_unit, container_unit_assert_14_1, container_unit_assert_15_1, container_unit_call_18_10, container_unit_call_18_3, container_unit_call_19_9, container_unit_call_20_49, container_unit_locals_18_10, container_unit_locals_18_3, container_unit_locals_19_9, container_unit_locals_20_49, in_order_unit, in_order_unit_assert_3_1, in_order_unit_assert_4_1, invalid_parameter_unit, invalid_parameter_unit_assert_3_1, invalid_parameter_unit_assert_4_1, invalid_parameter_unit_assert_5_1, member_functions_unit, member_functions_unit_assert_5_1, member_functions_unit_assert_6_1, member_functions_unit_assert_7_1, member_functions_unit_assert_8_1, nested_requirement_unit, nested_requirement_unit_assert_4_1, nested_requirement_unit_assert_5_1, nested_requirement_unit_assert_6_1, outside_a_template_unit, outside_a_template_unit_assert_2_1, outside_a_template_unit_assert_3_1, outside_a_template_unit_assert_5_1, type_of_a_member_unit, type_of_a_member_unit_assert_10_1, type_of_a_member_unit_assert_8_1, type_of_a_member_unit_assert_9_1};

/// A compound requirement's constraint takes the type of a parenthesised expression.
pub fn type_of_a_member()
    ensures value { valued type_of_a_member_unit type_of_a_member_unit_assert_8_1 ≡ fails }
    ensures place { valued type_of_a_member_unit type_of_a_member_unit_assert_9_1 ≡ holds }
    ensures sum { valued type_of_a_member_unit type_of_a_member_unit_assert_10_1 ≡ holds }
{}

/// Outside a template an invalid requirement is a fault of the unit.
pub fn outside_a_template()
    ensures fault { valued outside_a_template_unit outside_a_template_unit_assert_2_1 ≡ soft kind.InvalidExpr (p 2 31) }
    ensures valid { valued outside_a_template_unit outside_a_template_unit_assert_3_1 ≡ holds }
    ensures in_a_template { valued outside_a_template_unit outside_a_template_unit_assert_5_1 ≡ fails }
{}

/// A parameter whose type is invalid makes the expression false.
pub fn invalid_parameter()
    ensures int { valued invalid_parameter_unit invalid_parameter_unit_assert_3_1 ≡ holds }
    ensures reference_to_void { valued invalid_parameter_unit invalid_parameter_unit_assert_4_1 ≡ fails }
    ensures void_parameter { valued invalid_parameter_unit invalid_parameter_unit_assert_5_1 ≡ fails }
{}

/// A nested requirement needs its constraint satisfied, with the parameters in sight.
pub fn nested_requirement()
    ensures int { valued nested_requirement_unit nested_requirement_unit_assert_4_1 ≡ holds }
    ensures bool { valued nested_requirement_unit nested_requirement_unit_assert_5_1 ≡ fails }
    ensures either { valued nested_requirement_unit nested_requirement_unit_assert_6_1 ≡ holds }
{}

/// Requirements are checked in order, up to the first that fails.
pub fn in_order()
    ensures stops { valued in_order_unit in_order_unit_assert_3_1 ≡ fails }
    ensures goes_on { valued in_order_unit in_order_unit_assert_4_1 ≡ through kind.InvalidType (p 1 36) (p 2 74 ∷ []) }
{}

/// A requirement on member functions, const or not.
pub fn member_functions()
    ensures sized { valued member_functions_unit member_functions_unit_assert_5_1 ≡ holds }
    ensures grows { valued member_functions_unit member_functions_unit_assert_6_1 ≡ holds }
    ensures not_on_const { valued member_functions_unit member_functions_unit_assert_7_1 ≡ fails }
    ensures no_struct { valued member_functions_unit member_functions_unit_assert_8_1 ≡ fails }
{}

/// A container of a realistic unit.
pub fn container()
    ensures profile { valued container_unit container_unit_assert_14_1 ≡ holds }
    ensures empty_ring { valued container_unit container_unit_assert_15_1 ≡ soft kind.Unsatisfied (p 15 25) }
    ensures clamp { called container_unit container_unit_call_18_10 container_unit_locals_18_10 ≡ won 7 (int ∷ []) [] }
    ensures sum { called container_unit container_unit_call_19_9 container_unit_locals_19_9 ≡ won 13 (int ∷ val scalars.Int (pos 4) ∷ []) [] }
    ensures size { called container_unit container_unit_call_20_49 container_unit_locals_20_49 ≡ won 12 (int ∷ val scalars.Int (pos 4) ∷ []) [] }
    ensures push { called container_unit container_unit_call_18_3 container_unit_locals_18_3 ≡ won 14 (int ∷ val scalars.Int (pos 4) ∷ []) [] }
{}
