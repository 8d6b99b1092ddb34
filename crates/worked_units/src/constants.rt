//! Values of constant expressions of scalars ([expr.const], [conv.integral], [expr.arith.conv]).

ghost use Rattle.std.specs.Prelude.{◌≡◌, [], ◌∷◌};
ghost use Rattle.cx_base.specs.declared.kind.Kind.TheVariants as kind;
ghost use Rattle.cx_questions.specs.Answers.{soft, hard};
ghost use Rattle.worked_units.specs.Units.{p, valued, holds, fails, through};
ghost use Rattle.worked_units.specs.Constants.{arithmetic_unit, arithmetic_unit_assert_10_1, arithmetic_unit_assert_11_1, arithmetic_unit_assert_12_1, arithmetic_unit_assert_13_1, arithmetic_unit_assert_14_1, arithmetic_unit_assert_15_1, arithmetic_unit_assert_16_1, arithmetic_unit_assert_17_1, arithmetic_unit_assert_18_1, arithmetic_unit_assert_19_1, arithmetic_unit_assert_1_1, arithmetic_unit_assert_20_1, arithmetic_unit_assert_2_1, arithmetic_unit_assert_3_1, arithmetic_unit_assert_4_1, arithmetic_unit_assert_5_1, arithmetic_unit_assert_6_1, arithmetic_unit_assert_7_1, arithmetic_unit_assert_8_1, arithmetic_unit_assert_9_1, constants_of_instances_unit, constants_of_instances_unit_assert_4_1, constants_of_instances_unit_assert_5_1, constants_of_instances_unit_assert_6_1, constants_of_instances_unit_assert_7_1, conversions_unit, conversions_unit_assert_10_1, conversions_unit_assert_11_1, conversions_unit_assert_12_1, conversions_unit_assert_4_1, conversions_unit_assert_5_1, conversions_unit_assert_6_1, conversions_unit_assert_7_1, conversions_unit_assert_8_1, conversions_unit_assert_9_1, not_built_unit, not_built_unit_assert_2_1, short_circuit_unit, short_circuit_unit_assert_2_1, short_circuit_unit_assert_3_1, short_circuit_unit_assert_4_1, short_circuit_unit_assert_5_1, short_circuit_unit_assert_6_1};

/// Arithmetic in the common type, modulo 2 to the width where it is unsigned.
pub fn arithmetic()
    ensures to_unsigned { valued arithmetic_unit arithmetic_unit_assert_1_1 ≡ holds }
    ensures wraps { valued arithmetic_unit arithmetic_unit_assert_2_1 ≡ holds }
    ensures towards_zero { valued arithmetic_unit arithmetic_unit_assert_3_1 ≡ holds }
    ensures remainder { valued arithmetic_unit arithmetic_unit_assert_4_1 ≡ holds }
    ensures shift_modulo { valued arithmetic_unit arithmetic_unit_assert_5_1 ≡ holds }
    ensures shift_arithmetic { valued arithmetic_unit arithmetic_unit_assert_6_1 ≡ holds }
    ensures complement { valued arithmetic_unit arithmetic_unit_assert_7_1 ≡ holds }
    ensures minus_as_unsigned { valued arithmetic_unit arithmetic_unit_assert_8_1 ≡ fails }
    ensures minus_as_long_long { valued arithmetic_unit arithmetic_unit_assert_9_1 ≡ holds }
    ensures bits { valued arithmetic_unit arithmetic_unit_assert_10_1 ≡ holds }
    ensures overflow { valued arithmetic_unit arithmetic_unit_assert_11_1 ≡ soft kind.NotConstant (p 11 15) }
    ensures by_zero { valued arithmetic_unit arithmetic_unit_assert_12_1 ≡ soft kind.NotConstant (p 12 15) }
    ensures remainder_by_zero { valued arithmetic_unit arithmetic_unit_assert_13_1 ≡ soft kind.NotConstant (p 13 15) }
    ensures count_of_width { valued arithmetic_unit arithmetic_unit_assert_14_1 ≡ soft kind.NotConstant (p 14 15) }
    ensures negative_count { valued arithmetic_unit arithmetic_unit_assert_15_1 ≡ soft kind.NotConstant (p 15 15) }
    ensures quotient_out_of_range { valued arithmetic_unit arithmetic_unit_assert_16_1 ≡ soft kind.NotConstant (p 16 15) }
    ensures remainder_out_of_range { valued arithmetic_unit arithmetic_unit_assert_17_1 ≡ soft kind.NotConstant (p 17 15) }
    ensures shift_of_unsigned { valued arithmetic_unit arithmetic_unit_assert_18_1 ≡ holds }
    ensures long_wraps { valued arithmetic_unit arithmetic_unit_assert_19_1 ≡ holds }
    ensures long_overflow { valued arithmetic_unit arithmetic_unit_assert_20_1 ≡ soft kind.NotConstant (p 20 15) }
{}

/// What && , || and the conditional do not reach need not have a meaning, but each constant in it is taken.
pub fn short_circuit()
    ensures right_of_or { valued short_circuit_unit short_circuit_unit_assert_2_1 ≡ holds }
    ensures right_of_and { valued short_circuit_unit short_circuit_unit_assert_3_1 ≡ fails }
    ensures other_branch { valued short_circuit_unit short_circuit_unit_assert_4_1 ≡ holds }
    ensures constant_not_reached { valued short_circuit_unit short_circuit_unit_assert_5_1 ≡ hard kind.NotConstant (p 1 69) }
    ensures left_of_or { valued short_circuit_unit short_circuit_unit_assert_6_1 ≡ soft kind.NotConstant (p 6 15) }
{}

/// Conversions to bool and between integer types.
pub fn conversions()
    ensures bool_of_two { valued conversions_unit conversions_unit_assert_4_1 ≡ holds }
    ensures unsigned_of_minus { valued conversions_unit conversions_unit_assert_5_1 ≡ holds }
    ensures long_of_bool { valued conversions_unit conversions_unit_assert_6_1 ≡ holds }
    ensures cast_to_bool { valued conversions_unit conversions_unit_assert_7_1 ≡ holds }
    ensures cast_to_int { valued conversions_unit conversions_unit_assert_8_1 ≡ holds }
    ensures cast_to_unsigned { valued conversions_unit conversions_unit_assert_9_1 ≡ holds }
    ensures list { valued conversions_unit conversions_unit_assert_10_1 ≡ holds }
    ensures narrowing { valued conversions_unit conversions_unit_assert_11_1 ≡ soft kind.InvalidExpr (p 11 15) }
    ensures narrowing_to_bool { valued conversions_unit conversions_unit_assert_12_1 ≡ soft kind.InvalidExpr (p 12 15) }
{}

/// Static constants of class instances, by their arguments; a fault in one has its use in its chain.
pub fn constants_of_instances()
    ensures value { valued constants_of_instances_unit constants_of_instances_unit_assert_4_1 ≡ holds }
    ensures by_bare_name { valued constants_of_instances_unit constants_of_instances_unit_assert_5_1 ≡ holds }
    ensures fault { valued constants_of_instances_unit constants_of_instances_unit_assert_6_1 ≡ through kind.NotConstant (p 2 55) (p 6 15 ∷ []) }
    ensures invalid_inside { valued constants_of_instances_unit constants_of_instances_unit_assert_7_1 ≡ through kind.InvalidExpr (p 3 61) (p 7 15 ∷ []) }
{}

/// Calls in constant expressions are refused until they are built.
pub fn not_built()
    ensures call { valued not_built_unit not_built_unit_assert_2_1 ≡ hard kind.Unsupported (p 2 15) }
{}
