//! Types and categories of expressions ([expr]), by decltype of parenthesised expressions and by requirements.

ghost use Rattle.std.specs.Prelude.{◌≡◌, [], ◌∷◌};
ghost use Rattle.cx_base.specs.declared.kind.Kind.TheVariants as kind;
ghost use Rattle.cx_questions.specs.Answers.{soft, hard};
ghost use Rattle.worked_units.specs.Units.{p, valued, holds, fails};
ghost use Rattle.worked_units.specs.Typing.{assignments_unit, assignments_unit_assert_10_1, assignments_unit_assert_11_1, assignments_unit_assert_12_1, assignments_unit_assert_13_1, assignments_unit_assert_14_1, assignments_unit_assert_15_1, assignments_unit_assert_16_1, assignments_unit_assert_17_1, assignments_unit_assert_18_1, assignments_unit_assert_8_1, assignments_unit_assert_9_1, binary_operators_unit, binary_operators_unit_assert_10_1, binary_operators_unit_assert_11_1, binary_operators_unit_assert_12_1, binary_operators_unit_assert_13_1, binary_operators_unit_assert_18_1, binary_operators_unit_assert_19_1, binary_operators_unit_assert_20_1, binary_operators_unit_assert_21_1, binary_operators_unit_assert_2_1, binary_operators_unit_assert_3_1, binary_operators_unit_assert_4_1, binary_operators_unit_assert_5_1, binary_operators_unit_assert_6_1, binary_operators_unit_assert_7_1, binary_operators_unit_assert_8_1, binary_operators_unit_assert_9_1, casts_unit, casts_unit_assert_10_1, casts_unit_assert_11_1, casts_unit_assert_12_1, casts_unit_assert_13_1, casts_unit_assert_14_1, casts_unit_assert_15_1, casts_unit_assert_16_1, casts_unit_assert_17_1, casts_unit_assert_18_1, casts_unit_assert_19_1, casts_unit_assert_20_1, casts_unit_assert_21_1, casts_unit_assert_22_1, casts_unit_assert_23_1, casts_unit_assert_24_1, casts_unit_assert_25_1, casts_unit_assert_4_1, casts_unit_assert_5_1, casts_unit_assert_9_1, conditionals_unit, conditionals_unit_assert_12_1, conditionals_unit_assert_13_1, conditionals_unit_assert_14_1, conditionals_unit_assert_15_1, conditionals_unit_assert_16_1, conditionals_unit_assert_17_1, conditionals_unit_assert_18_1, conditionals_unit_assert_19_1, conditionals_unit_assert_20_1, conditionals_unit_assert_21_1, conditionals_unit_assert_22_1, conditionals_unit_assert_23_1, conditionals_unit_assert_24_1, conditionals_unit_assert_25_1, const_field_unit, const_field_unit_assert_3_1, lists_unit, lists_unit_assert_12_1, lists_unit_assert_13_1, lists_unit_assert_14_1, lists_unit_assert_15_1, lists_unit_assert_16_1, lists_unit_assert_17_1, lists_unit_assert_18_1, lists_unit_assert_19_1, lists_unit_assert_20_1, lists_unit_assert_21_1, lists_unit_assert_22_1, lists_unit_assert_23_1, lists_unit_assert_24_1, lists_unit_assert_25_1, lists_unit_assert_26_1, lists_unit_assert_27_1, lists_unit_assert_28_1, lists_unit_assert_29_1, lists_unit_assert_30_1, lists_unit_assert_31_1, lists_unit_assert_32_1, lists_unit_assert_33_1, lists_unit_assert_5_1, lists_unit_assert_6_1, lists_unit_assert_7_1, literals_and_names_unit, literals_and_names_unit_assert_10_1, literals_and_names_unit_assert_11_1, literals_and_names_unit_assert_12_1, literals_and_names_unit_assert_13_1, literals_and_names_unit_assert_4_1, literals_and_names_unit_assert_5_1, literals_and_names_unit_assert_6_1, literals_and_names_unit_assert_7_1, literals_and_names_unit_assert_8_1, literals_and_names_unit_assert_9_1, parameters_and_members_unit, parameters_and_members_unit_assert_10_1, parameters_and_members_unit_assert_11_1, parameters_and_members_unit_assert_12_1, parameters_and_members_unit_assert_13_1, parameters_and_members_unit_assert_14_1, parameters_and_members_unit_assert_15_1, printing_unit, printing_unit_assert_4_1, printing_unit_assert_5_1, printing_unit_assert_6_1, qualified_names_unit, qualified_names_unit_assert_12_1, qualified_names_unit_assert_13_1, qualified_names_unit_assert_14_1, qualified_names_unit_assert_15_1, qualified_names_unit_assert_16_1, qualified_names_unit_assert_17_1, qualified_names_unit_assert_18_1, qualified_names_unit_assert_19_1, qualified_names_unit_assert_20_1, qualified_names_unit_assert_21_1, qualified_names_unit_assert_22_1, qualified_names_unit_assert_23_1, qualified_names_unit_assert_24_1, qualified_names_unit_assert_25_1, qualified_names_unit_assert_26_1, qualified_names_unit_assert_27_1, qualified_names_unit_assert_28_1, references_unit, references_unit_assert_10_1, references_unit_assert_11_1, references_unit_assert_12_1, references_unit_assert_13_1, references_unit_assert_14_1, references_unit_assert_15_1, references_unit_assert_6_1, references_unit_assert_7_1, references_unit_assert_8_1, references_unit_assert_9_1, unary_operators_unit, unary_operators_unit_assert_12_1, unary_operators_unit_assert_13_1, unary_operators_unit_assert_14_1, unary_operators_unit_assert_15_1, unary_operators_unit_assert_16_1, unary_operators_unit_assert_17_1, unary_operators_unit_assert_18_1, unary_operators_unit_assert_19_1, unary_operators_unit_assert_2_1, unary_operators_unit_assert_3_1, unary_operators_unit_assert_4_1, unary_operators_unit_assert_5_1};

/// Literals are prvalues; names of variables and members are lvalues.
pub fn literals_and_names()
    ensures int { valued literals_and_names_unit literals_and_names_unit_assert_4_1 ≡ holds }
    ensures unsigned { valued literals_and_names_unit literals_and_names_unit_assert_5_1 ≡ holds }
    ensures long_long { valued literals_and_names_unit literals_and_names_unit_assert_6_1 ≡ holds }
    ensures large { valued literals_and_names_unit literals_and_names_unit_assert_7_1 ≡ holds }
    ensures hexadecimal { valued literals_and_names_unit literals_and_names_unit_assert_8_1 ≡ holds }
    ensures bool { valued literals_and_names_unit literals_and_names_unit_assert_9_1 ≡ holds }
    ensures constant { valued literals_and_names_unit literals_and_names_unit_assert_10_1 ≡ holds }
    ensures declared { valued literals_and_names_unit literals_and_names_unit_assert_11_1 ≡ holds }
    ensures static_constant { valued literals_and_names_unit literals_and_names_unit_assert_12_1 ≡ holds }
    ensures static_declared { valued literals_and_names_unit literals_and_names_unit_assert_13_1 ≡ holds }
{}

/// A field whose type is const is not supported, wherever its class is asked for.
pub fn const_field()
    ensures fault { valued const_field_unit const_field_unit_assert_3_1 ≡ hard kind.Unsupported (p 1 12) }
{}

/// A parameter has its declared type; a member follows its object.
pub fn parameters_and_members()
    ensures variable { valued parameters_and_members_unit parameters_and_members_unit_assert_10_1 ≡ holds }
    ensures member { valued parameters_and_members_unit parameters_and_members_unit_assert_11_1 ≡ holds }
    ensures of_value { valued parameters_and_members_unit parameters_and_members_unit_assert_12_1 ≡ holds }
    ensures xvalue { valued parameters_and_members_unit parameters_and_members_unit_assert_13_1 ≡ hard kind.Unsupported (p 3 47) }
    ensures absent { valued parameters_and_members_unit parameters_and_members_unit_assert_14_1 ≡ fails }
    ensures of_scalar { valued parameters_and_members_unit parameters_and_members_unit_assert_15_1 ≡ fails }
{}

/// Operators of one operand.
pub fn unary_operators()
    ensures plus { valued unary_operators_unit unary_operators_unit_assert_2_1 ≡ holds }
    ensures minus { valued unary_operators_unit unary_operators_unit_assert_3_1 ≡ holds }
    ensures complement { valued unary_operators_unit unary_operators_unit_assert_4_1 ≡ holds }
    ensures not { valued unary_operators_unit unary_operators_unit_assert_5_1 ≡ holds }
    ensures before { valued unary_operators_unit unary_operators_unit_assert_12_1 ≡ holds }
    ensures before_bool { valued unary_operators_unit unary_operators_unit_assert_13_1 ≡ fails }
    ensures after { valued unary_operators_unit unary_operators_unit_assert_14_1 ≡ holds }
    ensures after_bool { valued unary_operators_unit unary_operators_unit_assert_15_1 ≡ fails }
    ensures of_const { valued unary_operators_unit unary_operators_unit_assert_16_1 ≡ fails }
    ensures of_prvalue { valued unary_operators_unit unary_operators_unit_assert_17_1 ≡ fails }
    ensures plus_of_bool { valued unary_operators_unit unary_operators_unit_assert_18_1 ≡ holds }
    ensures plus_of_struct { valued unary_operators_unit unary_operators_unit_assert_19_1 ≡ fails }
{}

/// Operators of two operands: the common type, the promoted left one, bool.
pub fn binary_operators()
    ensures bools { valued binary_operators_unit binary_operators_unit_assert_2_1 ≡ holds }
    ensures mixed { valued binary_operators_unit binary_operators_unit_assert_3_1 ≡ holds }
    ensures wider_signed { valued binary_operators_unit binary_operators_unit_assert_4_1 ≡ holds }
    ensures as_wide_unsigned { valued binary_operators_unit binary_operators_unit_assert_5_1 ≡ holds }
    ensures wider { valued binary_operators_unit binary_operators_unit_assert_6_1 ≡ holds }
    ensures wider_unsigned { valued binary_operators_unit binary_operators_unit_assert_7_1 ≡ holds }
    ensures shift { valued binary_operators_unit binary_operators_unit_assert_8_1 ≡ holds }
    ensures shift_of_unsigned { valued binary_operators_unit binary_operators_unit_assert_9_1 ≡ holds }
    ensures less { valued binary_operators_unit binary_operators_unit_assert_10_1 ≡ holds }
    ensures equal { valued binary_operators_unit binary_operators_unit_assert_11_1 ≡ holds }
    ensures both { valued binary_operators_unit binary_operators_unit_assert_12_1 ≡ holds }
    ensures bit_or { valued binary_operators_unit binary_operators_unit_assert_13_1 ≡ holds }
    ensures struct_operand { valued binary_operators_unit binary_operators_unit_assert_18_1 ≡ fails }
    ensures struct_condition { valued binary_operators_unit binary_operators_unit_assert_19_1 ≡ fails }
    ensures structs { valued binary_operators_unit binary_operators_unit_assert_20_1 ≡ fails }
    ensures scalars { valued binary_operators_unit binary_operators_unit_assert_21_1 ≡ holds }
{}

/// Assignment to an lvalue that is not const.
pub fn assignments()
    ensures scalars { valued assignments_unit assignments_unit_assert_8_1 ≡ holds }
    ensures one_struct { valued assignments_unit assignments_unit_assert_9_1 ≡ holds }
    ensures two_structs { valued assignments_unit assignments_unit_assert_10_1 ≡ fails }
    ensures struct_to_scalar { valued assignments_unit assignments_unit_assert_11_1 ≡ fails }
    ensures const_scalar { valued assignments_unit assignments_unit_assert_12_1 ≡ fails }
    ensures const_struct { valued assignments_unit assignments_unit_assert_13_1 ≡ fails }
    ensures prvalue { valued assignments_unit assignments_unit_assert_14_1 ≡ fails }
    ensures struct_prvalue { valued assignments_unit assignments_unit_assert_15_1 ≡ hard kind.Unsupported (p 6 68) }
    ensures struct_prvalue_of_other { valued assignments_unit assignments_unit_assert_16_1 ≡ fails }
    ensures compound { valued assignments_unit assignments_unit_assert_17_1 ≡ holds }
    ensures compound_struct { valued assignments_unit assignments_unit_assert_18_1 ≡ fails }
{}

/// The conditional operator.
pub fn conditionals()
    ensures lvalues { valued conditionals_unit conditionals_unit_assert_12_1 ≡ holds }
    ensures struct_lvalues { valued conditionals_unit conditionals_unit_assert_13_1 ≡ holds }
    ensures values { valued conditionals_unit conditionals_unit_assert_14_1 ≡ holds }
    ensures struct_values { valued conditionals_unit conditionals_unit_assert_15_1 ≡ holds }
    ensures common { valued conditionals_unit conditionals_unit_assert_16_1 ≡ holds }
    ensures with_bool { valued conditionals_unit conditionals_unit_assert_17_1 ≡ holds }
    ensures scalar_and_struct { valued conditionals_unit conditionals_unit_assert_18_1 ≡ fails }
    ensures two_structs { valued conditionals_unit conditionals_unit_assert_19_1 ≡ fails }
    ensures const_struct { valued conditionals_unit conditionals_unit_assert_20_1 ≡ hard kind.Unsupported (p 7 67) }
    ensures const_scalar { valued conditionals_unit conditionals_unit_assert_21_1 ≡ holds }
    ensures with_xvalue { valued conditionals_unit conditionals_unit_assert_22_1 ≡ holds }
    ensures members { valued conditionals_unit conditionals_unit_assert_23_1 ≡ holds }
    ensures struct_xvalue { valued conditionals_unit conditionals_unit_assert_24_1 ≡ hard kind.Unsupported (p 11 62) }
    ensures condition { valued conditionals_unit conditionals_unit_assert_25_1 ≡ soft kind.InvalidExpr (p 25 31) }
{}

/// T{..} of scalars and structs, without narrowing.
pub fn lists()
    ensures zero { valued lists_unit lists_unit_assert_5_1 ≡ holds }
    ensures bool_of_one { valued lists_unit lists_unit_assert_6_1 ≡ holds }
    ensures unsigned_of_one { valued lists_unit lists_unit_assert_7_1 ≡ holds }
    ensures wider { valued lists_unit lists_unit_assert_12_1 ≡ holds }
    ensures narrower { valued lists_unit lists_unit_assert_13_1 ≡ fails }
    ensures from_bool { valued lists_unit lists_unit_assert_14_1 ≡ holds }
    ensures to_bool { valued lists_unit lists_unit_assert_15_1 ≡ fails }
    ensures to_unsigned { valued lists_unit lists_unit_assert_16_1 ≡ fails }
    ensures minus_to_unsigned { valued lists_unit lists_unit_assert_17_1 ≡ fails }
    ensures minus_to_int { valued lists_unit lists_unit_assert_18_1 ≡ holds }
    ensures three_to_bool { valued lists_unit lists_unit_assert_19_1 ≡ fails }
    ensures three_to_unsigned { valued lists_unit lists_unit_assert_20_1 ≡ holds }
    ensures two_for_a_scalar { valued lists_unit lists_unit_assert_21_1 ≡ fails }
    ensures copy { valued lists_unit lists_unit_assert_22_1 ≡ holds }
    ensures first_field { valued lists_unit lists_unit_assert_23_1 ≡ holds }
    ensures both_fields { valued lists_unit lists_unit_assert_24_1 ≡ holds }
    ensures narrowing_field { valued lists_unit lists_unit_assert_25_1 ≡ fails }
    ensures struct_field { valued lists_unit lists_unit_assert_26_1 ≡ holds }
    ensures brace_elision { valued lists_unit lists_unit_assert_27_1 ≡ hard kind.Unsupported (p 8 65) }
    ensures empty_copy { valued lists_unit lists_unit_assert_28_1 ≡ holds }
    ensures too_many { valued lists_unit lists_unit_assert_29_1 ≡ fails }
    ensures of_reference { valued lists_unit lists_unit_assert_30_1 ≡ hard kind.Unsupported (p 8 65) }
    ensures scalar_of_struct { valued lists_unit lists_unit_assert_31_1 ≡ fails }
    ensures of_const_struct { valued lists_unit lists_unit_assert_32_1 ≡ hard kind.Unsupported (p 8 65) }
    ensures of_void { valued lists_unit lists_unit_assert_33_1 ≡ hard kind.Unsupported (p 8 65) }
{}

/// static_cast to scalars, structs, void and references.
pub fn casts()
    ensures const_dropped { valued casts_unit casts_unit_assert_4_1 ≡ holds }
    ensures to_void { valued casts_unit casts_unit_assert_5_1 ≡ holds }
    ensures adds_const { valued casts_unit casts_unit_assert_9_1 ≡ holds }
    ensures scalars { valued casts_unit casts_unit_assert_10_1 ≡ holds }
    ensures scalar_of_struct { valued casts_unit casts_unit_assert_11_1 ≡ fails }
    ensures struct_itself { valued casts_unit casts_unit_assert_12_1 ≡ holds }
    ensures other_struct { valued casts_unit casts_unit_assert_13_1 ≡ fails }
    ensures struct_of_scalar { valued casts_unit casts_unit_assert_14_1 ≡ fails }
    ensures struct_to_void { valued casts_unit casts_unit_assert_15_1 ≡ holds }
    ensures reference { valued casts_unit casts_unit_assert_16_1 ≡ holds }
    ensures drops_const { valued casts_unit casts_unit_assert_17_1 ≡ fails }
    ensures reference_to_const { valued casts_unit casts_unit_assert_18_1 ≡ holds }
    ensures other_type { valued casts_unit casts_unit_assert_19_1 ≡ fails }
    ensures temporary { valued casts_unit casts_unit_assert_20_1 ≡ hard kind.Unsupported (p 6 64) }
    ensures prvalue_bound { valued casts_unit casts_unit_assert_21_1 ≡ hard kind.Unsupported (p 7 63) }
    ensures prvalue_not_bound { valued casts_unit casts_unit_assert_22_1 ≡ fails }
    ensures struct_temporary { valued casts_unit casts_unit_assert_23_1 ≡ hard kind.Unsupported (p 7 63) }
    ensures const_struct { valued casts_unit casts_unit_assert_24_1 ≡ hard kind.Unsupported (p 7 63) }
    ensures other_struct_reference { valued casts_unit casts_unit_assert_25_1 ≡ fails }
{}

/// Names after `::` and after `.`.
pub fn qualified_names()
    ensures constant { valued qualified_names_unit qualified_names_unit_assert_12_1 ≡ holds }
    ensures of_const { valued qualified_names_unit qualified_names_unit_assert_13_1 ≡ holds }
    ensures of_reference { valued qualified_names_unit qualified_names_unit_assert_14_1 ≡ fails }
    ensures of_scalar { valued qualified_names_unit qualified_names_unit_assert_15_1 ≡ fails }
    ensures absent { valued qualified_names_unit qualified_names_unit_assert_16_1 ≡ fails }
    ensures a_field { valued qualified_names_unit qualified_names_unit_assert_17_1 ≡ hard kind.Unsupported (p 4 49) }
    ensures a_function { valued qualified_names_unit qualified_names_unit_assert_18_1 ≡ hard kind.Unsupported (p 5 52) }
    ensures a_type { valued qualified_names_unit qualified_names_unit_assert_19_1 ≡ fails }
    ensures a_typename { valued qualified_names_unit qualified_names_unit_assert_20_1 ≡ holds }
    ensures typename_of_const { valued qualified_names_unit qualified_names_unit_assert_21_1 ≡ holds }
    ensures typename_of_reference { valued qualified_names_unit qualified_names_unit_assert_22_1 ≡ fails }
    ensures absent_type { valued qualified_names_unit qualified_names_unit_assert_23_1 ≡ fails }
    ensures dotted { valued qualified_names_unit qualified_names_unit_assert_24_1 ≡ hard kind.Unsupported (p 9 55) }
    ensures dotted_function { valued qualified_names_unit qualified_names_unit_assert_25_1 ≡ hard kind.Unsupported (p 10 63) }
    ensures dotted_type { valued qualified_names_unit qualified_names_unit_assert_26_1 ≡ fails }
    ensures absent_outside { valued qualified_names_unit qualified_names_unit_assert_27_1 ≡ soft kind.InvalidExpr (p 27 15) }
    ensures value { valued qualified_names_unit qualified_names_unit_assert_28_1 ≡ holds }
{}

/// Reference collapsing, const, and references to void ([dcl.ref]).
pub fn references()
    ensures collapses { valued references_unit references_unit_assert_6_1 ≡ holds }
    ensures does_not { valued references_unit references_unit_assert_7_1 ≡ fails }
    ensures const_of_reference { valued references_unit references_unit_assert_8_1 ≡ holds }
    ensures const_of_const { valued references_unit references_unit_assert_9_1 ≡ holds }
    ensures const_of_plain { valued references_unit references_unit_assert_10_1 ≡ fails }
    ensures refers { valued references_unit references_unit_assert_11_1 ≡ holds }
    ensures to_void { valued references_unit references_unit_assert_12_1 ≡ fails }
    ensures to_const_void { valued references_unit references_unit_assert_13_1 ≡ fails }
    ensures const_void { valued references_unit references_unit_assert_14_1 ≡ fails }
    ensures operand { valued references_unit references_unit_assert_15_1 ≡ holds }
{}

/// __out takes a scalar and is of type void.
pub fn printing()
    ensures of_scalar { valued printing_unit printing_unit_assert_4_1 ≡ holds }
    ensures of_struct { valued printing_unit printing_unit_assert_5_1 ≡ fails }
    ensures value { valued printing_unit printing_unit_assert_6_1 ≡ soft kind.NotConstant (p 6 15) }
{}
