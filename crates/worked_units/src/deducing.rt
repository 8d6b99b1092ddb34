//! Template arguments: deduced, given, by default ([temp.deduct.call], [temp.arg.explicit], [temp.param]).

ghost use Rattle.std.specs.Prelude.{◌≡◌, [], ◌∷◌, pos};
ghost use Rattle.cx_base.specs.declared.kind.Kind.TheVariants as kind;
ghost use Rattle.cx_base.specs.declared.value.Scalar.TheVariants as scalars;
ghost use Rattle.cx_term.specs.Term.{struct, const, ref, val};
ghost use Rattle.cx_questions.specs.Answers.{fault_at};
ghost use Rattle.worked_units.specs.Units.{p, d, called, nothing_known, won, none_viable_in, refused, broken_off, int, bool, unsigned};
ghost use Rattle.worked_units.specs.Deducing.{agreement_unit, agreement_unit_call_5_110, agreement_unit_call_5_123, agreement_unit_call_5_34, agreement_unit_call_5_44, agreement_unit_call_5_57, agreement_unit_call_5_75, agreement_unit_call_5_92, agreement_unit_locals_5_110, agreement_unit_locals_5_123, agreement_unit_locals_5_34, agreement_unit_locals_5_44, agreement_unit_locals_5_57, agreement_unit_locals_5_75, agreement_unit_locals_5_92, by_order_unit, by_order_unit_call_9_18, by_order_unit_call_9_25, by_order_unit_call_9_35, const_and_references_unit, const_and_references_unit_call_6_109, const_and_references_unit_call_6_36, const_and_references_unit_call_6_43, const_and_references_unit_call_6_50, const_and_references_unit_call_6_57, const_and_references_unit_call_6_64, const_and_references_unit_call_6_71, const_and_references_unit_call_6_78, const_and_references_unit_call_6_85, const_and_references_unit_call_6_92, const_and_references_unit_call_6_99, const_and_references_unit_locals_6_109, const_and_references_unit_locals_6_36, const_and_references_unit_locals_6_43, const_and_references_unit_locals_6_50, const_and_references_unit_locals_6_57, const_and_references_unit_locals_6_64, const_and_references_unit_locals_6_71, const_and_references_unit_locals_6_78, const_and_references_unit_locals_6_85, const_and_references_unit_locals_6_92, const_and_references_unit_locals_6_99, default_arguments_unit, default_arguments_unit_call_10_105, default_arguments_unit_call_10_111, default_arguments_unit_call_10_21, default_arguments_unit_call_10_28, default_arguments_unit_call_10_46, default_arguments_unit_call_10_52, default_arguments_unit_call_10_64, default_arguments_unit_call_10_71, default_arguments_unit_call_10_78, default_arguments_unit_call_10_84, default_arguments_unit_call_10_90, default_arguments_unit_call_10_99, default_arguments_unit_locals_10_105, default_arguments_unit_locals_10_111, default_arguments_unit_locals_10_21, default_arguments_unit_locals_10_28, default_arguments_unit_locals_10_46, default_arguments_unit_locals_10_52, default_arguments_unit_locals_10_64, default_arguments_unit_locals_10_71, default_arguments_unit_locals_10_78, default_arguments_unit_locals_10_84, default_arguments_unit_locals_10_90, default_arguments_unit_locals_10_99, explicit_unit, explicit_unit_call_10_3, explicit_unit_call_11_3, explicit_unit_call_12_3, explicit_unit_call_13_3, explicit_unit_call_14_3, explicit_unit_call_15_3, explicit_unit_call_16_3, explicit_unit_call_17_3, explicit_unit_call_18_3, explicit_unit_call_19_3, explicit_unit_call_20_3, explicit_unit_call_21_3, explicit_unit_call_22_3, explicit_unit_call_23_3, explicit_unit_call_24_3, explicit_unit_call_25_3, explicit_unit_call_26_10, explicit_unit_call_9_3, explicit_unit_locals_10_3, explicit_unit_locals_11_3, explicit_unit_locals_12_3, explicit_unit_locals_13_3, explicit_unit_locals_14_3, explicit_unit_locals_15_3, explicit_unit_locals_16_3, explicit_unit_locals_17_3, explicit_unit_locals_18_3, explicit_unit_locals_19_3, explicit_unit_locals_20_3, explicit_unit_locals_21_3, explicit_unit_locals_22_3, explicit_unit_locals_23_3, explicit_unit_locals_24_3, explicit_unit_locals_25_3, explicit_unit_locals_26_10, explicit_unit_locals_9_3, not_deduced_unit, not_deduced_unit_call_6_36, not_deduced_unit_call_6_43, not_deduced_unit_call_6_56, not_deduced_unit_call_6_69, not_deduced_unit_call_6_82, not_deduced_unit_call_6_92, not_deduced_unit_locals_6_36, not_deduced_unit_locals_6_43, not_deduced_unit_locals_6_56, not_deduced_unit_locals_6_69, not_deduced_unit_locals_6_82, not_deduced_unit_locals_6_92, parts_unit, parts_unit_call_13_3, parts_unit_call_14_3, parts_unit_call_15_3, parts_unit_call_16_3, parts_unit_call_17_3, parts_unit_call_18_3, parts_unit_call_19_3, parts_unit_call_20_3, parts_unit_call_21_3, parts_unit_call_22_3, parts_unit_call_23_3, parts_unit_call_24_3, parts_unit_call_25_3, parts_unit_call_26_3, parts_unit_call_27_3, parts_unit_call_28_3, parts_unit_call_29_3, parts_unit_call_30_3, parts_unit_call_31_3, parts_unit_call_32_3, parts_unit_call_33_10, parts_unit_locals_13_3, parts_unit_locals_14_3, parts_unit_locals_15_3, parts_unit_locals_16_3, parts_unit_locals_17_3, parts_unit_locals_18_3, parts_unit_locals_19_3, parts_unit_locals_20_3, parts_unit_locals_21_3, parts_unit_locals_22_3, parts_unit_locals_23_3, parts_unit_locals_24_3, parts_unit_locals_25_3, parts_unit_locals_26_3, parts_unit_locals_27_3, parts_unit_locals_28_3, parts_unit_locals_29_3, parts_unit_locals_30_3, parts_unit_locals_31_3, parts_unit_locals_32_3, parts_unit_locals_33_10, types_that_fail_unit, types_that_fail_unit_call_9_21, types_that_fail_unit_call_9_28, types_that_fail_unit_call_9_35, types_that_fail_unit_call_9_45, types_that_fail_unit_call_9_52, types_that_fail_unit_locals_9_21, types_that_fail_unit_locals_9_28, types_that_fail_unit_locals_9_35, types_that_fail_unit_locals_9_45, types_that_fail_unit_locals_9_52, values_unit, values_unit_call_14_3, values_unit_call_15_3, values_unit_call_16_3, values_unit_call_17_3, values_unit_call_18_3, values_unit_call_19_3, values_unit_call_20_3, values_unit_call_21_3, values_unit_call_22_3, values_unit_call_23_3, values_unit_call_24_3, values_unit_call_25_3, values_unit_call_26_3, values_unit_call_27_10, values_unit_locals_14_3, values_unit_locals_15_3, values_unit_locals_16_3, values_unit_locals_17_3, values_unit_locals_18_3, values_unit_locals_19_3, values_unit_locals_20_3, values_unit_locals_21_3, values_unit_locals_22_3, values_unit_locals_23_3, values_unit_locals_24_3, values_unit_locals_25_3, values_unit_locals_26_3, values_unit_locals_27_10};

/// By value const is dropped; a reference keeps the const of its argument, one to const does not.
pub fn const_and_references()
    ensures value { called const_and_references_unit const_and_references_unit_call_6_36 const_and_references_unit_locals_6_36 ≡ won 0 (int ∷ []) [] }
    ensures value_of_const { called const_and_references_unit const_and_references_unit_call_6_43 const_and_references_unit_locals_6_43 ≡ won 0 (int ∷ []) [] }
    ensures const_value { called const_and_references_unit const_and_references_unit_call_6_50 const_and_references_unit_locals_6_50 ≡ won 1 (int ∷ []) [] }
    ensures reference { called const_and_references_unit const_and_references_unit_call_6_57 const_and_references_unit_locals_6_57 ≡ won 2 (int ∷ []) [] }
    ensures reference_to_const_variable { called const_and_references_unit const_and_references_unit_call_6_64 const_and_references_unit_locals_6_64 ≡ won 2 (const int ∷ []) [] }
    ensures reference_to_literal { called const_and_references_unit const_and_references_unit_call_6_71 const_and_references_unit_locals_6_71 ≡ none_viable_in }
    ensures const_reference { called const_and_references_unit const_and_references_unit_call_6_78 const_and_references_unit_locals_6_78 ≡ won 3 (int ∷ []) [] }
    ensures const_reference_to_const { called const_and_references_unit const_and_references_unit_call_6_85 const_and_references_unit_locals_6_85 ≡ won 3 (int ∷ []) [] }
    ensures const_reference_to_literal { called const_and_references_unit const_and_references_unit_call_6_92 const_and_references_unit_locals_6_92 ≡ won 3 (int ∷ []) [] }
    ensures agree { called const_and_references_unit const_and_references_unit_call_6_99 const_and_references_unit_locals_6_99 ≡ won 4 (int ∷ []) [] }
    ensures disagree { called const_and_references_unit const_and_references_unit_call_6_109 const_and_references_unit_locals_6_109 ≡ none_viable_in }
{}

/// Template-ids, const types and references are matched part by part.
pub fn parts()
    ensures plain { called parts_unit parts_unit_call_13_3 parts_unit_locals_13_3 ≡ won 2 (int ∷ []) [] }
    ensures const_inside { called parts_unit parts_unit_call_14_3 parts_unit_locals_14_3 ≡ won 2 (const int ∷ []) [] }
    ensures reference_inside { called parts_unit parts_unit_call_15_3 parts_unit_locals_15_3 ≡ won 2 (ref int ∷ []) [] }
    ensures const_outside { called parts_unit parts_unit_call_16_3 parts_unit_locals_16_3 ≡ won 2 (int ∷ []) [] }
    ensures other_template { called parts_unit parts_unit_call_17_3 parts_unit_locals_17_3 ≡ none_viable_in }
    ensures no_template_id { called parts_unit parts_unit_call_18_3 parts_unit_locals_18_3 ≡ none_viable_in }
    ensures const_wanted { called parts_unit parts_unit_call_19_3 parts_unit_locals_19_3 ≡ none_viable_in }
    ensures const_there { called parts_unit parts_unit_call_20_3 parts_unit_locals_20_3 ≡ won 3 (int ∷ []) [] }
    ensures reference_wanted { called parts_unit parts_unit_call_21_3 parts_unit_locals_21_3 ≡ none_viable_in }
    ensures reference_there { called parts_unit parts_unit_call_22_3 parts_unit_locals_22_3 ≡ won 4 (int ∷ []) [] }
    ensures nested_wanted { called parts_unit parts_unit_call_23_3 parts_unit_locals_23_3 ≡ none_viable_in }
    ensures nested_there { called parts_unit parts_unit_call_24_3 parts_unit_locals_24_3 ≡ won 5 (bool ∷ []) [] }
    ensures two { called parts_unit parts_unit_call_25_3 parts_unit_locals_25_3 ≡ won 6 (int ∷ bool ∷ []) [] }
    ensures two_alike_wanted { called parts_unit parts_unit_call_26_3 parts_unit_locals_26_3 ≡ none_viable_in }
    ensures two_alike { called parts_unit parts_unit_call_27_3 parts_unit_locals_27_3 ≡ won 7 (int ∷ []) [] }
    ensures inner_wanted { called parts_unit parts_unit_call_28_3 parts_unit_locals_28_3 ≡ none_viable_in }
    ensures inner { called parts_unit parts_unit_call_29_3 parts_unit_locals_29_3 ≡ won 8 (int ∷ []) [] }
    ensures reference_to_tag { called parts_unit parts_unit_call_30_3 parts_unit_locals_30_3 ≡ won 9 (int ∷ []) [] }
    ensures const_is_not_dropped { called parts_unit parts_unit_call_31_3 parts_unit_locals_31_3 ≡ none_viable_in }
    ensures const_reference { called parts_unit parts_unit_call_32_3 parts_unit_locals_32_3 ≡ won 10 (int ∷ []) [] }
    ensures const_reference_to_prvalue { called parts_unit parts_unit_call_33_10 parts_unit_locals_33_10 ≡ won 10 (bool ∷ []) [] }
{}

/// All deductions agree; a parameter whose template parameters are given admits conversions.
pub fn agreement()
    ensures agree { called agreement_unit agreement_unit_call_5_34 agreement_unit_locals_5_34 ≡ won 0 (int ∷ []) [] }
    ensures disagree { called agreement_unit agreement_unit_call_5_44 agreement_unit_locals_5_44 ≡ none_viable_in }
    ensures given_once { called agreement_unit agreement_unit_call_5_57 agreement_unit_locals_5_57 ≡ won 0 (int ∷ []) [] }
    ensures given_first { called agreement_unit agreement_unit_call_5_75 agreement_unit_locals_5_75 ≡ won 1 (bool ∷ unsigned ∷ []) [] }
    ensures given_and_deduced { called agreement_unit agreement_unit_call_5_92 agreement_unit_locals_5_92 ≡ won 3 (int ∷ bool ∷ []) [] }
    ensures not_given { called agreement_unit agreement_unit_call_5_110 agreement_unit_locals_5_110 ≡ none_viable_in }
    ensures given_against { called agreement_unit agreement_unit_call_5_123 agreement_unit_locals_5_123 ≡ none_viable_in }
{}

/// A member type, a decltype and an expression deduce nothing and admit conversions.
pub fn not_deduced()
    ensures nothing_deduces { called not_deduced_unit not_deduced_unit_call_6_36 not_deduced_unit_locals_6_36 ≡ none_viable_in }
    ensures given { called not_deduced_unit not_deduced_unit_call_6_43 not_deduced_unit_locals_6_43 ≡ won 1 (bool ∷ []) [] }
    ensures deduced_elsewhere { called not_deduced_unit not_deduced_unit_call_6_56 not_deduced_unit_locals_6_56 ≡ won 2 (int ∷ []) [] }
    ensures type_of_parameter { called not_deduced_unit not_deduced_unit_call_6_69 not_deduced_unit_locals_6_69 ≡ won 3 (int ∷ []) [] }
    ensures type_of_sum { called not_deduced_unit not_deduced_unit_call_6_82 not_deduced_unit_locals_6_82 ≡ won 4 (int ∷ []) [] }
    ensures other_type { called not_deduced_unit not_deduced_unit_call_6_92 not_deduced_unit_locals_6_92 ≡ none_viable_in }
{}

/// A value argument must have its parameter's type; a literal counts as the value that it becomes.
pub fn values()
    ensures three { called values_unit values_unit_call_14_3 values_unit_locals_14_3 ≡ won 3 (int ∷ val scalars.Int (pos 3) ∷ []) [] }
    ensures four { called values_unit values_unit_call_15_3 values_unit_locals_15_3 ≡ won 3 (bool ∷ val scalars.Int (pos 4) ∷ []) [] }
    ensures fixed { called values_unit values_unit_call_16_3 values_unit_locals_16_3 ≡ won 4 (int ∷ []) [] }
    ensures not_fixed { called values_unit values_unit_call_17_3 values_unit_locals_17_3 ≡ none_viable_in }
    ensures not_unsigned { called values_unit values_unit_call_18_3 values_unit_locals_18_3 ≡ none_viable_in }
    ensures not_int { called values_unit values_unit_call_19_3 values_unit_locals_19_3 ≡ none_viable_in }
    ensures unsigned_value { called values_unit values_unit_call_20_3 values_unit_locals_20_3 ≡ won 7 (val scalars.Unsigned (pos 4) ∷ []) [] }
    ensures literal { called values_unit values_unit_call_21_3 values_unit_locals_21_3 ≡ won 8 (int ∷ []) [] }
    ensures constant { called values_unit values_unit_call_22_3 values_unit_locals_22_3 ≡ won 9 (int ∷ []) [] }
    ensures other_constant { called values_unit values_unit_call_23_3 values_unit_locals_23_3 ≡ none_viable_in }
    ensures expression { called values_unit values_unit_call_24_3 values_unit_locals_24_3 ≡ none_viable_in }
    ensures expression_by_default { called values_unit values_unit_call_25_3 values_unit_locals_25_3 ≡ won 11 (int ∷ val scalars.Int (pos 2) ∷ []) [] }
    ensures other_than_default { called values_unit values_unit_call_26_3 values_unit_locals_26_3 ≡ none_viable_in }
    ensures other_literal { called values_unit values_unit_call_27_10 values_unit_locals_27_10 ≡ none_viable_in }
{}

/// What is neither given nor deduced takes its default, with the arguments before it.
pub fn default_arguments()
    ensures by_other { called default_arguments_unit default_arguments_unit_call_10_21 default_arguments_unit_locals_10_21 ≡ won 1 (int ∷ int ∷ []) [] }
    ensures given { called default_arguments_unit default_arguments_unit_call_10_28 default_arguments_unit_locals_10_28 ≡ won 1 (bool ∷ int ∷ []) [] }
    ensures by_default { called default_arguments_unit default_arguments_unit_call_10_46 default_arguments_unit_locals_10_46 ≡ won 2 (int ∷ []) [] }
    ensures not_by_default { called default_arguments_unit default_arguments_unit_call_10_52 default_arguments_unit_locals_10_52 ≡ won 2 (bool ∷ []) [] }
    ensures member_type { called default_arguments_unit default_arguments_unit_call_10_64 default_arguments_unit_locals_10_64 ≡ won 3 (struct (d 0) ∷ bool ∷ []) [] }
    ensures no_member_type { called default_arguments_unit default_arguments_unit_call_10_71 default_arguments_unit_locals_10_71 ≡ none_viable_in }
    ensures left_over { called default_arguments_unit default_arguments_unit_call_10_78 default_arguments_unit_locals_10_78 ≡ none_viable_in }
    ensures values { called default_arguments_unit default_arguments_unit_call_10_84 default_arguments_unit_locals_10_84 ≡ won 5 (val scalars.Int (pos 3) ∷ val scalars.Int (pos 4) ∷ []) [] }
    ensures one_value { called default_arguments_unit default_arguments_unit_call_10_90 default_arguments_unit_locals_10_90 ≡ won 5 (val scalars.Int (pos 1) ∷ val scalars.Int (pos 2) ∷ []) [] }
    ensures not_constant { called default_arguments_unit default_arguments_unit_call_10_99 default_arguments_unit_locals_10_99 ≡ none_viable_in }
    ensures not_fitting { called default_arguments_unit default_arguments_unit_call_10_105 default_arguments_unit_locals_10_105 ≡ none_viable_in }
    ensures later_deduced { called default_arguments_unit default_arguments_unit_call_10_111 default_arguments_unit_locals_10_111 ≡ won 8 (int ∷ bool ∷ []) [] }
{}

/// Explicit arguments: not more than parameters, each of its kind, a value as one of the parameter's type.
pub fn explicit()
    ensures plain { called explicit_unit explicit_unit_call_9_3 explicit_unit_locals_9_3 ≡ won 1 [] [] }
    ensures template_alone { called explicit_unit explicit_unit_call_10_3 explicit_unit_locals_10_3 ≡ won 2 (int ∷ []) [] }
    ensures converted { called explicit_unit explicit_unit_call_11_3 explicit_unit_locals_11_3 ≡ won 2 (bool ∷ []) [] }
    ensures too_many { called explicit_unit explicit_unit_call_12_3 explicit_unit_locals_12_3 ≡ none_viable_in }
    ensures value { called explicit_unit explicit_unit_call_13_3 explicit_unit_locals_13_3 ≡ won 3 (val scalars.Int (pos 5) ∷ []) [] }
    ensures bool_value { called explicit_unit explicit_unit_call_14_3 explicit_unit_locals_14_3 ≡ won 3 (val scalars.Int (pos 1) ∷ []) [] }
    ensures as_unsigned { called explicit_unit explicit_unit_call_15_3 explicit_unit_locals_15_3 ≡ won 4 (val scalars.Unsigned (pos 3) ∷ []) [] }
    ensures from_long { called explicit_unit explicit_unit_call_16_3 explicit_unit_locals_16_3 ≡ won 4 (val scalars.Unsigned (pos 3) ∷ []) [] }
    ensures negative { called explicit_unit explicit_unit_call_17_3 explicit_unit_locals_17_3 ≡ none_viable_in }
    ensures not_constant { called explicit_unit explicit_unit_call_18_3 explicit_unit_locals_18_3 ≡ none_viable_in }
    ensures wrong_kind { called explicit_unit explicit_unit_call_19_3 explicit_unit_locals_19_3 ≡ none_viable_in }
    ensures collapsed { called explicit_unit explicit_unit_call_20_3 explicit_unit_locals_20_3 ≡ won 5 (ref int ∷ []) [] }
    ensures not_const { called explicit_unit explicit_unit_call_21_3 explicit_unit_locals_21_3 ≡ none_viable_in }
    ensures made_const { called explicit_unit explicit_unit_call_22_3 explicit_unit_locals_22_3 ≡ won 5 (const int ∷ []) [] }
    ensures of_void { called explicit_unit explicit_unit_call_23_3 explicit_unit_locals_23_3 ≡ none_viable_in }
    ensures reference_to_void { called explicit_unit explicit_unit_call_24_3 explicit_unit_locals_24_3 ≡ none_viable_in }
    ensures no_type { called explicit_unit explicit_unit_call_25_3 explicit_unit_locals_25_3 ≡ refused (fault_at kind.InvalidType (p 25 5)) }
    ensures variable_as_value { called explicit_unit explicit_unit_call_26_10 explicit_unit_locals_26_10 ≡ none_viable_in }
{}

/// A type that cannot be substituted leaves the candidate out; a fault inside an instance does not.
pub fn types_that_fail()
    ensures no_member_type { called types_that_fail_unit types_that_fail_unit_call_9_21 types_that_fail_unit_locals_9_21 ≡ none_viable_in }
    ensures inside_instance { called types_that_fail_unit types_that_fail_unit_call_9_28 types_that_fail_unit_locals_9_28 ≡ broken_off (record { kind = kind.InvalidType; at = (p 1 35); also = []; chain = (p 3 31) ∷ [] }) }
    ensures other_candidate { called types_that_fail_unit types_that_fail_unit_call_9_35 types_that_fail_unit_locals_9_35 ≡ won 6 (int ∷ []) [] }
    ensures sum { called types_that_fail_unit types_that_fail_unit_call_9_45 types_that_fail_unit_locals_9_45 ≡ won 7 (int ∷ []) [] }
    ensures no_sum { called types_that_fail_unit types_that_fail_unit_call_9_52 types_that_fail_unit_locals_9_52 ≡ none_viable_in }
{}

/// Steps come in order: types before constraints, constraints before conversions.
pub fn by_order()
    ensures type_first { called by_order_unit by_order_unit_call_9_18 nothing_known ≡ won 4 (int ∷ []) [] }
    ensures constraints_before_conversion { called by_order_unit by_order_unit_call_9_25 nothing_known ≡ broken_off (record { kind = kind.InvalidType; at = (p 1 35); also = []; chain = (p 2 45) ∷ [] }) }
    ensures number_first { called by_order_unit by_order_unit_call_9_35 nothing_known ≡ won 8 (int ∷ []) [] }
{}
