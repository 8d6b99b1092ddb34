//! Template argument deduction, explicit and default arguments ([temp.deduct.call], [temp.arg.explicit], [temp.param]).

ghost use Rattle.std.specs.Prelude.{◌≡◌, [], ◌∷◌, pos, negsuc};
ghost use Rattle.cx_base.specs.declared.kind.Kind.TheVariants as kind;
ghost use Rattle.cx_base.specs.declared.value.Scalar.TheVariants as scalars;
ghost use Rattle.cx_term.specs.Term.{inst, const, val, arguments};
ghost use Rattle.cx_questions.specs.Answers.{soft};
ghost use Rattle.worked_units.specs.Units.{p, d, called, typed, nothing_known, won, none_viable_in, undecided, int, bool};
ghost use Rattle.worked_units.specs.Templates.{all_agree_unit, all_agree_unit_call_5_3, all_agree_unit_call_6_3, all_agree_unit_call_7_3, all_agree_unit_call_8_3, all_agree_unit_call_9_3, all_agree_unit_locals_5_3, all_agree_unit_locals_6_3, all_agree_unit_locals_7_3, all_agree_unit_locals_8_3, all_agree_unit_locals_9_3, arguments_by_default_unit, arguments_by_default_unit_call_10_3, arguments_by_default_unit_call_11_3, arguments_by_default_unit_call_12_3, arguments_by_default_unit_call_7_3, arguments_by_default_unit_call_8_3, arguments_by_default_unit_call_9_3, arguments_given_unit, arguments_given_unit_call_10_3, arguments_given_unit_call_11_3, arguments_given_unit_call_12_3, arguments_given_unit_call_13_3, arguments_given_unit_call_14_3, arguments_given_unit_call_15_3, arguments_given_unit_call_16_3, arguments_given_unit_call_17_3, arguments_given_unit_call_18_3, arguments_given_unit_call_19_3, arguments_given_unit_call_9_3, by_value_and_reference_unit, by_value_and_reference_unit_call_10_3, by_value_and_reference_unit_call_11_3, by_value_and_reference_unit_call_12_3, by_value_and_reference_unit_call_13_3, by_value_and_reference_unit_call_14_3, by_value_and_reference_unit_call_6_3, by_value_and_reference_unit_call_7_3, by_value_and_reference_unit_call_8_3, by_value_and_reference_unit_call_9_3, by_value_and_reference_unit_locals_10_3, by_value_and_reference_unit_locals_11_3, by_value_and_reference_unit_locals_12_3, by_value_and_reference_unit_locals_13_3, by_value_and_reference_unit_locals_14_3, by_value_and_reference_unit_locals_6_3, by_value_and_reference_unit_locals_7_3, by_value_and_reference_unit_locals_8_3, by_value_and_reference_unit_locals_9_3, faulty_explicit_type_unit, faulty_explicit_type_unit_call_5_3, faulty_explicit_type_unit_call_6_3, parts_of_template_ids_unit, parts_of_template_ids_unit_call_11_3, parts_of_template_ids_unit_call_12_3, parts_of_template_ids_unit_call_13_3, parts_of_template_ids_unit_call_14_3, parts_of_template_ids_unit_call_15_3, parts_of_template_ids_unit_call_16_3, parts_of_template_ids_unit_call_17_3, parts_of_template_ids_unit_call_18_3, parts_of_template_ids_unit_call_19_3, parts_of_template_ids_unit_call_20_3, parts_of_template_ids_unit_call_21_3, parts_of_template_ids_unit_locals_11_3, parts_of_template_ids_unit_locals_12_3, parts_of_template_ids_unit_locals_13_3, parts_of_template_ids_unit_locals_14_3, parts_of_template_ids_unit_locals_15_3, parts_of_template_ids_unit_locals_16_3, parts_of_template_ids_unit_locals_17_3, parts_of_template_ids_unit_locals_18_3, parts_of_template_ids_unit_locals_19_3, parts_of_template_ids_unit_locals_20_3, parts_of_template_ids_unit_locals_21_3, places_not_deduced_unit, places_not_deduced_unit_call_10_3, places_not_deduced_unit_call_11_3, places_not_deduced_unit_call_12_3, places_not_deduced_unit_call_13_3, places_not_deduced_unit_call_8_3, places_not_deduced_unit_call_9_3, places_not_deduced_unit_locals_10_3, places_not_deduced_unit_locals_11_3, places_not_deduced_unit_locals_12_3, places_not_deduced_unit_locals_13_3, places_not_deduced_unit_locals_8_3, places_not_deduced_unit_locals_9_3, substituted_types_unit, substituted_types_unit_call_10_3, substituted_types_unit_call_8_3, substituted_types_unit_call_9_3, substituted_types_unit_locals_10_3, substituted_types_unit_locals_8_3, substituted_types_unit_locals_9_3};

/// Const is dropped by value and in `const T&`, and stays in `T&`.
pub fn by_value_and_reference()
    ensures value { called by_value_and_reference_unit by_value_and_reference_unit_call_6_3 by_value_and_reference_unit_locals_6_3 ≡ won 0 (int ∷ []) [] }
    ensures value_of_const { called by_value_and_reference_unit by_value_and_reference_unit_call_7_3 by_value_and_reference_unit_locals_7_3 ≡ won 0 (int ∷ []) [] }
    ensures reference { called by_value_and_reference_unit by_value_and_reference_unit_call_8_3 by_value_and_reference_unit_locals_8_3 ≡ won 1 (int ∷ []) [] }
    ensures reference_to_const { called by_value_and_reference_unit by_value_and_reference_unit_call_9_3 by_value_and_reference_unit_locals_9_3 ≡ won 1 (const int ∷ []) [] }
    ensures reference_to_prvalue { called by_value_and_reference_unit by_value_and_reference_unit_call_10_3 by_value_and_reference_unit_locals_10_3 ≡ none_viable_in }
    ensures const_reference { called by_value_and_reference_unit by_value_and_reference_unit_call_11_3 by_value_and_reference_unit_locals_11_3 ≡ won 2 (int ∷ []) [] }
    ensures const_reference_to_const { called by_value_and_reference_unit by_value_and_reference_unit_call_12_3 by_value_and_reference_unit_locals_12_3 ≡ won 2 (int ∷ []) [] }
    ensures const_reference_to_prvalue { called by_value_and_reference_unit by_value_and_reference_unit_call_13_3 by_value_and_reference_unit_locals_13_3 ≡ won 2 (bool ∷ []) [] }
    ensures const_value { called by_value_and_reference_unit by_value_and_reference_unit_call_14_3 by_value_and_reference_unit_locals_14_3 ≡ won 3 (int ∷ []) [] }
{}

/// Template-ids are matched argument by argument.
pub fn parts_of_template_ids()
    ensures one_box { called parts_of_template_ids_unit parts_of_template_ids_unit_call_11_3 parts_of_template_ids_unit_locals_11_3 ≡ won 4 (int ∷ []) [] }
    ensures box_of_box { called parts_of_template_ids_unit parts_of_template_ids_unit_call_12_3 parts_of_template_ids_unit_locals_12_3 ≡ won 4 (inst (d 0) (arguments (bool ∷ [])) ∷ []) [] }
    ensures inner { called parts_of_template_ids_unit parts_of_template_ids_unit_call_13_3 parts_of_template_ids_unit_locals_13_3 ≡ won 5 (bool ∷ []) [] }
    ensures not_inner { called parts_of_template_ids_unit parts_of_template_ids_unit_call_14_3 parts_of_template_ids_unit_locals_14_3 ≡ none_viable_in }
    ensures no_box { called parts_of_template_ids_unit parts_of_template_ids_unit_call_15_3 parts_of_template_ids_unit_locals_15_3 ≡ none_viable_in }
    ensures value_position { called parts_of_template_ids_unit parts_of_template_ids_unit_call_16_3 parts_of_template_ids_unit_locals_16_3 ≡ won 6 (int ∷ val scalars.Int (pos 4) ∷ []) [] }
    ensures value_alone { called parts_of_template_ids_unit parts_of_template_ids_unit_call_17_3 parts_of_template_ids_unit_locals_17_3 ≡ won 7 (val scalars.Int (pos 4) ∷ []) [] }
    ensures value_of_other_type { called parts_of_template_ids_unit parts_of_template_ids_unit_call_18_3 parts_of_template_ids_unit_locals_18_3 ≡ none_viable_in }
    ensures literal { called parts_of_template_ids_unit parts_of_template_ids_unit_call_19_3 parts_of_template_ids_unit_locals_19_3 ≡ won 9 (int ∷ []) [] }
    ensures other_literal { called parts_of_template_ids_unit parts_of_template_ids_unit_call_20_3 parts_of_template_ids_unit_locals_20_3 ≡ none_viable_in }
    ensures literal_of_other_type { called parts_of_template_ids_unit parts_of_template_ids_unit_call_21_3 parts_of_template_ids_unit_locals_21_3 ≡ won 10 (int ∷ []) [] }
{}

/// All deductions of one parameter must agree; what names none admits conversions.
pub fn all_agree()
    ensures agree { called all_agree_unit all_agree_unit_call_5_3 all_agree_unit_locals_5_3 ≡ won 0 (int ∷ []) [] }
    ensures disagree { called all_agree_unit all_agree_unit_call_6_3 all_agree_unit_locals_6_3 ≡ none_viable_in }
    ensures converts { called all_agree_unit all_agree_unit_call_7_3 all_agree_unit_locals_7_3 ≡ won 1 (int ∷ []) [] }
    ensures const_and_not { called all_agree_unit all_agree_unit_call_8_3 all_agree_unit_locals_8_3 ≡ won 2 (int ∷ []) [] }
    ensures no_conversion { called all_agree_unit all_agree_unit_call_9_3 all_agree_unit_locals_9_3 ≡ none_viable_in }
{}

/// Member types, operands of decltype and dependent values are not deduced.
pub fn places_not_deduced()
    ensures with_another { called places_not_deduced_unit places_not_deduced_unit_call_8_3 places_not_deduced_unit_locals_8_3 ≡ won 2 (int ∷ []) [] }
    ensures alone { called places_not_deduced_unit places_not_deduced_unit_call_9_3 places_not_deduced_unit_locals_9_3 ≡ none_viable_in }
    ensures explicitly { called places_not_deduced_unit places_not_deduced_unit_call_10_3 places_not_deduced_unit_locals_10_3 ≡ won 3 (int ∷ []) [] }
    ensures operand { called places_not_deduced_unit places_not_deduced_unit_call_11_3 places_not_deduced_unit_locals_11_3 ≡ won 4 (int ∷ []) [] }
    ensures dependent_value { called places_not_deduced_unit places_not_deduced_unit_call_12_3 places_not_deduced_unit_locals_12_3 ≡ won 5 (val scalars.Int (pos 1) ∷ []) [] }
    ensures other_value { called places_not_deduced_unit places_not_deduced_unit_call_13_3 places_not_deduced_unit_locals_13_3 ≡ none_viable_in }
{}

/// Explicit arguments take no part in deduction; only templates are candidates.
pub fn arguments_given()
    ensures converts { called arguments_given_unit arguments_given_unit_call_9_3 nothing_known ≡ won 1 (int ∷ []) [] }
    ensures rest_deduced { called arguments_given_unit arguments_given_unit_call_10_3 nothing_known ≡ won 2 (bool ∷ int ∷ []) [] }
    ensures both_given { called arguments_given_unit arguments_given_unit_call_11_3 nothing_known ≡ won 2 (bool ∷ int ∷ []) [] }
    ensures too_many { called arguments_given_unit arguments_given_unit_call_12_3 nothing_known ≡ none_viable_in }
    ensures value_for_two { called arguments_given_unit arguments_given_unit_call_13_3 nothing_known ≡ undecided (3 ∷ 4 ∷ []) }
    ensures value_for_one { called arguments_given_unit arguments_given_unit_call_14_3 nothing_known ≡ won 3 (val scalars.Int (negsuc 2) ∷ []) [] }
    ensures bool_value { called arguments_given_unit arguments_given_unit_call_15_3 nothing_known ≡ won 5 (val scalars.Bool (pos 1) ∷ []) [] }
    ensures a_type { called arguments_given_unit arguments_given_unit_call_16_3 nothing_known ≡ won 6 (int ∷ []) [] }
    ensures two_for_bool { called arguments_given_unit arguments_given_unit_call_17_3 nothing_known ≡ none_viable_in }
    ensures reference_to_prvalue { called arguments_given_unit arguments_given_unit_call_18_3 nothing_known ≡ none_viable_in }
    ensures void_parameter { called arguments_given_unit arguments_given_unit_call_19_3 nothing_known ≡ none_viable_in }
{}

/// An explicit type that is invalid makes the call invalid.
pub fn faulty_explicit_type()
    ensures absent { typed faulty_explicit_type_unit faulty_explicit_type_unit_call_5_3 nothing_known ≡ soft kind.InvalidType (p 5 5) }
    ensures reference_to_void { typed faulty_explicit_type_unit faulty_explicit_type_unit_call_6_3 nothing_known ≡ soft kind.InvalidType (p 6 5) }
{}

/// Default arguments complete what is not deduced.
pub fn arguments_by_default()
    ensures all { called arguments_by_default_unit arguments_by_default_unit_call_7_3 nothing_known ≡ won 0 (int ∷ []) [] }
    ensures by_the_one_before { called arguments_by_default_unit arguments_by_default_unit_call_8_3 nothing_known ≡ won 1 (bool ∷ bool ∷ []) [] }
    ensures given { called arguments_by_default_unit arguments_by_default_unit_call_9_3 nothing_known ≡ won 1 (int ∷ bool ∷ []) [] }
    ensures value { called arguments_by_default_unit arguments_by_default_unit_call_10_3 nothing_known ≡ won 2 (int ∷ val scalars.Int (pos 3) ∷ []) [] }
    ensures left_over { called arguments_by_default_unit arguments_by_default_unit_call_11_3 nothing_known ≡ none_viable_in }
    ensures invalid_default { called arguments_by_default_unit arguments_by_default_unit_call_12_3 nothing_known ≡ none_viable_in }
{}

/// A type that is invalid with the arguments makes a candidate not viable.
pub fn substituted_types()
    ensures result { called substituted_types_unit substituted_types_unit_call_8_3 substituted_types_unit_locals_8_3 ≡ won 2 (int ∷ []) [] }
    ensures parameter { called substituted_types_unit substituted_types_unit_call_9_3 substituted_types_unit_locals_9_3 ≡ won 4 (int ∷ []) [] }
    ensures reference_to_void { called substituted_types_unit substituted_types_unit_call_10_3 substituted_types_unit_locals_10_3 ≡ none_viable_in }
{}
