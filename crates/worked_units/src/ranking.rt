//! Conversions and their ranking, and what else makes a function better ([over.ics.rank], [over.match.best]).

ghost use Rattle.std.specs.Prelude.{◌≡◌, [], ◌∷◌, true, false, pos, Some};
ghost use Rattle.cx_base.specs.declared.kind.Kind.TheVariants as kind;
ghost use Rattle.cx_base.specs.declared.value.Scalar.TheVariants as scalars;
ghost use Rattle.cx_term.specs.Term.{struct, inst, val, arguments};
ghost use Rattle.cx_questions.specs.Answers.{invalid, fault_about};
ghost use Rattle.worked_units.specs.Units.{p, d, called, typed, nothing_known, won, none_viable_in, undecided, int, bool, unsigned};
ghost use Rattle.worked_units.specs.Ranking.{bindings_unit, bindings_unit_call_10_3, bindings_unit_call_11_3, bindings_unit_call_12_3, bindings_unit_call_13_3, bindings_unit_call_14_3, bindings_unit_call_15_3, bindings_unit_call_16_3, bindings_unit_call_17_10, bindings_unit_call_6_3, bindings_unit_call_7_3, bindings_unit_call_8_3, bindings_unit_call_9_3, bindings_unit_locals_10_3, bindings_unit_locals_11_3, bindings_unit_locals_12_3, bindings_unit_locals_13_3, bindings_unit_locals_14_3, bindings_unit_locals_15_3, bindings_unit_locals_16_3, bindings_unit_locals_17_10, bindings_unit_locals_6_3, bindings_unit_locals_7_3, bindings_unit_locals_8_3, bindings_unit_locals_9_3, circle_unit, circle_unit_call_11_28, circle_unit_call_11_35, circle_unit_call_11_42, circle_unit_call_11_49, circle_unit_locals_11_28, circle_unit_locals_11_35, circle_unit_locals_11_42, circle_unit_locals_11_49, const_and_partial_ordering_unit, const_and_partial_ordering_unit_call_3_36, const_and_partial_ordering_unit_call_3_43, const_and_partial_ordering_unit_call_3_50, const_and_partial_ordering_unit_locals_3_36, const_and_partial_ordering_unit_locals_3_43, const_and_partial_ordering_unit_locals_3_50, conversions_before_templates_unit, conversions_before_templates_unit_call_5_36, conversions_before_templates_unit_call_5_43, conversions_before_templates_unit_call_5_52, conversions_before_templates_unit_call_5_59, conversions_before_templates_unit_locals_5_36, conversions_before_templates_unit_locals_5_43, conversions_before_templates_unit_locals_5_52, conversions_before_templates_unit_locals_5_59, members_by_constraints_unit, members_by_constraints_unit_call_12_105, members_by_constraints_unit_call_12_52, members_by_constraints_unit_call_12_60, members_by_constraints_unit_call_12_68, members_by_constraints_unit_call_12_76, members_by_constraints_unit_call_12_88, members_by_constraints_unit_call_12_97, members_by_constraints_unit_locals_12_105, members_by_constraints_unit_locals_12_52, members_by_constraints_unit_locals_12_60, members_by_constraints_unit_locals_12_68, members_by_constraints_unit_locals_12_76, members_by_constraints_unit_locals_12_88, members_by_constraints_unit_locals_12_97, neither_promoted_unit, neither_promoted_unit_call_3_18, objects_unit, objects_unit_call_14_3, objects_unit_call_15_3, objects_unit_call_16_3, objects_unit_call_17_3, objects_unit_call_18_3, objects_unit_call_19_3, objects_unit_call_20_3, objects_unit_call_21_3, objects_unit_call_22_3, objects_unit_call_23_3, objects_unit_call_24_3, objects_unit_call_25_3, objects_unit_call_26_10, objects_unit_call_6_23, objects_unit_call_7_30, objects_unit_call_8_30, objects_unit_locals_14_3, objects_unit_locals_15_3, objects_unit_locals_16_3, objects_unit_locals_17_3, objects_unit_locals_18_3, objects_unit_locals_19_3, objects_unit_locals_20_3, objects_unit_locals_21_3, objects_unit_locals_22_3, objects_unit_locals_23_3, objects_unit_locals_24_3, objects_unit_locals_25_3, objects_unit_locals_26_10, ranks_unit, ranks_unit_call_8_105, ranks_unit_call_8_112, ranks_unit_call_8_56, ranks_unit_call_8_63, ranks_unit_call_8_70, ranks_unit_call_8_77, ranks_unit_call_8_84, ranks_unit_call_8_91, ranks_unit_call_8_98, ranks_unit_locals_8_105, ranks_unit_locals_8_112, ranks_unit_locals_8_56, ranks_unit_locals_8_63, ranks_unit_locals_8_70, ranks_unit_locals_8_77, ranks_unit_locals_8_84, ranks_unit_locals_8_91, ranks_unit_locals_8_98, references_to_other_types_unit, references_to_other_types_unit_call_5_43, references_to_other_types_unit_call_5_50, references_to_other_types_unit_call_5_57, references_to_other_types_unit_call_5_64, references_to_other_types_unit_call_5_71, references_to_other_types_unit_locals_5_43, references_to_other_types_unit_locals_5_50, references_to_other_types_unit_locals_5_57, references_to_other_types_unit_locals_5_64, references_to_other_types_unit_locals_5_71, several_arguments_unit, several_arguments_unit_call_5_18, several_arguments_unit_call_5_28, several_arguments_unit_call_5_41, several_arguments_unit_call_5_54, several_arguments_unit_call_5_66, several_arguments_unit_call_5_73, structs_unit, structs_unit_call_6_45, structs_unit_call_6_52, structs_unit_call_6_59, structs_unit_call_6_66, structs_unit_call_6_73, structs_unit_locals_6_45, structs_unit_locals_6_52, structs_unit_locals_6_59, structs_unit_locals_6_66, structs_unit_locals_6_73, templates_in_order_unit, templates_in_order_unit_call_13_109, templates_in_order_unit_call_13_119, templates_in_order_unit_call_13_45, templates_in_order_unit_call_13_52, templates_in_order_unit_call_13_59, templates_in_order_unit_call_13_66, templates_in_order_unit_call_13_76, templates_in_order_unit_call_13_86, templates_in_order_unit_call_13_96, templates_in_order_unit_locals_13_109, templates_in_order_unit_locals_13_119, templates_in_order_unit_locals_13_45, templates_in_order_unit_locals_13_52, templates_in_order_unit_locals_13_59, templates_in_order_unit_locals_13_66, templates_in_order_unit_locals_13_76, templates_in_order_unit_locals_13_86, templates_in_order_unit_locals_13_96, value_and_reference_unit, value_and_reference_unit_call_5_23, value_and_reference_unit_call_5_30, value_and_reference_unit_call_5_37, value_and_reference_unit_call_5_47, value_and_reference_unit_call_5_54, value_and_reference_unit_locals_5_23, value_and_reference_unit_locals_5_30, value_and_reference_unit_locals_5_37, value_and_reference_unit_locals_5_47, value_and_reference_unit_locals_5_54, values_in_order_unit, values_in_order_unit_call_5_78, values_in_order_unit_call_5_85, values_in_order_unit_call_5_92, values_in_order_unit_call_5_99, values_in_order_unit_locals_5_78, values_in_order_unit_locals_5_85, values_in_order_unit_locals_5_92, values_in_order_unit_locals_5_99};

/// An exact match is better than a promotion, a promotion better than a conversion.
pub fn ranks()
    ensures bool_itself { called ranks_unit ranks_unit_call_8_56 ranks_unit_locals_8_56 ≡ won 1 [] [] }
    ensures int_itself { called ranks_unit ranks_unit_call_8_63 ranks_unit_locals_8_63 ≡ won 0 [] [] }
    ensures three_conversions { called ranks_unit ranks_unit_call_8_70 ranks_unit_locals_8_70 ≡ undecided (0 ∷ 1 ∷ 2 ∷ []) }
    ensures long_itself { called ranks_unit ranks_unit_call_8_77 ranks_unit_locals_8_77 ≡ won 2 [] [] }
    ensures promoted { called ranks_unit ranks_unit_call_8_84 ranks_unit_locals_8_84 ≡ won 3 [] [] }
    ensures two_conversions { called ranks_unit ranks_unit_call_8_91 ranks_unit_locals_8_91 ≡ undecided (3 ∷ 4 ∷ []) }
    ensures promotion_over_temporary { called ranks_unit ranks_unit_call_8_98 ranks_unit_locals_8_98 ≡ won 6 [] [] }
    ensures reference_itself { called ranks_unit ranks_unit_call_8_105 ranks_unit_locals_8_105 ≡ won 5 [] [] }
    ensures value_itself { called ranks_unit ranks_unit_call_8_112 ranks_unit_locals_8_112 ≡ won 6 [] [] }
{}

/// Two conversions of an int are not told apart, and the refusal names both functions.
pub fn neither_promoted()
    ensures unbeaten { called neither_promoted_unit neither_promoted_unit_call_3_18 nothing_known ≡ undecided (0 ∷ 1 ∷ []) }
    ensures refusal { typed neither_promoted_unit neither_promoted_unit_call_3_18 nothing_known ≡ invalid (fault_about kind.Ambiguous (p 3 18) (p 1 5 ∷ p 2 5 ∷ [])) }
{}

/// A reference not to const wants an lvalue of its type; of two references the less const one is better.
pub fn bindings()
    ensures of_variable { called bindings_unit bindings_unit_call_6_3 bindings_unit_locals_6_3 ≡ won 0 [] [] }
    ensures of_const { called bindings_unit bindings_unit_call_7_3 bindings_unit_locals_7_3 ≡ won 1 [] [] }
    ensures of_literal { called bindings_unit bindings_unit_call_8_3 bindings_unit_locals_8_3 ≡ won 1 [] [] }
    ensures of_temporary { called bindings_unit bindings_unit_call_9_3 bindings_unit_locals_9_3 ≡ won 1 [] [] }
    ensures of_member { called bindings_unit bindings_unit_call_10_3 bindings_unit_locals_10_3 ≡ won 0 [] [] }
    ensures of_xvalue { called bindings_unit bindings_unit_call_11_3 bindings_unit_locals_11_3 ≡ won 1 [] [] }
    ensures only_variable { called bindings_unit bindings_unit_call_12_3 bindings_unit_locals_12_3 ≡ won 2 [] [] }
    ensures not_const { called bindings_unit bindings_unit_call_13_3 bindings_unit_locals_13_3 ≡ none_viable_in }
    ensures not_literal { called bindings_unit bindings_unit_call_14_3 bindings_unit_locals_14_3 ≡ none_viable_in }
    ensures not_converted { called bindings_unit bindings_unit_call_15_3 bindings_unit_locals_15_3 ≡ none_viable_in }
    ensures not_xvalue { called bindings_unit bindings_unit_call_16_3 bindings_unit_locals_16_3 ≡ none_viable_in }
    ensures not_struct { called bindings_unit bindings_unit_call_17_10 bindings_unit_locals_17_10 ≡ none_viable_in }
{}

/// A parameter by value and a reference that binds exactly are not told apart.
pub fn value_and_reference()
    ensures of_variable { called value_and_reference_unit value_and_reference_unit_call_5_23 value_and_reference_unit_locals_5_23 ≡ undecided (0 ∷ 1 ∷ []) }
    ensures of_literal { called value_and_reference_unit value_and_reference_unit_call_5_30 value_and_reference_unit_locals_5_30 ≡ undecided (0 ∷ 1 ∷ []) }
    ensures of_bool { called value_and_reference_unit value_and_reference_unit_call_5_37 value_and_reference_unit_locals_5_37 ≡ undecided (0 ∷ 1 ∷ []) }
    ensures reference_too { called value_and_reference_unit value_and_reference_unit_call_5_47 value_and_reference_unit_locals_5_47 ≡ undecided (2 ∷ 3 ∷ []) }
    ensures value_alone { called value_and_reference_unit value_and_reference_unit_call_5_54 value_and_reference_unit_locals_5_54 ≡ won 2 [] [] }
{}

/// References to two types are told apart by their ranks alone.
pub fn references_to_other_types()
    ensures promoted { called references_to_other_types_unit references_to_other_types_unit_call_5_43 references_to_other_types_unit_locals_5_43 ≡ won 0 [] [] }
    ensures itself { called references_to_other_types_unit references_to_other_types_unit_call_5_50 references_to_other_types_unit_locals_5_50 ≡ won 0 [] [] }
    ensures two_conversions { called references_to_other_types_unit references_to_other_types_unit_call_5_57 references_to_other_types_unit_locals_5_57 ≡ undecided (0 ∷ 1 ∷ []) }
    ensures two_temporaries { called references_to_other_types_unit references_to_other_types_unit_call_5_64 references_to_other_types_unit_locals_5_64 ≡ undecided (2 ∷ 3 ∷ []) }
    ensures bool_itself { called references_to_other_types_unit references_to_other_types_unit_call_5_71 references_to_other_types_unit_locals_5_71 ≡ won 2 [] [] }
{}

/// No argument may be converted worse.
pub fn several_arguments()
    ensures crossed { called several_arguments_unit several_arguments_unit_call_5_18 nothing_known ≡ undecided (0 ∷ 1 ∷ 2 ∷ []) }
    ensures first_two { called several_arguments_unit several_arguments_unit_call_5_28 nothing_known ≡ won 0 [] [] }
    ensures other_way { called several_arguments_unit several_arguments_unit_call_5_41 nothing_known ≡ won 1 [] [] }
    ensures third { called several_arguments_unit several_arguments_unit_call_5_54 nothing_known ≡ won 2 [] [] }
    ensures by_number { called several_arguments_unit several_arguments_unit_call_5_66 nothing_known ≡ won 3 [] [] }
    ensures too_many { called several_arguments_unit several_arguments_unit_call_5_73 nothing_known ≡ none_viable_in }
{}

/// A struct converts only to itself, const or not.
pub fn structs()
    ensures variable { called structs_unit structs_unit_call_6_45 structs_unit_locals_6_45 ≡ won 4 [] [] }
    ensures of_const { called structs_unit structs_unit_call_6_52 structs_unit_locals_6_52 ≡ won 4 [] [] }
    ensures by_reference { called structs_unit structs_unit_call_6_59 structs_unit_locals_6_59 ≡ won 5 [] [] }
    ensures of_int { called structs_unit structs_unit_call_6_66 structs_unit_locals_6_66 ≡ won 6 [] [] }
    ensures of_list { called structs_unit structs_unit_call_6_73 structs_unit_locals_6_73 ≡ won 4 [] [] }
{}

/// The object of a member call binds like a reference, and one not to const to every object that is not const.
pub fn objects()
    ensures of_variable { called objects_unit objects_unit_call_14_3 objects_unit_locals_14_3 ≡ won 2 [] [] }
    ensures of_const { called objects_unit objects_unit_call_15_3 objects_unit_locals_15_3 ≡ won 3 [] [] }
    ensures of_reference { called objects_unit objects_unit_call_16_3 objects_unit_locals_16_3 ≡ won 2 [] [] }
    ensures of_reference_to_const { called objects_unit objects_unit_call_17_3 objects_unit_locals_17_3 ≡ won 3 [] [] }
    ensures of_prvalue { called objects_unit objects_unit_call_18_3 objects_unit_locals_18_3 ≡ won 2 [] [] }
    ensures of_xvalue { called objects_unit objects_unit_call_19_3 objects_unit_locals_19_3 ≡ won 2 [] [] }
    ensures not_const { called objects_unit objects_unit_call_20_3 objects_unit_locals_20_3 ≡ won 4 [] [] }
    ensures none_for_const { called objects_unit objects_unit_call_21_3 objects_unit_locals_21_3 ≡ none_viable_in }
    ensures prvalue_too { called objects_unit objects_unit_call_22_3 objects_unit_locals_22_3 ≡ won 4 [] [] }
    ensures object_and_argument { called objects_unit objects_unit_call_23_3 objects_unit_locals_23_3 ≡ won 8 [] [] }
    ensures argument_against_object { called objects_unit objects_unit_call_24_3 objects_unit_locals_24_3 ≡ undecided (8 ∷ 9 ∷ []) }
    ensures const_alone { called objects_unit objects_unit_call_25_3 objects_unit_locals_25_3 ≡ won 9 [] [] }
    ensures prvalue_against_argument { called objects_unit objects_unit_call_26_10 objects_unit_locals_26_10 ≡ undecided (8 ∷ 9 ∷ []) }
    ensures own_object { called objects_unit objects_unit_call_6_23 (record { arguments = []; variables = []; object = Some (record { of = struct (d 0); is_const = false }) }) ≡ won 2 [] [] }
    ensures own_const_object { called objects_unit objects_unit_call_7_30 (record { arguments = []; variables = []; object = Some (record { of = struct (d 0); is_const = true }) }) ≡ won 3 [] [] }
    ensures own_none { called objects_unit objects_unit_call_8_30 (record { arguments = []; variables = []; object = Some (record { of = struct (d 0); is_const = true }) }) ≡ none_viable_in }
{}

/// On a variable the binding tells, on a const one the order of the templates.
pub fn const_and_partial_ordering()
    ensures by_binding { called const_and_partial_ordering_unit const_and_partial_ordering_unit_call_3_36 const_and_partial_ordering_unit_locals_3_36 ≡ won 0 (int ∷ []) [] }
    ensures by_order { called const_and_partial_ordering_unit const_and_partial_ordering_unit_call_3_43 const_and_partial_ordering_unit_locals_3_43 ≡ won 1 (int ∷ []) [] }
    ensures literal { called const_and_partial_ordering_unit const_and_partial_ordering_unit_call_3_50 const_and_partial_ordering_unit_locals_3_50 ≡ won 1 (int ∷ []) [] }
{}

/// Each of three functions beats one of the others, so that none is left.
pub fn circle()
    ensures none { called circle_unit circle_unit_call_11_28 circle_unit_locals_11_28 ≡ undecided [] }
    ensures specialised { called circle_unit circle_unit_call_11_35 circle_unit_locals_11_35 ≡ won 6 (int ∷ []) [] }
    ensures no_template { called circle_unit circle_unit_call_11_42 circle_unit_locals_11_42 ≡ won 8 [] [] }
    ensures binding { called circle_unit circle_unit_call_11_49 circle_unit_locals_11_49 ≡ won 9 (inst (d 0) (arguments (int ∷ [])) ∷ []) [] }
{}

/// The more specialised template is better; a parameter without a template parameter tells nothing.
pub fn templates_in_order()
    ensures of_int { called templates_in_order_unit templates_in_order_unit_call_13_45 templates_in_order_unit_locals_13_45 ≡ won 2 (int ∷ []) [] }
    ensures of_box { called templates_in_order_unit templates_in_order_unit_call_13_52 templates_in_order_unit_locals_13_52 ≡ won 3 (int ∷ []) [] }
    ensures of_box_of_box { called templates_in_order_unit templates_in_order_unit_call_13_59 templates_in_order_unit_locals_13_59 ≡ won 4 (int ∷ []) [] }
    ensures int_tells_nothing { called templates_in_order_unit templates_in_order_unit_call_13_66 templates_in_order_unit_locals_13_66 ≡ undecided (5 ∷ 6 ∷ []) }
    ensures one_parameter_twice { called templates_in_order_unit templates_in_order_unit_call_13_76 templates_in_order_unit_locals_13_76 ≡ won 7 (int ∷ []) [] }
    ensures equal_types { called templates_in_order_unit templates_in_order_unit_call_13_86 templates_in_order_unit_locals_13_86 ≡ won 10 (int ∷ []) [] }
    ensures other_types { called templates_in_order_unit templates_in_order_unit_call_13_96 templates_in_order_unit_locals_13_96 ≡ won 9 (int ∷ bool ∷ []) [] }
    ensures crossed { called templates_in_order_unit templates_in_order_unit_call_13_109 templates_in_order_unit_locals_13_109 ≡ undecided (11 ∷ 12 ∷ []) }
    ensures one_fits { called templates_in_order_unit templates_in_order_unit_call_13_119 templates_in_order_unit_locals_13_119 ≡ won 11 (int ∷ int ∷ []) [] }
{}

/// Templates are ordered by their value arguments too.
pub fn values_in_order()
    ensures general { called values_in_order_unit values_in_order_unit_call_5_78 values_in_order_unit_locals_5_78 ≡ won 2 (bool ∷ val scalars.Int (pos 2) ∷ []) [] }
    ensures of_three { called values_in_order_unit values_in_order_unit_call_5_85 values_in_order_unit_locals_5_85 ≡ won 3 (bool ∷ []) [] }
    ensures of_ints { called values_in_order_unit values_in_order_unit_call_5_92 values_in_order_unit_locals_5_92 ≡ won 4 (val scalars.Int (pos 2) ∷ []) [] }
    ensures both { called values_in_order_unit values_in_order_unit_call_5_99 values_in_order_unit_locals_5_99 ≡ undecided (3 ∷ 4 ∷ []) }
{}

/// A better conversion counts before a function's not being a template.
pub fn conversions_before_templates()
    ensures template_exact { called conversions_before_templates_unit conversions_before_templates_unit_call_5_36 conversions_before_templates_unit_locals_5_36 ≡ won 1 (int ∷ []) [] }
    ensures plain_exact { called conversions_before_templates_unit conversions_before_templates_unit_call_5_43 conversions_before_templates_unit_locals_5_43 ≡ won 0 [] [] }
    ensures template_binds_better { called conversions_before_templates_unit conversions_before_templates_unit_call_5_52 conversions_before_templates_unit_locals_5_52 ≡ won 2 (int ∷ []) [] }
    ensures plain_binds_alike { called conversions_before_templates_unit conversions_before_templates_unit_call_5_59 conversions_before_templates_unit_locals_5_59 ≡ won 3 [] [] }
{}

/// Of two member functions of a class template with equal parameters the more constrained one is called.
pub fn members_by_constraints()
    ensures both { called members_by_constraints_unit members_by_constraints_unit_call_12_52 members_by_constraints_unit_locals_12_52 ≡ won 6 (int ∷ []) (4 ∷ 5 ∷ []) }
    ensures one { called members_by_constraints_unit members_by_constraints_unit_call_12_60 members_by_constraints_unit_locals_12_60 ≡ won 5 (bool ∷ []) (4 ∷ []) }
    ensures none { called members_by_constraints_unit members_by_constraints_unit_call_12_68 members_by_constraints_unit_locals_12_68 ≡ won 4 (unsigned ∷ []) [] }
    ensures conversion_first { called members_by_constraints_unit members_by_constraints_unit_call_12_76 members_by_constraints_unit_locals_12_76 ≡ won 8 (int ∷ []) [] }
    ensures unsatisfied { called members_by_constraints_unit members_by_constraints_unit_call_12_88 members_by_constraints_unit_locals_12_88 ≡ won 8 (unsigned ∷ []) [] }
    ensures not_viable { called members_by_constraints_unit members_by_constraints_unit_call_12_97 members_by_constraints_unit_locals_12_97 ≡ none_viable_in }
    ensures viable { called members_by_constraints_unit members_by_constraints_unit_call_12_105 members_by_constraints_unit_locals_12_105 ≡ won 9 (bool ∷ []) [] }
{}
