//! Conversions, their ranking, and which viable function is better ([over.ics.rank], [over.match.best]).

ghost use Rattle.std.specs.Prelude.{◌≡◌, [], ◌∷◌};
ghost use Rattle.cx_base.specs.declared.kind.Kind.TheVariants as kind;
ghost use Rattle.cx_questions.specs.Answers.{fault_at};
ghost use Rattle.worked_units.specs.Units.{p, called, nothing_known, won, none_viable_in, undecided, refused, int, bool};
ghost use Rattle.worked_units.specs.Overloads.{as_constrained_unit, as_constrained_unit_call_10_3, as_constrained_unit_call_11_3, as_constrained_unit_call_12_3, constrained_functions_unit, constrained_functions_unit_call_11_3, constrained_functions_unit_call_12_3, constrained_functions_unit_call_13_3, constrained_functions_unit_locals_11_3, constrained_functions_unit_locals_12_3, constrained_functions_unit_locals_13_3, more_than_one_argument_unit, more_than_one_argument_unit_call_10_3, more_than_one_argument_unit_call_6_3, more_than_one_argument_unit_call_7_3, more_than_one_argument_unit_call_8_3, more_than_one_argument_unit_call_9_3, number_of_arguments_unit, number_of_arguments_unit_call_4_3, number_of_arguments_unit_call_5_3, number_of_arguments_unit_call_6_3, number_of_arguments_unit_call_7_3, objects_bound_unit, objects_bound_unit_call_10_3, objects_bound_unit_call_11_3, objects_bound_unit_call_12_3, objects_bound_unit_call_13_3, objects_bound_unit_call_14_3, objects_bound_unit_call_5_3, objects_bound_unit_call_6_3, objects_bound_unit_call_7_3_2, objects_bound_unit_call_8_3_2, objects_bound_unit_call_9_3, objects_bound_unit_locals_10_3, objects_bound_unit_locals_11_3, objects_bound_unit_locals_12_3, objects_bound_unit_locals_13_3, objects_bound_unit_locals_14_3, objects_bound_unit_locals_5_3, objects_bound_unit_locals_6_3, objects_bound_unit_locals_7_3_2, objects_bound_unit_locals_8_3_2, objects_bound_unit_locals_9_3, ranks_of_conversions_unit, ranks_of_conversions_unit_call_10_3, ranks_of_conversions_unit_call_11_3, ranks_of_conversions_unit_call_12_3, ranks_of_conversions_unit_call_13_3, ranks_of_conversions_unit_call_14_3, ranks_of_conversions_unit_call_15_3, ranks_of_conversions_unit_call_16_3, ranks_of_conversions_unit_call_9_3, references_bound_unit, references_bound_unit_call_11_3, references_bound_unit_call_12_3, references_bound_unit_call_13_3, references_bound_unit_call_14_3, references_bound_unit_call_15_3, references_bound_unit_call_16_3, references_bound_unit_call_17_3, references_bound_unit_call_18_3, references_bound_unit_call_19_3, references_bound_unit_call_20_3, references_bound_unit_call_21_3, references_bound_unit_call_22_3, references_bound_unit_locals_11_3, references_bound_unit_locals_12_3, references_bound_unit_locals_13_3, references_bound_unit_locals_14_3, references_bound_unit_locals_15_3, references_bound_unit_locals_16_3, references_bound_unit_locals_17_3, references_bound_unit_locals_18_3, references_bound_unit_locals_19_3, references_bound_unit_locals_20_3, references_bound_unit_locals_21_3, references_bound_unit_locals_22_3, skipped_pairs_unit, skipped_pairs_unit_call_10_3, skipped_pairs_unit_call_8_3, skipped_pairs_unit_call_9_3, structs_convert_unit, structs_convert_unit_call_10_3, structs_convert_unit_call_7_3, structs_convert_unit_call_8_3, structs_convert_unit_call_9_3, structs_convert_unit_locals_10_3, structs_convert_unit_locals_7_3, structs_convert_unit_locals_8_3, structs_convert_unit_locals_9_3, templates_and_functions_unit, templates_and_functions_unit_call_14_3, templates_and_functions_unit_call_15_3, templates_and_functions_unit_call_16_3, templates_and_functions_unit_call_17_3, templates_and_functions_unit_call_18_3, templates_and_functions_unit_call_19_3, templates_and_functions_unit_call_20_3, templates_and_functions_unit_call_21_3, templates_and_functions_unit_call_22_3, templates_and_functions_unit_call_23_3, templates_and_functions_unit_locals_14_3, templates_and_functions_unit_locals_15_3, templates_and_functions_unit_locals_16_3, templates_and_functions_unit_locals_17_3, templates_and_functions_unit_locals_18_3, templates_and_functions_unit_locals_19_3, templates_and_functions_unit_locals_20_3, templates_and_functions_unit_locals_21_3, templates_and_functions_unit_locals_22_3, templates_and_functions_unit_locals_23_3};

/// Exact, then promotion, then conversion.
pub fn ranks_of_conversions()
    ensures exact { called ranks_of_conversions_unit ranks_of_conversions_unit_call_9_3 nothing_known ≡ won 0 [] [] }
    ensures exact_bool { called ranks_of_conversions_unit ranks_of_conversions_unit_call_10_3 nothing_known ≡ won 1 [] [] }
    ensures exact_long { called ranks_of_conversions_unit ranks_of_conversions_unit_call_11_3 nothing_known ≡ won 2 [] [] }
    ensures conversions_all { called ranks_of_conversions_unit ranks_of_conversions_unit_call_12_3 nothing_known ≡ undecided (0 ∷ 1 ∷ 2 ∷ []) }
    ensures promotion { called ranks_of_conversions_unit ranks_of_conversions_unit_call_13_3 nothing_known ≡ won 3 [] [] }
    ensures two_conversions { called ranks_of_conversions_unit ranks_of_conversions_unit_call_14_3 nothing_known ≡ undecided (5 ∷ 6 ∷ []) }
    ensures exact_unsigned { called ranks_of_conversions_unit ranks_of_conversions_unit_call_15_3 nothing_known ≡ won 5 [] [] }
    ensures int_to_both { called ranks_of_conversions_unit ranks_of_conversions_unit_call_16_3 nothing_known ≡ undecided (5 ∷ 6 ∷ []) }
{}

/// No argument's conversion may be worse, and one must be better.
pub fn more_than_one_argument()
    ensures crossed { called more_than_one_argument_unit more_than_one_argument_unit_call_6_3 nothing_known ≡ undecided (0 ∷ 1 ∷ []) }
    ensures both_exact { called more_than_one_argument_unit more_than_one_argument_unit_call_7_3 nothing_known ≡ won 0 [] [] }
    ensures second_exact { called more_than_one_argument_unit more_than_one_argument_unit_call_8_3 nothing_known ≡ undecided (0 ∷ 1 ∷ []) }
    ensures one_better { called more_than_one_argument_unit more_than_one_argument_unit_call_9_3 nothing_known ≡ won 3 [] [] }
    ensures neither { called more_than_one_argument_unit more_than_one_argument_unit_call_10_3 nothing_known ≡ undecided (2 ∷ 3 ∷ []) }
{}

/// References bind to lvalues; the less const of two is better; by value and by reference are not told apart.
pub fn references_bound()
    ensures lvalue { called references_bound_unit references_bound_unit_call_11_3 references_bound_unit_locals_11_3 ≡ won 0 [] [] }
    ensures const_lvalue { called references_bound_unit references_bound_unit_call_12_3 references_bound_unit_locals_12_3 ≡ won 1 [] [] }
    ensures prvalue { called references_bound_unit references_bound_unit_call_13_3 references_bound_unit_locals_13_3 ≡ won 1 [] [] }
    ensures value_or_reference { called references_bound_unit references_bound_unit_call_14_3 references_bound_unit_locals_14_3 ≡ undecided (2 ∷ 3 ∷ []) }
    ensures value_alone { called references_bound_unit references_bound_unit_call_15_3 references_bound_unit_locals_15_3 ≡ won 2 [] [] }
    ensures no_prvalue { called references_bound_unit references_bound_unit_call_16_3 references_bound_unit_locals_16_3 ≡ none_viable_in }
    ensures no_other_type { called references_bound_unit references_bound_unit_call_17_3 references_bound_unit_locals_17_3 ≡ none_viable_in }
    ensures no_const { called references_bound_unit references_bound_unit_call_18_3 references_bound_unit_locals_18_3 ≡ none_viable_in }
    ensures by_rank { called references_bound_unit references_bound_unit_call_19_3 references_bound_unit_locals_19_3 ≡ won 6 [] [] }
    ensures converted_temporaries { called references_bound_unit references_bound_unit_call_20_3 references_bound_unit_locals_20_3 ≡ undecided (5 ∷ 6 ∷ []) }
    ensures value_or_const_reference { called references_bound_unit references_bound_unit_call_21_3 references_bound_unit_locals_21_3 ≡ undecided (7 ∷ 8 ∷ []) }
    ensures both_promote { called references_bound_unit references_bound_unit_call_22_3 references_bound_unit_locals_22_3 ≡ undecided (7 ∷ 8 ∷ []) }
{}

/// A struct converts only to itself.
pub fn structs_convert()
    ensures first { called structs_convert_unit structs_convert_unit_call_7_3 structs_convert_unit_locals_7_3 ≡ won 4 [] [] }
    ensures second { called structs_convert_unit structs_convert_unit_call_8_3 structs_convert_unit_locals_8_3 ≡ won 5 [] [] }
    ensures from_scalar { called structs_convert_unit structs_convert_unit_call_9_3 structs_convert_unit_locals_9_3 ≡ none_viable_in }
    ensures to_scalar { called structs_convert_unit structs_convert_unit_call_10_3 structs_convert_unit_locals_10_3 ≡ none_viable_in }
{}

/// The object of a member function binds like a reference; one that is not const binds to prvalues too.
pub fn objects_bound()
    ensures not_const { called objects_bound_unit objects_bound_unit_call_5_3 objects_bound_unit_locals_5_3 ≡ won 2 [] [] }
    ensures of_const { called objects_bound_unit objects_bound_unit_call_6_3 objects_bound_unit_locals_6_3 ≡ won 3 [] [] }
    ensures of_prvalue { called objects_bound_unit objects_bound_unit_call_7_3_2 objects_bound_unit_locals_7_3_2 ≡ won 2 [] [] }
    ensures prvalue_binds { called objects_bound_unit objects_bound_unit_call_8_3_2 objects_bound_unit_locals_8_3_2 ≡ won 4 [] [] }
    ensures const_does_not { called objects_bound_unit objects_bound_unit_call_9_3 objects_bound_unit_locals_9_3 ≡ none_viable_in }
    ensures const_member { called objects_bound_unit objects_bound_unit_call_10_3 objects_bound_unit_locals_10_3 ≡ won 5 [] [] }
    ensures const_member_of_variable { called objects_bound_unit objects_bound_unit_call_11_3 objects_bound_unit_locals_11_3 ≡ won 5 [] [] }
    ensures member_of_lvalue { called objects_bound_unit objects_bound_unit_call_12_3 objects_bound_unit_locals_12_3 ≡ won 4 [] [] }
    ensures member_of_xvalue { called objects_bound_unit objects_bound_unit_call_13_3 objects_bound_unit_locals_13_3 ≡ won 4 [] [] }
    ensures no_member { called objects_bound_unit objects_bound_unit_call_14_3 objects_bound_unit_locals_14_3 ≡ refused (fault_at kind.InvalidExpr (p 14 3)) }
{}

/// As many arguments as parameters.
pub fn number_of_arguments()
    ensures one { called number_of_arguments_unit number_of_arguments_unit_call_4_3 nothing_known ≡ won 0 [] [] }
    ensures two { called number_of_arguments_unit number_of_arguments_unit_call_5_3 nothing_known ≡ won 1 [] [] }
    ensures none { called number_of_arguments_unit number_of_arguments_unit_call_6_3 nothing_known ≡ none_viable_in }
    ensures three { called number_of_arguments_unit number_of_arguments_unit_call_7_3 nothing_known ≡ none_viable_in }
{}

/// No template before a template, where conversions do not tell; the more specialised template.
pub fn templates_and_functions()
    ensures no_template { called templates_and_functions_unit templates_and_functions_unit_call_14_3 templates_and_functions_unit_locals_14_3 ≡ won 1 [] [] }
    ensures template_exact { called templates_and_functions_unit templates_and_functions_unit_call_15_3 templates_and_functions_unit_locals_15_3 ≡ won 0 (bool ∷ []) [] }
    ensures template_by_conversion { called templates_and_functions_unit templates_and_functions_unit_call_16_3 templates_and_functions_unit_locals_16_3 ≡ won 2 (int ∷ []) [] }
    ensures reference_not_viable { called templates_and_functions_unit templates_and_functions_unit_call_17_3 templates_and_functions_unit_locals_17_3 ≡ won 4 (int ∷ []) [] }
    ensures neither_specialised { called templates_and_functions_unit templates_and_functions_unit_call_18_3 templates_and_functions_unit_locals_18_3 ≡ undecided (4 ∷ 5 ∷ []) }
    ensures by_the_binding { called templates_and_functions_unit templates_and_functions_unit_call_19_3 templates_and_functions_unit_locals_19_3 ≡ won 6 (int ∷ []) [] }
    ensures by_partial_ordering { called templates_and_functions_unit templates_and_functions_unit_call_20_3 templates_and_functions_unit_locals_20_3 ≡ won 7 (int ∷ []) [] }
    ensures not_a_box { called templates_and_functions_unit templates_and_functions_unit_call_21_3 templates_and_functions_unit_locals_21_3 ≡ won 10 (int ∷ []) [] }
    ensures one_box { called templates_and_functions_unit templates_and_functions_unit_call_22_3 templates_and_functions_unit_locals_22_3 ≡ won 11 (int ∷ []) [] }
    ensures box_of_box { called templates_and_functions_unit templates_and_functions_unit_call_23_3 templates_and_functions_unit_locals_23_3 ≡ won 12 (int ∷ []) [] }
{}

/// In partial ordering a pair of types of which the one to be deduced names no parameter is skipped.
pub fn skipped_pairs()
    ensures skipped { called skipped_pairs_unit skipped_pairs_unit_call_8_3 nothing_known ≡ undecided (0 ∷ 1 ∷ []) }
    ensures one_type { called skipped_pairs_unit skipped_pairs_unit_call_9_3 nothing_known ≡ won 2 (int ∷ []) [] }
    ensures int_against_same { called skipped_pairs_unit skipped_pairs_unit_call_10_3 nothing_known ≡ won 5 (int ∷ []) [] }
{}

/// Functions that are no templates are told apart by constraints where their parameters agree.
pub fn constrained_functions()
    ensures constrained { called constrained_functions_unit constrained_functions_unit_call_11_3 constrained_functions_unit_locals_11_3 ≡ won 2 (int ∷ []) (3 ∷ []) }
    ensures by_conversion { called constrained_functions_unit constrained_functions_unit_call_12_3 constrained_functions_unit_locals_12_3 ≡ won 5 (int ∷ []) [] }
    ensures not_satisfied { called constrained_functions_unit constrained_functions_unit_call_13_3 constrained_functions_unit_locals_13_3 ≡ won 7 (int ∷ []) [] }
{}

/// Constraints decide between templates only where their parameters agree.
pub fn as_constrained()
    ensures other_positions { called as_constrained_unit as_constrained_unit_call_10_3 nothing_known ≡ undecided (2 ∷ 3 ∷ []) }
    ensures same_position { called as_constrained_unit as_constrained_unit_call_11_3 nothing_known ≡ won 5 (int ∷ int ∷ []) (4 ∷ []) }
    ensures other_order { called as_constrained_unit as_constrained_unit_call_12_3 nothing_known ≡ undecided (6 ∷ 7 ∷ []) }
{}
