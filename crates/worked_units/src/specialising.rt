//! Class templates, their specialisations and instances ([temp.class.spec], [temp.inst]).

ghost use Rattle.std.specs.Prelude.{◌≡◌, [], ◌∷◌};
ghost use Rattle.cx_base.specs.declared.kind.Kind.TheVariants as kind;
ghost use Rattle.cx_base.specs.declared.limit.Limit.TheVariants as limit;
ghost use Rattle.cx_questions.specs.Answers.{given, broken, passed};
ghost use Rattle.worked_units.specs.Units.{p, called, valued, nothing_known, won, holds, fails, through, int, bool, emitted};
ghost use Rattle.worked_units.specs.Specialising.{by_constraints_unit, by_constraints_unit_assert_11_1, by_constraints_unit_assert_12_1, by_constraints_unit_assert_13_1, by_constraints_unit_assert_14_1, by_constraints_unit_assert_15_1, by_constraints_unit_assert_16_1, by_constraints_unit_assert_17_1, by_constraints_unit_assert_18_1, endless_unit, endless_unit_assert_4_1, faults_inside_unit, faults_inside_unit_assert_10_1, faults_inside_unit_assert_11_1, faults_inside_unit_assert_12_1, faults_inside_unit_assert_13_1, faults_inside_unit_assert_14_1, faults_inside_unit_assert_15_1, faults_inside_unit_assert_16_1, faults_inside_unit_assert_17_1, faults_inside_unit_assert_18_1, faults_inside_unit_assert_9_1, instances_of_instances_unit, instances_of_instances_unit_assert_5_1, instances_of_instances_unit_assert_6_1, members_of_instances_unit, members_of_instances_unit_assert_12_1, members_of_instances_unit_assert_13_1, members_of_instances_unit_assert_14_1, members_of_instances_unit_assert_4_1, members_of_instances_unit_assert_5_1, members_of_instances_unit_assert_6_1, members_of_instances_unit_assert_7_1, members_of_instances_unit_assert_8_1, members_of_instances_unit_assert_9_1, most_specialised_unit, most_specialised_unit_assert_10_1, most_specialised_unit_assert_11_1, most_specialised_unit_assert_12_1, most_specialised_unit_assert_13_1, most_specialised_unit_assert_14_1, most_specialised_unit_assert_15_1, most_specialised_unit_assert_16_1, most_specialised_unit_assert_17_1, most_specialised_unit_assert_18_1, most_specialised_unit_assert_19_1, most_specialised_unit_assert_9_1, not_ordered_unit, not_ordered_unit_assert_10_1, not_ordered_unit_assert_11_1, not_ordered_unit_assert_12_1, not_ordered_unit_assert_13_1, not_ordered_unit_assert_7_1, not_ordered_unit_assert_8_1, not_ordered_unit_assert_9_1, own_types_unit, own_types_unit_items, same_types_unit, same_types_unit_assert_3_1, same_types_unit_assert_4_1, same_types_unit_assert_5_1, same_types_unit_assert_6_1, template_ids_unit, template_ids_unit_assert_10_1, template_ids_unit_assert_11_1, template_ids_unit_assert_8_1, template_ids_unit_assert_9_1, template_ids_unit_call_12_18, value_lists_unit, value_lists_unit_assert_12_1, value_lists_unit_assert_13_1, value_lists_unit_assert_14_1, value_lists_unit_assert_15_1, value_lists_unit_assert_16_1, value_lists_unit_assert_17_1, value_lists_unit_assert_18_1, value_lists_unit_assert_19_1, value_lists_unit_assert_20_1, value_lists_unit_assert_21_1, value_lists_unit_assert_22_1};

/// A specialisation matches where its parameters are deduced and make the argument list.
pub fn same_types()
    ensures alike { valued same_types_unit same_types_unit_assert_3_1 ≡ holds }
    ensures other { valued same_types_unit same_types_unit_assert_4_1 ≡ fails }
    ensures const_counts { valued same_types_unit same_types_unit_assert_5_1 ≡ fails }
    ensures references { valued same_types_unit same_types_unit_assert_6_1 ≡ holds }
{}

/// The most specialised of those that match; references and const stay.
pub fn most_specialised()
    ensures of_int { valued most_specialised_unit most_specialised_unit_assert_9_1 ≡ holds }
    ensures of_reference { valued most_specialised_unit most_specialised_unit_assert_10_1 ≡ holds }
    ensures of_const { valued most_specialised_unit most_specialised_unit_assert_11_1 ≡ holds }
    ensures of_const_reference { valued most_specialised_unit most_specialised_unit_assert_12_1 ≡ holds }
    ensures of_instance { valued most_specialised_unit most_specialised_unit_assert_13_1 ≡ holds }
    ensures of_instance_of_reference { valued most_specialised_unit most_specialised_unit_assert_14_1 ≡ holds }
    ensures full { valued most_specialised_unit most_specialised_unit_assert_15_1 ≡ holds }
    ensures full_over_partial { valued most_specialised_unit most_specialised_unit_assert_16_1 ≡ holds }
    ensures const_bool { valued most_specialised_unit most_specialised_unit_assert_17_1 ≡ holds }
    ensures reference_outside { valued most_specialised_unit most_specialised_unit_assert_18_1 ≡ holds }
    ensures const_outside { valued most_specialised_unit most_specialised_unit_assert_19_1 ≡ holds }
{}

/// Where none of those that match is more specialised than every other the instance is a hard fault.
pub fn not_ordered()
    ensures second_int { valued not_ordered_unit not_ordered_unit_assert_7_1 ≡ holds }
    ensures first_int { valued not_ordered_unit not_ordered_unit_assert_8_1 ≡ holds }
    ensures alike { valued not_ordered_unit not_ordered_unit_assert_9_1 ≡ holds }
    ensures all_three { valued not_ordered_unit not_ordered_unit_assert_10_1 ≡ broken (record { kind = kind.Ambiguous; at = (p 10 15); also = (p 2 29) ∷ (p 3 29) ∷ (p 4 29) ∷ []; chain = (p 10 15) ∷ [] }) }
    ensures inside_a_constant { valued not_ordered_unit not_ordered_unit_assert_11_1 ≡ broken (record { kind = kind.Ambiguous; at = (p 5 62); also = (p 2 29) ∷ (p 3 29) ∷ (p 4 29) ∷ []; chain = (p 11 15) ∷ (p 5 62) ∷ [] }) }
    ensures in_a_requirement { valued not_ordered_unit not_ordered_unit_assert_12_1 ≡ broken (record { kind = kind.Ambiguous; at = (p 6 45); also = (p 2 29) ∷ (p 3 29) ∷ (p 4 29) ∷ []; chain = (p 6 45) ∷ [] }) }
    ensures none_matches { valued not_ordered_unit not_ordered_unit_assert_13_1 ≡ holds }
{}

/// Constraints order specialisations with one argument list, and leave out what is not satisfied.
pub fn by_constraints()
    ensures both { valued by_constraints_unit by_constraints_unit_assert_11_1 ≡ holds }
    ensures one { valued by_constraints_unit by_constraints_unit_assert_12_1 ≡ holds }
    ensures none { valued by_constraints_unit by_constraints_unit_assert_13_1 ≡ holds }
    ensures of_its_own { valued by_constraints_unit by_constraints_unit_assert_14_1 ≡ holds }
    ensures reference { valued by_constraints_unit by_constraints_unit_assert_15_1 ≡ holds }
    ensures reference_unsatisfied { valued by_constraints_unit by_constraints_unit_assert_16_1 ≡ holds }
    ensures alone { valued by_constraints_unit by_constraints_unit_assert_17_1 ≡ holds }
    ensures no_order { valued by_constraints_unit by_constraints_unit_assert_18_1 ≡ broken (record { kind = kind.Ambiguous; at = (p 18 15); also = (p 9 22) ∷ (p 10 58) ∷ []; chain = (p 18 15) ∷ [] }) }
{}

/// Value arguments in specialisations: a literal counts as the value that it becomes, an expression as its value.
pub fn value_lists()
    ensures literal { valued value_lists_unit value_lists_unit_assert_12_1 ≡ holds }
    ensures unsigned_literal { valued value_lists_unit value_lists_unit_assert_13_1 ≡ holds }
    ensures other_literal { valued value_lists_unit value_lists_unit_assert_14_1 ≡ holds }
    ensures constant { valued value_lists_unit value_lists_unit_assert_15_1 ≡ holds }
    ensures sum { valued value_lists_unit value_lists_unit_assert_16_1 ≡ holds }
    ensures no_match { valued value_lists_unit value_lists_unit_assert_17_1 ≡ holds }
    ensures zero { valued value_lists_unit value_lists_unit_assert_18_1 ≡ holds }
    ensures negative { valued value_lists_unit value_lists_unit_assert_19_1 ≡ holds }
    ensures of_ints { valued value_lists_unit value_lists_unit_assert_20_1 ≡ holds }
    ensures not_deducible { valued value_lists_unit value_lists_unit_assert_21_1 ≡ holds }
    ensures two_match { valued value_lists_unit value_lists_unit_assert_22_1 ≡ broken (record { kind = kind.Ambiguous; at = (p 22 15); also = (p 8 29) ∷ (p 10 24) ∷ []; chain = (p 22 15) ∷ [] }) }
{}

/// An instance may ask for another instance, down to a full specialisation.
pub fn instances_of_instances()
    ensures factorial { valued instances_of_instances_unit instances_of_instances_unit_assert_5_1 ≡ holds }
    ensures nested { valued instances_of_instances_unit instances_of_instances_unit_assert_6_1 ≡ holds }
{}

/// An instance whose field is always of another instance passes the limit of height.
pub fn endless()
    ensures by_values { valued endless_unit endless_unit_assert_4_1 ≡ passed limit.Height (p 1 30) }
{}

/// Fields, member types and member functions take the arguments of the template.
pub fn members_of_instances()
    ensures member_type { valued members_of_instances_unit members_of_instances_unit_assert_4_1 ≡ holds }
    ensures const_member_type { valued members_of_instances_unit members_of_instances_unit_assert_5_1 ≡ holds }
    ensures of_specialisation { valued members_of_instances_unit members_of_instances_unit_assert_6_1 ≡ holds }
    ensures field { valued members_of_instances_unit members_of_instances_unit_assert_7_1 ≡ holds }
    ensures reference_result { valued members_of_instances_unit members_of_instances_unit_assert_8_1 ≡ holds }
    ensures value_result { valued members_of_instances_unit members_of_instances_unit_assert_9_1 ≡ holds }
    ensures has_field { valued members_of_instances_unit members_of_instances_unit_assert_12_1 ≡ holds }
    ensures specialisation_has_not { valued members_of_instances_unit members_of_instances_unit_assert_13_1 ≡ fails }
    ensures no_member_type { valued members_of_instances_unit members_of_instances_unit_assert_14_1 ≡ fails }
{}

/// A fault inside an instance is hard, and reached through the use of the instance.
pub fn faults_inside()
    ensures fine { valued faults_inside_unit faults_inside_unit_assert_9_1 ≡ holds }
    ensures void_field { valued faults_inside_unit faults_inside_unit_assert_10_1 ≡ through kind.InvalidType (p 1 35) ((p 5 45) ∷ []) }
    ensures reference_field { valued faults_inside_unit faults_inside_unit_assert_11_1 ≡ through kind.Unsupported (p 1 35) ((p 5 45) ∷ []) }
    ensures const_field { valued faults_inside_unit faults_inside_unit_assert_12_1 ≡ through kind.Unsupported (p 1 35) ((p 5 45) ∷ []) }
    ensures const_void_field { valued faults_inside_unit faults_inside_unit_assert_13_1 ≡ through kind.InvalidType (p 1 35) ((p 5 45) ∷ []) }
    ensures void_parameter { valued faults_inside_unit faults_inside_unit_assert_14_1 ≡ through kind.InvalidType (p 2 41) ((p 6 45) ∷ []) }
    ensures parameter { valued faults_inside_unit faults_inside_unit_assert_15_1 ≡ holds }
    ensures const_scalar_result { valued faults_inside_unit faults_inside_unit_assert_16_1 ≡ holds }
    ensures const_struct_result { valued faults_inside_unit faults_inside_unit_assert_17_1 ≡ through kind.Unsupported (p 3 35) ((p 7 45) ∷ []) }
    ensures inner_first { valued faults_inside_unit faults_inside_unit_assert_18_1 ≡ through kind.InvalidType (p 1 35) ((p 8 45) ∷ (p 1 35) ∷ []) }
{}

/// A template-id fits its template: the number and kinds of arguments, and the constraints.
pub fn template_ids()
    ensures satisfied { valued template_ids_unit template_ids_unit_assert_8_1 ≡ holds }
    ensures unsatisfied { valued template_ids_unit template_ids_unit_assert_9_1 ≡ fails }
    ensures fits { valued template_ids_unit template_ids_unit_assert_10_1 ≡ holds }
    ensures negative { valued template_ids_unit template_ids_unit_assert_11_1 ≡ fails }
    ensures in_deduction { called template_ids_unit template_ids_unit_call_12_18 nothing_known ≡ won 7 (bool ∷ []) [] }
{}

/// A member function's object has the type of its instance, also where the specialisation's list is written otherwise.
pub fn own_types()
    ensures emitted { emitted own_types_unit own_types_unit_items ≡ given ((3, []) ∷ (4, []) ∷ (6, []) ∷ (7, []) ∷ (12, []) ∷ (10, int ∷ []) ∷ (11, int ∷ []) ∷ []) }
{}
