//! Specialisations of class templates, and the members of instances ([temp.class.spec], [temp.class.order], [temp.inst]).

ghost use Rattle.std.specs.Prelude.{◌≡◌, [], ◌∷◌};
ghost use Rattle.cx_base.specs.declared.kind.Kind.TheVariants as kind;
ghost use Rattle.cx_base.specs.declared.limit.Limit.TheVariants as limit;
ghost use Rattle.cx_term.specs.Term.{inst, arguments};
ghost use Rattle.cx_questions.specs.Answers.{soft, broken, passed};
ghost use Rattle.cx_questions.specs.Knot.{answers};
ghost use Rattle.worked_units.specs.Units.{p, d, valued, holds, fails, int};
ghost use Rattle.worked_units.specs.Instances.{chosen_for_one_type_unit, chosen_for_one_type_unit_assert_10_1, chosen_for_one_type_unit_assert_11_1, chosen_for_one_type_unit_assert_12_1, chosen_for_one_type_unit_assert_13_1, chosen_for_one_type_unit_assert_7_1, chosen_for_one_type_unit_assert_8_1, chosen_for_one_type_unit_assert_9_1, constrained_lists_unit, constrained_lists_unit_assert_6_1, constrained_lists_unit_assert_7_1, constrained_lists_unit_assert_8_1, constrained_template_unit, constrained_template_unit_assert_4_1, constrained_template_unit_assert_5_1, constrained_template_unit_assert_6_1, constrained_template_unit_assert_7_1, holds_itself_unit, lists_of_values_unit, lists_of_values_unit_assert_10_1, lists_of_values_unit_assert_5_1, lists_of_values_unit_assert_6_1, lists_of_values_unit_assert_7_1, lists_of_values_unit_assert_8_1, lists_of_values_unit_assert_9_1, members_and_clauses_unit, members_and_clauses_unit_assert_12_1, members_and_clauses_unit_assert_13_1, members_and_clauses_unit_assert_14_1, members_and_clauses_unit_assert_15_1, members_and_clauses_unit_assert_16_1, members_and_clauses_unit_assert_17_1, two_parameters_unit, two_parameters_unit_assert_10_1, two_parameters_unit_assert_6_1, two_parameters_unit_assert_7_1, two_parameters_unit_assert_8_1, two_parameters_unit_assert_9_1, two_that_match_unit, two_that_match_unit_assert_4_1, two_that_match_unit_assert_5_1};

/// The most specialised one that matches, else the template itself.
pub fn chosen_for_one_type()
    ensures primary { valued chosen_for_one_type_unit chosen_for_one_type_unit_assert_7_1 ≡ holds }
    ensures reference { valued chosen_for_one_type_unit chosen_for_one_type_unit_assert_8_1 ≡ holds }
    ensures constant { valued chosen_for_one_type_unit chosen_for_one_type_unit_assert_9_1 ≡ holds }
    ensures reference_to_const { valued chosen_for_one_type_unit chosen_for_one_type_unit_assert_10_1 ≡ holds }
    ensures full { valued chosen_for_one_type_unit chosen_for_one_type_unit_assert_11_1 ≡ holds }
    ensures of_instance { valued chosen_for_one_type_unit chosen_for_one_type_unit_assert_12_1 ≡ holds }
    ensures full_of_instance { valued chosen_for_one_type_unit chosen_for_one_type_unit_assert_13_1 ≡ holds }
{}

/// Specialisations of a template with two parameters.
pub fn two_parameters()
    ensures neither { valued two_parameters_unit two_parameters_unit_assert_6_1 ≡ holds }
    ensures same { valued two_parameters_unit two_parameters_unit_assert_7_1 ≡ holds }
    ensures second { valued two_parameters_unit two_parameters_unit_assert_8_1 ≡ holds }
    ensures first { valued two_parameters_unit two_parameters_unit_assert_9_1 ≡ holds }
    ensures full { valued two_parameters_unit two_parameters_unit_assert_10_1 ≡ holds }
{}

/// Specialisations of which none is more specialised than every other.
pub fn two_that_match()
    ensures one { valued two_that_match_unit two_that_match_unit_assert_4_1 ≡ holds }
    ensures two { valued two_that_match_unit two_that_match_unit_assert_5_1 ≡ broken (record { kind = kind.Ambiguous; at = p 5 15; also = p 2 29 ∷ p 3 29 ∷ []; chain = p 5 15 ∷ [] }) }
{}

/// Value arguments of specialisations; a literal counts as the value of its parameter's type.
pub fn lists_of_values()
    ensures literal { valued lists_of_values_unit lists_of_values_unit_assert_5_1 ≡ holds }
    ensures unsigned_literal { valued lists_of_values_unit lists_of_values_unit_assert_6_1 ≡ holds }
    ensures other { valued lists_of_values_unit lists_of_values_unit_assert_7_1 ≡ holds }
    ensures partial { valued lists_of_values_unit lists_of_values_unit_assert_8_1 ≡ holds }
    ensures not_matching { valued lists_of_values_unit lists_of_values_unit_assert_9_1 ≡ holds }
    ensures converted { valued lists_of_values_unit lists_of_values_unit_assert_10_1 ≡ holds }
{}

/// Constraints tell specialisations apart where their lists do not, and one that is not satisfied does not match.
pub fn constrained_lists()
    ensures primary { valued constrained_lists_unit constrained_lists_unit_assert_6_1 ≡ holds }
    ensures constrained_one { valued constrained_lists_unit constrained_lists_unit_assert_7_1 ≡ holds }
    ensures more_constrained_one { valued constrained_lists_unit constrained_lists_unit_assert_8_1 ≡ holds }
{}

/// An instance needs the constraints of its template.
pub fn constrained_template()
    ensures value { valued constrained_template_unit constrained_template_unit_assert_4_1 ≡ holds }
    ensures satisfied { valued constrained_template_unit constrained_template_unit_assert_5_1 ≡ holds }
    ensures not_satisfied { valued constrained_template_unit constrained_template_unit_assert_6_1 ≡ fails }
    ensures outside { valued constrained_template_unit constrained_template_unit_assert_7_1 ≡ soft kind.Unsatisfied (p 7 15) }
{}

/// The members of an instance: fields, member types, functions with a trailing clause.
pub fn members_and_clauses()
    ensures all { valued members_and_clauses_unit members_and_clauses_unit_assert_12_1 ≡ holds }
    ensures not_on_const { valued members_and_clauses_unit members_and_clauses_unit_assert_13_1 ≡ fails }
    ensures trailing_clause { valued members_and_clauses_unit members_and_clauses_unit_assert_14_1 ≡ holds }
    ensures trailing_clause_fails { valued members_and_clauses_unit members_and_clauses_unit_assert_15_1 ≡ fails }
    ensures of_reference { valued members_and_clauses_unit members_and_clauses_unit_assert_16_1 ≡ broken (record { kind = kind.Unsupported; at = p 3 3; also = []; chain = p 8 47 ∷ [] }) }
    ensures of_void { valued members_and_clauses_unit members_and_clauses_unit_assert_17_1 ≡ broken (record { kind = kind.InvalidType; at = p 3 3; also = []; chain = p 8 47 ∷ [] }) }
{}

/// An instance that holds itself meets the limit on heights.
pub fn holds_itself()
    ensures limit { (answers holds_itself_unit 6).class (p 2 11) (inst (d 0) (arguments (int ∷ []))) ≡ passed limit.Height (p 1 33) }
{}
