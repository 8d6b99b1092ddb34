//! Normal forms and satisfaction ([temp.constr.normal], [temp.constr.atomic], [temp.constr.op]).

ghost use Rattle.std.specs.Prelude.{◌≡◌, [], ◌∷◌};
ghost use Rattle.cx_base.specs.declared.kind.Kind.TheVariants as kind;
ghost use Rattle.cx_questions.specs.Answers.{soft, hard};
ghost use Rattle.worked_units.specs.Units.{p, typed, valued, nothing_known, holds, fails, through};
ghost use Rattle.worked_units.specs.Concepts.{atom_of_int_unit, atom_of_int_unit_call_3_18, atom_that_overflows_unit, atom_that_overflows_unit_assert_3_1, atom_that_overflows_unit_assert_4_1, atom_without_the_member_unit, atom_without_the_member_unit_call_2_18, conjunctions_as_atoms_unit, conjunctions_as_atoms_unit_assert_3_1, conjunctions_as_atoms_unit_assert_4_1, const_bool_will_do_unit, const_bool_will_do_unit_assert_4_1, const_bool_will_do_unit_assert_5_1, defaults_of_concepts_unit, defaults_of_concepts_unit_assert_2_1, defaults_of_concepts_unit_assert_3_1, defaults_of_concepts_unit_assert_4_1, fault_within_a_constraint_unit, fault_within_a_constraint_unit_call_4_18, invalid_mapping_unit, invalid_mapping_unit_call_5_18, invalid_requirement_unit, invalid_requirement_unit_call_4_18, second_of_a_conjunction_unit, second_of_a_conjunction_unit_assert_3_1, second_of_a_conjunction_unit_assert_4_1, second_operand_unit, second_operand_unit_assert_4_1, second_operand_unit_assert_5_1, substituted_before_constraints_unit, substituted_before_constraints_unit_call_4_18, type_for_a_value_unit, type_for_a_value_unit_assert_6_1, type_for_a_value_unit_assert_7_1, type_for_a_value_unit_assert_8_1, unsatisfied_template_unit, unsatisfied_template_unit_assert_3_1, unsatisfied_template_unit_assert_4_1, unsatisfied_template_unit_assert_5_1, values_as_arguments_unit, values_as_arguments_unit_assert_3_1, values_as_arguments_unit_assert_4_1, values_as_arguments_unit_assert_5_1, values_as_arguments_unit_assert_6_1, values_as_arguments_unit_assert_7_1, values_as_arguments_unit_assert_8_1};

/// A fault inside a class instance is no unsatisfied constraint, but a fault of the unit.
pub fn fault_within_a_constraint()
    ensures fault { typed fault_within_a_constraint_unit fault_within_a_constraint_unit_call_4_18 nothing_known ≡ through kind.InvalidType (p 1 36) (p 2 45 ∷ []) }
{}

/// A requirement that is invalid itself is not satisfied.
pub fn invalid_requirement()
    ensures none { typed invalid_requirement_unit invalid_requirement_unit_call_4_18 nothing_known ≡ soft kind.NoViable (p 4 18) }
{}

/// The second operand of a disjunction is looked at only where the first is not satisfied.
pub fn second_operand()
    ensures first { valued second_operand_unit second_operand_unit_assert_4_1 ≡ holds }
    ensures fault { valued second_operand_unit second_operand_unit_assert_5_1 ≡ through kind.InvalidType (p 1 36) (p 3 45 ∷ []) }
{}

/// The second operand of a conjunction is looked at only where the first is satisfied.
pub fn second_of_a_conjunction()
    ensures negated { valued second_of_a_conjunction_unit second_of_a_conjunction_unit_assert_3_1 ≡ holds }
    ensures of_false { valued second_of_a_conjunction_unit second_of_a_conjunction_unit_assert_4_1 ≡ fails }
{}

/// An atom that is an int is a fault, and not false.
pub fn atom_of_int()
    ensures fault { typed atom_of_int_unit atom_of_int_unit_call_3_18 nothing_known ≡ hard kind.NotBool (p 2 32) }
{}

/// An atom that is invalid with the arguments is not satisfied.
pub fn atom_without_the_member()
    ensures none { typed atom_without_the_member_unit atom_without_the_member_unit_call_2_18 nothing_known ≡ soft kind.NoViable (p 2 18) }
{}

/// An atom whose value has no meaning is no constant, which is a fault.
pub fn atom_that_overflows()
    ensures negated { valued atom_that_overflows_unit atom_that_overflows_unit_assert_3_1 ≡ hard kind.NotConstant (p 2 36) }
    ensures plain { valued atom_that_overflows_unit atom_that_overflows_unit_assert_4_1 ≡ hard kind.NotConstant (p 2 36) }
{}

/// An atom of type const bool is one of bool.
pub fn const_bool_will_do()
    ensures of_true { valued const_bool_will_do_unit const_bool_will_do_unit_assert_4_1 ≡ holds }
    ensures of_false { valued const_bool_will_do_unit const_bool_will_do_unit_assert_5_1 ≡ holds }
{}

/// The types of a function are substituted before its constraints are asked.
pub fn substituted_before_constraints()
    ensures fault { typed substituted_before_constraints_unit substituted_before_constraints_unit_call_4_18 nothing_known ≡ through kind.InvalidType (p 1 35) (p 2 61 ∷ []) }
{}

/// A type that is invalid in a parameter mapping is a fault of the concept-id.
pub fn invalid_mapping()
    ensures fault { typed invalid_mapping_unit invalid_mapping_unit_call_5_18 nothing_known ≡ hard kind.InvalidMapping (p 4 31) }
{}

/// Only && and || at the top of a constraint are conjunctions and disjunctions; parentheses change nothing.
pub fn conjunctions_as_atoms()
    ensures int { valued conjunctions_as_atoms_unit conjunctions_as_atoms_unit_assert_3_1 ≡ holds }
    ensures bool { valued conjunctions_as_atoms_unit conjunctions_as_atoms_unit_assert_4_1 ≡ fails }
{}

/// A default argument of a concept counts as written.
pub fn defaults_of_concepts()
    ensures default { valued defaults_of_concepts_unit defaults_of_concepts_unit_assert_2_1 ≡ holds }
    ensures other { valued defaults_of_concepts_unit defaults_of_concepts_unit_assert_3_1 ≡ fails }
    ensures given { valued defaults_of_concepts_unit defaults_of_concepts_unit_assert_4_1 ≡ holds }
{}

/// A concept with a parameter that is a value.
pub fn values_as_arguments()
    ensures positive { valued values_as_arguments_unit values_as_arguments_unit_assert_3_1 ≡ holds }
    ensures negative { valued values_as_arguments_unit values_as_arguments_unit_assert_4_1 ≡ fails }
    ensures of_bool { valued values_as_arguments_unit values_as_arguments_unit_assert_5_1 ≡ holds }
    ensures too_large { valued values_as_arguments_unit values_as_arguments_unit_assert_6_1 ≡ soft kind.InvalidType (p 6 19) }
    ensures not_unsigned { valued values_as_arguments_unit values_as_arguments_unit_assert_7_1 ≡ soft kind.InvalidType (p 7 24) }
    ensures computed { valued values_as_arguments_unit values_as_arguments_unit_assert_8_1 ≡ holds }
{}

/// A template-id with arguments of the wrong kind or number is an invalid type.
pub fn type_for_a_value()
    ensures value { valued type_for_a_value_unit type_for_a_value_unit_assert_6_1 ≡ fails }
    ensures two { valued type_for_a_value_unit type_for_a_value_unit_assert_7_1 ≡ fails }
    ensures one { valued type_for_a_value_unit type_for_a_value_unit_assert_8_1 ≡ holds }
{}

/// A template-id whose template's constraints are not satisfied is invalid.
pub fn unsatisfied_template()
    ensures int { valued unsatisfied_template_unit unsatisfied_template_unit_assert_3_1 ≡ holds }
    ensures bool { valued unsatisfied_template_unit unsatisfied_template_unit_assert_4_1 ≡ fails }
    ensures outside { valued unsatisfied_template_unit unsatisfied_template_unit_assert_5_1 ≡ soft kind.Unsatisfied (p 5 25) }
{}
