//! Mappings of atomic constraints through concepts and values ([temp.constr.normal]), and orders by constraints.

ghost use Rattle.std.specs.Prelude.{◌≡◌, [], ◌∷◌, pos};
ghost use Rattle.cx_base.specs.declared.kind.Kind.TheVariants as kind;
ghost use Rattle.cx_base.specs.declared.value.Scalar.TheVariants as scalars;
ghost use Rattle.cx_term.specs.Term.{val};
ghost use Rattle.cx_questions.specs.Answers.{soft, hard};
ghost use Rattle.worked_units.specs.Units.{p, called, typed, nothing_known, won, undecided, int};
ghost use Rattle.worked_units.specs.Mappings.{dependent_targets_unit, dependent_targets_unit_call_6_18, dependent_targets_unit_call_6_27, disjunctions_are_compared_unit, disjunctions_are_compared_unit_call_7_18, disjunctions_are_compared_unit_call_7_25, evaluated_targets_unit, evaluated_targets_unit_call_5_18, instance_in_a_target_unit, instance_in_a_target_unit_call_5_18, instance_in_a_target_unit_call_5_27, limit_of_partial_ordering_unit, limit_of_partial_ordering_unit_call_5_29, limit_of_partial_ordering_unit_call_5_39, limit_of_partial_ordering_unit_call_5_49, limit_of_partial_ordering_unit_call_5_59, limit_of_partial_ordering_unit_locals_5_29, limit_of_partial_ordering_unit_locals_5_39, limit_of_partial_ordering_unit_locals_5_49, limit_of_partial_ordering_unit_locals_5_59, turned_positions_unit, turned_positions_unit_call_4_18, turned_positions_unit_call_4_28, turned_positions_unit_call_4_38, unused_argument_unit, unused_argument_unit_call_5_18, unused_argument_unit_call_5_25, value_through_two_unit, value_through_two_unit_call_4_18, value_through_two_unit_call_4_27, values_as_targets_unit, values_as_targets_unit_call_6_18, values_as_targets_unit_call_6_25};

/// A value argument goes through two concepts and is computed on the way.
pub fn value_through_two()
    ensures satisfied { called value_through_two_unit value_through_two_unit_call_4_18 nothing_known ≡ won 2 (val scalars.Int (pos 1) ∷ []) [] }
    ensures not_satisfied { typed value_through_two_unit value_through_two_unit_call_4_27 nothing_known ≡ soft kind.NoViable (p 4 27) }
{}

/// A target is a static constant of an instance whose argument is a value position.
pub fn instance_in_a_target()
    ensures satisfied { called instance_in_a_target_unit instance_in_a_target_unit_call_5_18 nothing_known ≡ won 4 (val scalars.Int (pos 3) ∷ []) [] }
    ensures not_satisfied { typed instance_in_a_target_unit instance_in_a_target_unit_call_5_27 nothing_known ≡ soft kind.NoViable (p 5 27) }
{}

/// Positions that a concept takes in the other order, a type and a value.
pub fn turned_positions()
    ensures satisfied { called turned_positions_unit turned_positions_unit_call_4_18 nothing_known ≡ won 2 (val scalars.Int (pos 2) ∷ int ∷ []) [] }
    ensures too_large { typed turned_positions_unit turned_positions_unit_call_4_28 nothing_known ≡ soft kind.NoViable (p 4 28) }
    ensures other_type { typed turned_positions_unit turned_positions_unit_call_4_38 nothing_known ≡ soft kind.NoViable (p 4 38) }
{}

/// An argument that no atom names does not matter, but it must be valid where it hangs on no position.
pub fn unused_argument()
    ensures dependent { called unused_argument_unit unused_argument_unit_call_5_18 nothing_known ≡ won 3 (int ∷ []) [] }
    ensures independent { typed unused_argument_unit unused_argument_unit_call_5_25 nothing_known ≡ hard kind.InvalidMapping (p 4 31) }
{}

/// A target that hangs on no position is evaluated: the two concept-ids give one atom.
pub fn evaluated_targets()
    ensures second { called evaluated_targets_unit evaluated_targets_unit_call_5_18 nothing_known ≡ won 3 (int ∷ []) (2 ∷ []) }
{}

/// Equal values are equal targets, however they are written; other values are not.
pub fn values_as_targets()
    ensures equal { called values_as_targets_unit values_as_targets_unit_call_6_18 nothing_known ≡ won 2 (int ∷ []) (1 ∷ []) }
    ensures other { called values_as_targets_unit values_as_targets_unit_call_6_25 nothing_known ≡ undecided (3 ∷ 4 ∷ []) }
{}

/// A dependent expression in a target counts as it is written, its positions by number.
pub fn dependent_targets()
    ensures same { called dependent_targets_unit dependent_targets_unit_call_6_18 nothing_known ≡ won 2 (val scalars.Int (pos 1) ∷ []) (1 ∷ []) }
    ensures turned { called dependent_targets_unit dependent_targets_unit_call_6_27 nothing_known ≡ undecided (3 ∷ 4 ∷ []) }
{}

/// A disjunction is less constrained than each of its operands, and than their conjunction.
pub fn disjunctions_are_compared()
    ensures operand { called disjunctions_are_compared_unit disjunctions_are_compared_unit_call_7_18 nothing_known ≡ won 3 (int ∷ []) (2 ∷ []) }
    ensures conjunction { called disjunctions_are_compared_unit disjunctions_are_compared_unit_call_7_25 nothing_known ≡ won 5 (int ∷ []) (4 ∷ []) }
{}

/// A pair of parameters that is skipped decides nothing, its const neither.
pub fn limit_of_partial_ordering()
    ensures by_binding { called limit_of_partial_ordering_unit limit_of_partial_ordering_unit_call_5_29 limit_of_partial_ordering_unit_locals_5_29 ≡ won 1 (int ∷ []) [] }
    ensures to_const { called limit_of_partial_ordering_unit limit_of_partial_ordering_unit_call_5_39 limit_of_partial_ordering_unit_locals_5_39 ≡ won 0 (int ∷ []) [] }
    ensures less_const { called limit_of_partial_ordering_unit limit_of_partial_ordering_unit_call_5_49 limit_of_partial_ordering_unit_locals_5_49 ≡ won 2 (int ∷ []) [] }
    ensures of_a_value { called limit_of_partial_ordering_unit limit_of_partial_ordering_unit_call_5_59 limit_of_partial_ordering_unit_locals_5_59 ≡ won 3 (int ∷ []) [] }
{}
