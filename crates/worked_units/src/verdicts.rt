//! Verdicts on whole units: the functions that are emitted, or the first refusal with its places.

ghost use Rattle.std.specs.Prelude.{◌≡◌, [], ◌∷◌, pos};
ghost use Rattle.cx_base.specs.declared.kind.Kind.TheVariants as kind;
ghost use Rattle.cx_base.specs.declared.limit.Limit.TheVariants as limit;
ghost use Rattle.cx_base.specs.declared.value.Scalar.TheVariants as scalars;
ghost use Rattle.cx_term.specs.Term.{struct, val};
ghost use Rattle.cx_questions.specs.Answers.{given, hard, broken, passed, fault_about};
ghost use Rattle.worked_units.specs.Units.{p, d, through, int, bool, emitted, emitted_within, functions_at_most, atoms_at_most, clauses_at_most, scalars_at_most};
ghost use Rattle.worked_units.specs.Verdicts.{ambiguous_call_unit, ambiguous_call_unit_items, ambiguous_non_templates_unit, ambiguous_non_templates_unit_items, as_many_clauses_as_allowed_unit, as_many_clauses_as_allowed_unit_items, asserted_unit, asserted_unit_items, break_outside_unit, break_outside_unit_items, by_binding_unit, by_binding_unit_items, chains_of_instances_unit, chains_of_instances_unit_items, const_object_unit, const_object_unit_items, constrained_variable_unit, constrained_variable_unit_items, cycle_unit, cycle_unit_items, defined_later_unit, defined_later_unit_items, discarded_branch_unit, discarded_branch_unit_items, emits_what_is_called_unit, emits_what_is_called_unit_items, empty_unit_unit, empty_unit_unit_items, endless_instances_unit, endless_instances_unit_items, fault_in_a_constraint_unit, fault_in_a_constraint_unit_items, instances_by_arguments_unit, instances_by_arguments_unit_items, int_as_constraint_unit, int_as_constraint_unit_items, kept_branch_unit, kept_branch_unit_items, large_structs_unit, large_structs_unit_items, looked_at_unit, looked_at_unit_items, many_atoms_unit, many_atoms_unit_items, many_clauses_unit, many_clauses_unit_items, member_on_const_unit, member_on_const_unit_items, members_are_emitted_unit, members_are_emitted_unit_items, narrowing_variable_unit, narrowing_variable_unit_items, not_defined_unit, not_defined_unit_items, not_looked_at_unit, not_looked_at_unit_items, not_more_specialised_unit, not_more_specialised_unit_items, nothing_viable_unit, nothing_viable_unit_items, one_clause_too_many_unit, one_clause_too_many_unit_items, overflow_in_a_constraint_unit, overflow_in_a_constraint_unit_items, plain_and_template_unit, plain_and_template_unit_items, realistic_unit, realistic_unit_items, reference_to_temporary_unit, reference_to_temporary_unit_items, requirement_inside_unit, requirement_inside_unit_items, requirement_outside_unit, requirement_outside_unit_items, returns_nothing_unit, returns_nothing_unit_items, returns_unit, returns_unit_items, returns_void_unit, returns_void_unit_items, through_a_template_unit, through_a_template_unit_items, through_two_templates_unit, through_two_templates_unit_items, types_before_constraints_unit, types_before_constraints_unit_items};

/// The empty unit.
pub fn empty_unit()
    ensures nothing { emitted empty_unit_unit empty_unit_unit_items ≡ given [] }
{}

/// A template's instance is emitted after the function that calls it.
pub fn emits_what_is_called()
    ensures emitted { emitted emits_what_is_called_unit emits_what_is_called_unit_items ≡ given ((4, []) ∷ (3, int ∷ []) ∷ []) }
{}

/// An ambiguous call is a fault with the unbeaten candidates.
pub fn ambiguous_call()
    ensures fault { emitted ambiguous_call_unit ambiguous_call_unit_items ≡ broken (fault_about kind.Ambiguous (p 3 18) (p 1 55 ∷ p 2 63 ∷ [])) }
{}

/// Two conversions of which neither is better.
pub fn ambiguous_non_templates()
    ensures fault { emitted ambiguous_non_templates_unit ambiguous_non_templates_unit_items ≡ broken (fault_about kind.Ambiguous (p 3 18) (p 1 5 ∷ p 2 5 ∷ [])) }
{}

/// A cycle of three candidates, each better than another: none is unbeaten.
pub fn cycle()
    ensures fault { emitted cycle_unit cycle_unit_items ≡ hard kind.Ambiguous (p 5 33) }
{}

/// A fault inside an instance that a constraint names.
pub fn fault_in_a_constraint()
    ensures fault { emitted fault_in_a_constraint_unit fault_in_a_constraint_unit_items ≡ through kind.InvalidType (p 1 36) (p 2 45 ∷ []) }
{}

/// No viable candidate is a fault in a body.
pub fn nothing_viable()
    ensures fault { emitted nothing_viable_unit nothing_viable_unit_items ≡ hard kind.NoViable (p 4 18) }
{}

/// What a disjunction does not look at is no fault.
pub fn not_looked_at()
    ensures passes { emitted not_looked_at_unit not_looked_at_unit_items ≡ given [] }
{}

/// What it looks at first is.
pub fn looked_at()
    ensures fault { emitted looked_at_unit looked_at_unit_items ≡ through kind.InvalidType (p 1 36) (p 2 45 ∷ []) }
{}

/// A constraint of type int.
pub fn int_as_constraint()
    ensures fault { emitted int_as_constraint_unit int_as_constraint_unit_items ≡ hard kind.NotBool (p 2 32) }
{}

/// A constraint without a value.
pub fn overflow_in_a_constraint()
    ensures fault { emitted overflow_in_a_constraint_unit overflow_in_a_constraint_unit_items ≡ hard kind.NotConstant (p 2 36) }
{}

/// A requirement that is invalid outside a template.
pub fn requirement_outside()
    ensures fault { emitted requirement_outside_unit requirement_outside_unit_items ≡ hard kind.InvalidExpr (p 2 37) }
{}

/// The same in a template, called with that struct.
pub fn requirement_inside()
    ensures emitted { emitted requirement_inside_unit requirement_inside_unit_items ≡ given ((2, []) ∷ (1, struct (d 0) ∷ []) ∷ []) }
{}

/// Only what is called is emitted of a template.
pub fn plain_and_template()
    ensures emitted { emitted plain_and_template_unit plain_and_template_unit_items ≡ given ((2, []) ∷ (3, []) ∷ (4, []) ∷ (1, bool ∷ []) ∷ []) }
{}

/// The types of a candidate are substituted before its constraints are asked.
pub fn types_before_constraints()
    ensures fault { emitted types_before_constraints_unit types_before_constraints_unit_items ≡ through kind.InvalidType (p 1 35) (p 2 61 ∷ []) }
{}

/// A realistic unit: a container, a concept for it, and calls of its members.
pub fn realistic()
    ensures emitted { emitted realistic_unit realistic_unit_items ≡ given ((15, []) ∷ (7, int ∷ []) ∷ (14, int ∷ val scalars.Int (pos 4) ∷ []) ∷ (13, int ∷ val scalars.Int (pos 4) ∷ []) ∷ (12, int ∷ val scalars.Int (pos 4) ∷ []) ∷ []) }
{}

/// A false assertion.
pub fn asserted()
    ensures fault { emitted asserted_unit asserted_unit_items ≡ hard kind.AssertFailed (p 2 1) }
{}

/// A function without a definition, called.
pub fn not_defined()
    ensures fault { emitted not_defined_unit not_defined_unit_items ≡ hard kind.NoDefinition (p 2 18) }
{}

/// A definition counts wherever it stands.
pub fn defined_later()
    ensures emitted { emitted defined_later_unit defined_later_unit_items ≡ given ((0, []) ∷ (1, []) ∷ []) }
{}

/// A fault in a template's body is reached through the call that needed it first.
pub fn through_a_template()
    ensures fault { emitted through_a_template_unit through_a_template_unit_items ≡ through kind.InvalidExpr (p 1 42) (p 4 18 ∷ []) }
{}

/// ... and through the calls before it.
pub fn through_two_templates()
    ensures fault { emitted through_two_templates_unit through_two_templates_unit_items ≡ through kind.InvalidExpr (p 1 42) (p 3 18 ∷ p 2 42 ∷ []) }
{}

/// Each instance needs another: the limit on functions stands at the call that needs one more.
pub fn endless_instances()
    ensures limit { emitted_within endless_instances_unit (functions_at_most 5) endless_instances_unit_items ≡ passed limit.Instances (p 1 34) }
{}

/// The limit on the atoms of a normal form stands at the declaration.
pub fn many_atoms()
    ensures just_enough { emitted_within many_atoms_unit (atoms_at_most 8) many_atoms_unit_items ≡ given [] }
    ensures too_many { emitted_within many_atoms_unit (atoms_at_most 7) many_atoms_unit_items ≡ passed limit.Atoms (p 4 30) }
{}

/// The limit on compared clauses stands at the call.
pub fn many_clauses()
    ensures just_enough { emitted_within many_clauses_unit (clauses_at_most 64) many_clauses_unit_items ≡ given ((6, []) ∷ (5, int ∷ []) ∷ []) }
    ensures too_many { emitted_within many_clauses_unit (clauses_at_most 63) many_clauses_unit_items ≡ passed limit.Clauses (p 7 18) }
{}

/// The product of clauses that the limit just allows.
pub fn as_many_clauses_as_allowed()
    ensures second { emitted as_many_clauses_as_allowed_unit as_many_clauses_as_allowed_unit_items ≡ given ((6, []) ∷ (5, int ∷ []) ∷ []) }
{}

/// A group more passes it.
pub fn one_clause_too_many()
    ensures limit { emitted one_clause_too_many_unit one_clause_too_many_unit_items ≡ passed limit.Clauses (p 7 18) }
{}

/// The limit on the scalar values of a struct stands at its name.
pub fn large_structs()
    ensures just_enough { emitted_within large_structs_unit (scalars_at_most 8) large_structs_unit_items ≡ given [] }
    ensures too_many { emitted_within large_structs_unit (scalars_at_most 7) large_structs_unit_items ≡ passed limit.Object (p 3 8) }
{}

/// A specialisation that is not more specialised than its template.
pub fn not_more_specialised()
    ensures fault { emitted not_more_specialised_unit not_more_specialised_unit_items ≡ hard kind.NotMoreSpecialised (p 2 29) }
{}

/// What a return gives.
pub fn returns()
    ensures fault { emitted returns_unit returns_unit_items ≡ hard kind.InvalidExpr (p 1 19) }
{}

/// A return without a value where one is wanted.
pub fn returns_nothing()
    ensures fault { emitted returns_nothing_unit returns_nothing_unit_items ≡ hard kind.InvalidExpr (p 1 11) }
{}

/// A void expression may be returned from a void function.
pub fn returns_void()
    ensures emitted { emitted returns_void_unit returns_void_unit_items ≡ given ((0, []) ∷ (1, []) ∷ []) }
{}

/// A break outside a loop.
pub fn break_outside()
    ensures fault { emitted break_outside_unit break_outside_unit_items ≡ hard kind.InvalidExpr (p 1 35) }
{}

/// In a template the branch that is not taken is not judged.
pub fn discarded_branch()
    ensures emitted { emitted discarded_branch_unit discarded_branch_unit_items ≡ given ((1, []) ∷ (0, int ∷ []) ∷ []) }
{}

/// Outside a template it is.
pub fn kept_branch()
    ensures fault { emitted kept_branch_unit kept_branch_unit_items ≡ hard kind.InvalidExpr (p 1 58) }
{}

/// A constrained `auto` needs the concept of its type.
pub fn constrained_variable()
    ensures fault { emitted constrained_variable_unit constrained_variable_unit_items ≡ hard kind.Unsatisfied (p 3 11) }
{}

/// A variable in braces does not narrow.
pub fn narrowing_variable()
    ensures fault { emitted narrowing_variable_unit narrowing_variable_unit_items ≡ hard kind.InvalidExpr (p 2 26) }
{}

/// A reference to const may bind to a temporary, another not.
pub fn reference_to_temporary()
    ensures fault { emitted reference_to_temporary_unit reference_to_temporary_unit_items ≡ hard kind.InvalidExpr (p 2 20) }
{}

/// Members of structs that are no templates are emitted in unit order.
pub fn members_are_emitted()
    ensures emitted { emitted members_are_emitted_unit members_are_emitted_unit_items ≡ given ((2, []) ∷ (3, []) ∷ (4, []) ∷ []) }
{}

/// A member function that is not const on a const object.
pub fn const_object()
    ensures fault { emitted const_object_unit const_object_unit_items ≡ hard kind.InvalidExpr (p 1 69) }
{}

/// A call of a member function that is not const on a const object.
pub fn member_on_const()
    ensures fault { emitted member_on_const_unit member_on_const_unit_items ≡ hard kind.NoViable (p 2 22) }
{}

/// Instances by explicit arguments and by deduction.
pub fn instances_by_arguments()
    ensures emitted { emitted instances_by_arguments_unit instances_by_arguments_unit_items ≡ given ((1, []) ∷ (0, int ∷ []) ∷ (0, bool ∷ []) ∷ []) }
{}

/// Of a reference and a reference to const the first binds to what is not const.
pub fn by_binding()
    ensures emitted { emitted by_binding_unit by_binding_unit_items ≡ given ((2, []) ∷ (0, int ∷ []) ∷ (1, int ∷ []) ∷ []) }
{}

/// An instance that names another which is faulty: both uses are in the chain.
pub fn chains_of_instances()
    ensures fault { emitted chains_of_instances_unit chains_of_instances_unit_items ≡ through kind.InvalidType (p 1 34) (p 3 11 ∷ p 2 35 ∷ []) }
{}
