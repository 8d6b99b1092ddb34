//! Judging of bodies: variables, statements, the order of refusals, which calls are needed ([stmt.stmt], [dcl.spec.auto]).

ghost use Rattle.std.specs.Prelude.{◌≡◌, [], ◌∷◌, pos};
ghost use Rattle.cx_base.specs.declared.kind.Kind.TheVariants as kind;
ghost use Rattle.cx_base.specs.declared.value.Scalar.TheVariants as scalars;
ghost use Rattle.cx_term.specs.Term.{val};
ghost use Rattle.cx_questions.specs.Answers.{given, hard};
ghost use Rattle.worked_units.specs.Units.{p, through, int, emitted};
ghost use Rattle.worked_units.specs.Judging.{auto_by_value_unit, auto_by_value_unit_items, auto_reference_unit, auto_reference_unit_items, auto_to_a_temporary_unit, auto_to_a_temporary_unit_items, body_before_needs_unit, body_before_needs_unit_items, braces_of_a_reference_unit, braces_of_a_reference_unit_items, constant_of_a_block_unit, constant_of_a_block_unit_items, constrained_by_value_unit, constrained_by_value_unit_items, constrained_reference_unit, constrained_reference_unit_items, heads_are_complete_unit, heads_are_complete_unit_items, loops_unit, loops_unit_items, member_bodies_unit, member_bodies_unit_items, not_needed_unit, not_needed_unit_items, operands_first_unit, operands_first_unit_items, order_of_needs_unit, order_of_needs_unit_items, void_condition_unit, void_condition_unit_items, void_variable_unit, void_variable_unit_items, wrong_initialiser_unit, wrong_initialiser_unit_items};

/// Calls are needed operands first, from left to right, also in an assignment.
pub fn order_of_needs()
    ensures emitted { emitted order_of_needs_unit order_of_needs_unit_items ≡ given ((1, []) ∷ (0, val scalars.Int (pos 2) ∷ []) ∷ (0, val scalars.Int (pos 1) ∷ []) ∷ (0, val scalars.Int (pos 3) ∷ []) ∷ (0, val scalars.Int (pos 4) ∷ []) ∷ (0, val scalars.Int (pos 5) ∷ []) ∷ []) }
{}

/// Calls inside decltype, requirements and constants are not needed, nor those of a discarded branch.
pub fn not_needed()
    ensures emitted { emitted not_needed_unit not_needed_unit_items ≡ given ((2, []) ∷ (0, val scalars.Int (pos 3) ∷ []) ∷ (0, val scalars.Int (pos 4) ∷ []) ∷ []) }
{}

/// A missing definition is met operands first.
pub fn operands_first()
    ensures fault { emitted operands_first_unit operands_first_unit_items ≡ hard kind.NoDefinition (p 3 20) }
{}

/// The fault of a body comes before a missing definition of an earlier call.
pub fn body_before_needs()
    ensures fault { emitted body_before_needs_unit body_before_needs_unit_items ≡ hard kind.InvalidExpr (p 3 24) }
{}

/// By value `auto` drops const; before a reference to const it does too.
pub fn auto_by_value()
    ensures passes { emitted auto_by_value_unit auto_by_value_unit_items ≡ given ((0, []) ∷ []) }
{}

/// A reference of `auto` keeps const.
pub fn auto_reference()
    ensures fault { emitted auto_reference_unit auto_reference_unit_items ≡ hard kind.InvalidExpr (p 1 41) }
{}

/// A reference of `auto` does not bind to a prvalue.
pub fn auto_to_a_temporary()
    ensures fault { emitted auto_to_a_temporary_unit auto_to_a_temporary_unit_items ≡ hard kind.InvalidExpr (p 1 21) }
{}

/// Before a reference the concept is asked of what is referred to, const with it.
pub fn constrained_reference()
    ensures fault { emitted constrained_reference_unit constrained_reference_unit_items ≡ hard kind.Unsatisfied (p 3 28) }
{}

/// By value it is asked of the type without const.
pub fn constrained_by_value()
    ensures passes { emitted constrained_by_value_unit constrained_by_value_unit_items ≡ given ((1, []) ∷ []) }
{}

/// A variable of void is refused at its type, and one of `auto` where its initialiser is void.
pub fn void_variable()
    ensures fault { emitted void_variable_unit void_variable_unit_items ≡ hard kind.InvalidType (p 2 11) }
{}

/// A condition is a scalar.
pub fn void_condition()
    ensures fault { emitted void_condition_unit void_condition_unit_items ≡ hard kind.InvalidExpr (p 2 25) }
{}

/// An initialiser that does not convert is refused at its first token.
pub fn wrong_initialiser()
    ensures fault { emitted wrong_initialiser_unit wrong_initialiser_unit_items ≡ hard kind.InvalidExpr (p 2 26) }
{}

/// Braces of a reference are not supported.
pub fn braces_of_a_reference()
    ensures fault { emitted braces_of_a_reference_unit braces_of_a_reference_unit_items ≡ hard kind.Unsupported (p 1 28) }
{}

/// Variables of a `for` are seen in its condition, step and body; break and continue stand in loops.
pub fn loops()
    ensures passes { emitted loops_unit loops_unit_items ≡ given ((0, []) ∷ []) }
{}

/// An assertion in a block is judged where the block is, an instance at a time.
pub fn constant_of_a_block()
    ensures fault { emitted constant_of_a_block_unit constant_of_a_block_unit_items ≡ through kind.AssertFailed (p 1 33) (p 3 18 ∷ []) }
{}

/// The structs of a head are asked for, behind a reference too.
pub fn heads_are_complete()
    ensures fault { emitted heads_are_complete_unit heads_are_complete_unit_items ≡ through kind.InvalidType (p 1 33) (p 2 13 ∷ []) }
{}

/// Members of a struct begin the list; of a template they are reached by their calls.
pub fn member_bodies()
    ensures emitted { emitted member_bodies_unit member_bodies_unit_items ≡ given ((6, []) ∷ (7, []) ∷ (2, int ∷ []) ∷ (3, int ∷ []) ∷ []) }
{}
