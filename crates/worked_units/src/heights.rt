//! How far questions go into one another: the limit on their height.

ghost use Rattle.std.specs.Prelude.{◌≡◌, [], ◌∷◌};
ghost use Rattle.cx_base.specs.declared.limit.Limit.TheVariants as limit;
ghost use Rattle.cx_questions.specs.Answers.{passed};
ghost use Rattle.cx_questions.specs.Knot.{answers};
ghost use Rattle.worked_units.specs.Units.{p, valued, nothing_known, holds};
ghost use Rattle.worked_units.specs.Heights.{names_itself_unit, names_itself_unit_assert_2_1, nested_instances_unit, nested_instances_unit_assert_3_1, nested_instances_unit_assert_4_1, one_instance_deeper_unit, one_instance_deeper_unit_assert_3_1};

/// Each instance asks for the next through a requires-expression, three questions further.
pub fn nested_instances()
    ensures enough { (answers nested_instances_unit 8).constant nested_instances_unit_assert_3_1 nothing_known ≡ holds }
    ensures one_less { (answers nested_instances_unit 7).constant nested_instances_unit_assert_3_1 nothing_known ≡ passed limit.Height (p 1 76) }
    ensures at_the_requirement { (answers nested_instances_unit 5).constant nested_instances_unit_assert_3_1 nothing_known ≡ passed limit.Height (p 1 74) }
    ensures twenty { (answers nested_instances_unit 62).constant nested_instances_unit_assert_4_1 nothing_known ≡ holds }
    ensures twenty_three_less { (answers nested_instances_unit 59).constant nested_instances_unit_assert_4_1 nothing_known ≡ passed limit.Height (p 1 74) }
{}

/// A constant whose initialiser names it asks for itself.
pub fn names_itself()
    ensures itself { (answers names_itself_unit 20).constant names_itself_unit_assert_2_1 nothing_known ≡ passed limit.Height (p 1 58) }
{}

/// One instance more passes the limit.
pub fn one_instance_deeper()
    ensures limit { valued one_instance_deeper_unit one_instance_deeper_unit_assert_3_1 ≡ passed limit.Height (p 1 74) }
{}
