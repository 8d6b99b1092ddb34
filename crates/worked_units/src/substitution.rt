//! Member types, decltype, value arguments, template-ids and defaults ([temp.deduct], [temp.names], [temp.res], [temp.arg]).

ghost use Rattle.std.specs.Prelude.{◌≡◌, [], ◌∷◌};
ghost use Rattle.cx_base.specs.declared.kind.Kind.TheVariants as kind;
ghost use Rattle.cx_questions.specs.Answers.{soft, hard};
ghost use Rattle.worked_units.specs.Units.{p, valued, holds, fails, through};
ghost use Rattle.worked_units.specs.Substitution.{aliases_unit, aliases_unit_assert_10_1, aliases_unit_assert_12_1, aliases_unit_assert_13_1, aliases_unit_assert_6_1, aliases_unit_assert_7_1, aliases_unit_assert_8_1, aliases_unit_assert_9_1, decltypes_unit, decltypes_unit_assert_10_1, decltypes_unit_assert_11_1, decltypes_unit_assert_12_1, decltypes_unit_assert_13_1, decltypes_unit_assert_14_1, decltypes_unit_assert_15_1, decltypes_unit_assert_16_1, decltypes_unit_assert_17_1, decltypes_unit_assert_18_1, decltypes_unit_assert_19_1, decltypes_unit_assert_21_1, decltypes_unit_assert_8_1, decltypes_unit_assert_9_1, defaults_unit, defaults_unit_assert_4_1, defaults_unit_assert_5_1, defaults_unit_assert_6_1, defaults_unit_assert_7_1, member_types_unit, member_types_unit_assert_10_1, member_types_unit_assert_11_1, member_types_unit_assert_12_1, member_types_unit_assert_13_1, member_types_unit_assert_14_1, member_types_unit_assert_9_1, value_arguments_unit, value_arguments_unit_assert_10_1, value_arguments_unit_assert_15_1, value_arguments_unit_assert_16_1, value_arguments_unit_assert_17_1, value_arguments_unit_assert_18_1, value_arguments_unit_assert_19_1, value_arguments_unit_assert_20_1, value_arguments_unit_assert_21_1, value_arguments_unit_assert_22_1, value_arguments_unit_assert_23_1, value_arguments_unit_assert_24_1, value_arguments_unit_assert_5_1, value_arguments_unit_assert_6_1, value_arguments_unit_assert_7_1, value_arguments_unit_assert_8_1, value_arguments_unit_assert_9_1};

/// Member types of instances, one after another, and of a struct through its own name.
pub fn member_types()
    ensures chain { valued member_types_unit member_types_unit_assert_9_1 ≡ holds }
    ensures itself { valued member_types_unit member_types_unit_assert_10_1 ≡ holds }
    ensures back { valued member_types_unit member_types_unit_assert_11_1 ≡ holds }
    ensures absent { valued member_types_unit member_types_unit_assert_12_1 ≡ fails }
    ensures no_struct { valued member_types_unit member_types_unit_assert_13_1 ≡ fails }
    ensures outside { valued member_types_unit member_types_unit_assert_14_1 ≡ soft kind.InvalidType (p 14 25) }
{}

/// A value argument becomes a value of its parameter's type; one that does not fit is invalid.
pub fn value_arguments()
    ensures literal { valued value_arguments_unit value_arguments_unit_assert_5_1 ≡ holds }
    ensures computed { valued value_arguments_unit value_arguments_unit_assert_6_1 ≡ holds }
    ensures of_bool { valued value_arguments_unit value_arguments_unit_assert_7_1 ≡ holds }
    ensures to_bool { valued value_arguments_unit value_arguments_unit_assert_8_1 ≡ holds }
    ensures static_constant { valued value_arguments_unit value_arguments_unit_assert_9_1 ≡ holds }
    ensures different { valued value_arguments_unit value_arguments_unit_assert_10_1 ≡ fails }
    ensures greatest { valued value_arguments_unit value_arguments_unit_assert_15_1 ≡ holds }
    ensures too_large { valued value_arguments_unit value_arguments_unit_assert_16_1 ≡ fails }
    ensures fits_unsigned { valued value_arguments_unit value_arguments_unit_assert_17_1 ≡ holds }
    ensures negative { valued value_arguments_unit value_arguments_unit_assert_18_1 ≡ fails }
    ensures one { valued value_arguments_unit value_arguments_unit_assert_19_1 ≡ holds }
    ensures two_for_bool { valued value_arguments_unit value_arguments_unit_assert_20_1 ≡ fails }
    ensures divides { valued value_arguments_unit value_arguments_unit_assert_21_1 ≡ holds }
    ensures no_constant { valued value_arguments_unit value_arguments_unit_assert_22_1 ≡ fails }
    ensures negative_outside { valued value_arguments_unit value_arguments_unit_assert_23_1 ≡ soft kind.InvalidType (p 23 17) }
    ensures no_constant_outside { valued value_arguments_unit value_arguments_unit_assert_24_1 ≡ soft kind.NotConstant (p 24 17) }
{}

/// Default template arguments count as written, and may name the parameters before them.
pub fn defaults()
    ensures of_type { valued defaults_unit defaults_unit_assert_4_1 ≡ holds }
    ensures other_type { valued defaults_unit defaults_unit_assert_5_1 ≡ fails }
    ensures value { valued defaults_unit defaults_unit_assert_6_1 ≡ holds }
    ensures same_value { valued defaults_unit defaults_unit_assert_7_1 ≡ holds }
{}

/// The type of a name, of a member, of another expression.
pub fn decltypes()
    ensures by_value { valued decltypes_unit decltypes_unit_assert_8_1 ≡ holds }
    ensures by_reference { valued decltypes_unit decltypes_unit_assert_9_1 ≡ holds }
    ensures parenthesised_call { valued decltypes_unit decltypes_unit_assert_10_1 ≡ holds }
    ensures const_scalar { valued decltypes_unit decltypes_unit_assert_11_1 ≡ holds }
    ensures of_void { valued decltypes_unit decltypes_unit_assert_12_1 ≡ holds }
    ensures name { valued decltypes_unit decltypes_unit_assert_13_1 ≡ holds }
    ensures parenthesised_name { valued decltypes_unit decltypes_unit_assert_14_1 ≡ holds }
    ensures list { valued decltypes_unit decltypes_unit_assert_15_1 ≡ holds }
    ensures member { valued decltypes_unit decltypes_unit_assert_16_1 ≡ holds }
    ensures xvalue { valued decltypes_unit decltypes_unit_assert_17_1 ≡ hard kind.Unsupported (p 17 27) }
    ensures function_name { valued decltypes_unit decltypes_unit_assert_18_1 ≡ hard kind.Unsupported (p 18 27) }
    ensures sum { valued decltypes_unit decltypes_unit_assert_19_1 ≡ holds }
    ensures dependent { valued decltypes_unit decltypes_unit_assert_21_1 ≡ holds }
{}

/// An alias is its type, at the place of its name.
pub fn aliases()
    ensures reference { valued aliases_unit aliases_unit_assert_6_1 ≡ holds }
    ensures const_once { valued aliases_unit aliases_unit_assert_7_1 ≡ holds }
    ensures reference_to_const { valued aliases_unit aliases_unit_assert_8_1 ≡ holds }
    ensures collapses { valued aliases_unit aliases_unit_assert_9_1 ≡ holds }
    ensures in_an_instance { valued aliases_unit aliases_unit_assert_10_1 ≡ holds }
    ensures complete { valued aliases_unit aliases_unit_assert_12_1 ≡ holds }
    ensures void_inside { valued aliases_unit aliases_unit_assert_13_1 ≡ through kind.InvalidType (p 5 61) (p 11 58 ∷ []) }
{}
