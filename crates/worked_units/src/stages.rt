//! The order of stops: types, normal forms, constants, bodies, each in unit order.

ghost use Rattle.std.specs.Prelude.{◌≡◌, [], ◌∷◌};
ghost use Rattle.cx_base.specs.declared.kind.Kind.TheVariants as kind;
ghost use Rattle.cx_questions.specs.Answers.{given, hard};
ghost use Rattle.worked_units.specs.Units.{p, emitted};
ghost use Rattle.worked_units.specs.Stages.{aliases_are_types_unit, aliases_are_types_unit_items, constants_before_bodies_unit, constants_before_bodies_unit_items, constants_in_unit_order_unit, constants_in_unit_order_unit_items, forms_before_constants_unit, forms_before_constants_unit_items, full_specialisation_unit, full_specialisation_unit_items, members_of_templates_unit, members_of_templates_unit_items, not_instantiated_unit, not_instantiated_unit_items, specialisations_in_unit_order_unit, specialisations_in_unit_order_unit_items, specialised_by_constraints_unit, specialised_by_constraints_unit_items, types_before_forms_unit, types_before_forms_unit_items, types_in_unit_order_unit, types_in_unit_order_unit_items};

/// An assertion is judged before every body.
pub fn constants_before_bodies()
    ensures fault { emitted constants_before_bodies_unit constants_before_bodies_unit_items ≡ hard kind.AssertFailed (p 3 1) }
{}

/// A normal form comes before every assertion.
pub fn forms_before_constants()
    ensures fault { emitted forms_before_constants_unit forms_before_constants_unit_items ≡ hard kind.InvalidMapping (p 4 31) }
{}

/// The types of declarations come before every normal form.
pub fn types_before_forms()
    ensures fault { emitted types_before_forms_unit types_before_forms_unit_items ≡ hard kind.InvalidType (p 4 7) }
{}

/// A specialisation is compared with its template where it stands among the types.
pub fn specialisations_in_unit_order()
    ensures fault { emitted specialisations_in_unit_order_unit specialisations_in_unit_order_unit_items ≡ hard kind.NotMoreSpecialised (p 2 29) }
{}

/// An earlier type comes first.
pub fn types_in_unit_order()
    ensures fault { emitted types_in_unit_order_unit types_in_unit_order_unit_items ≡ hard kind.InvalidType (p 3 7) }
{}

/// The constants of a struct stand where the struct does.
pub fn constants_in_unit_order()
    ensures fault { emitted constants_in_unit_order_unit constants_in_unit_order_unit_items ≡ hard kind.NotConstant (p 1 37) }
{}

/// A template that nothing needs is not judged.
pub fn not_instantiated()
    ensures passes { emitted not_instantiated_unit not_instantiated_unit_items ≡ given ((3, []) ∷ []) }
{}

/// Of one argument list the constrained specialisation is the more specialised one.
pub fn specialised_by_constraints()
    ensures passes { emitted specialised_by_constraints_unit specialised_by_constraints_unit_items ≡ given [] }
{}

/// A full specialisation is no template: its members begin the list, its types are judged.
pub fn full_specialisation()
    ensures fault { emitted full_specialisation_unit full_specialisation_unit_items ≡ hard kind.InvalidType (p 3 29) }
{}

/// An alias of a missing member type is refused where it stands.
pub fn aliases_are_types()
    ensures fault { emitted aliases_are_types_unit aliases_are_types_unit_items ≡ hard kind.InvalidType (p 3 11) }
{}

/// A clause of a member function has a normal form before any instance.
pub fn members_of_templates()
    ensures fault { emitted members_of_templates_unit members_of_templates_unit_items ≡ hard kind.InvalidMapping (p 3 50) }
{}
