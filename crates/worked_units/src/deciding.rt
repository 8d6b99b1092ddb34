//! Calls that constraints decide ([temp.constr.order], [over.match.best]).

ghost use Rattle.std.specs.Prelude.{◌≡◌, [], ◌∷◌};
ghost use Rattle.cx_base.specs.declared.kind.Kind.TheVariants as kind;
ghost use Rattle.cx_questions.specs.Answers.{soft, invalid, fault_about};
ghost use Rattle.worked_units.specs.Units.{p, called, typed, nothing_known, won, none_viable_in, undecided, int, bool};
ghost use Rattle.worked_units.specs.Deciding.{abbreviated_unit, abbreviated_unit_call_5_18, abbreviated_unit_call_6_18, appearances_unit, appearances_unit_call_3_18, both_or_either_unit, both_or_either_unit_call_5_18, further_arguments_unit, further_arguments_unit_call_4_18, further_arguments_unit_call_5_18, negation_is_an_atom_unit, negation_is_an_atom_unit_call_4_18, no_template_first_unit, no_template_first_unit_call_4_18, no_template_first_unit_call_5_18, one_concept_unit, one_concept_unit_call_4_18, other_targets_unit, other_targets_unit_call_4_18, the_more_constrained_unit, the_more_constrained_unit_call_5_18, the_more_constrained_unit_call_6_18, the_more_constrained_unit_call_7_18, through_concepts_unit, through_concepts_unit_call_5_18, two_targets_unit, two_targets_unit_call_4_18, unconstrained_unit, unconstrained_unit_call_4_18};

/// The more constrained of two templates is called.
pub fn the_more_constrained()
    ensures int { called the_more_constrained_unit the_more_constrained_unit_call_5_18 nothing_known ≡ won 3 (int ∷ []) (2 ∷ []) }
    ensures bool { called the_more_constrained_unit the_more_constrained_unit_call_6_18 nothing_known ≡ won 2 (bool ∷ []) [] }
    ensures unsigned { called the_more_constrained_unit the_more_constrained_unit_call_7_18 nothing_known ≡ none_viable_in }
    ensures refusal { typed the_more_constrained_unit the_more_constrained_unit_call_7_18 nothing_known ≡ soft kind.NoViable (p 7 18) }
{}

/// Atoms are identical by where they stand, and not by their text.
pub fn appearances()
    ensures unbeaten { called appearances_unit appearances_unit_call_3_18 nothing_known ≡ undecided (0 ∷ 1 ∷ []) }
    ensures refusal { typed appearances_unit appearances_unit_call_3_18 nothing_known ≡ invalid (fault_about kind.Ambiguous (p 3 18) (p 1 55 ∷ p 2 63 ∷ [])) }
{}

/// One concept in both makes the atoms identical.
pub fn one_concept()
    ensures second { called one_concept_unit one_concept_unit_call_4_18 nothing_known ≡ won 2 (int ∷ []) (1 ∷ []) }
{}

/// A conjunction entails a disjunction of the same.
pub fn both_or_either()
    ensures first { called both_or_either_unit both_or_either_unit_call_5_18 nothing_known ≡ won 2 (int ∷ []) (3 ∷ []) }
{}

/// Atoms with different targets are not identical.
pub fn other_targets()
    ensures unbeaten { called other_targets_unit other_targets_unit_call_4_18 nothing_known ≡ undecided (1 ∷ 2 ∷ []) }
{}

/// Two atoms of one expression are more than one of them.
pub fn two_targets()
    ensures first { called two_targets_unit two_targets_unit_call_4_18 nothing_known ≡ won 1 (int ∷ int ∷ []) (2 ∷ []) }
{}

/// A function that is no template is called before any constrained one.
pub fn no_template_first()
    ensures plain { called no_template_first_unit no_template_first_unit_call_4_18 nothing_known ≡ won 2 [] [] }
    ensures template { called no_template_first_unit no_template_first_unit_call_5_18 nothing_known ≡ won 1 (bool ∷ []) [] }
{}

/// What `!` stands before is no atom of its own.
pub fn negation_is_an_atom()
    ensures unbeaten { called negation_is_an_atom_unit negation_is_an_atom_unit_call_4_18 nothing_known ≡ undecided (1 ∷ 2 ∷ []) }
{}

/// A negation in a concept is one atom wherever the concept is named.
pub fn through_concepts()
    ensures second { called through_concepts_unit through_concepts_unit_call_5_18 nothing_known ≡ won 3 (bool ∷ []) (2 ∷ []) }
{}

/// A template without constraints is beaten by a constrained one.
pub fn unconstrained()
    ensures constrained { called unconstrained_unit unconstrained_unit_call_4_18 nothing_known ≡ won 2 (int ∷ []) (1 ∷ []) }
{}

/// The constraint of an abbreviated parameter is that of an invented template parameter ([dcl.fct]).
pub fn abbreviated()
    ensures int { called abbreviated_unit abbreviated_unit_call_5_18 nothing_known ≡ won 3 (int ∷ []) (2 ∷ []) }
    ensures bool { called abbreviated_unit abbreviated_unit_call_6_18 nothing_known ≡ won 2 (bool ∷ []) [] }
{}

/// A type-constraint with arguments puts the type in front of them ([temp.param]).
pub fn further_arguments()
    ensures int { called further_arguments_unit further_arguments_unit_call_4_18 nothing_known ≡ won 1 (int ∷ []) (2 ∷ []) }
    ensures bool { called further_arguments_unit further_arguments_unit_call_5_18 nothing_known ≡ won 2 (bool ∷ []) [] }
{}
