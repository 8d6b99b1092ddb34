//! What the stages of forms and of names find, said without their order of work.

ghost use Rattle.std.specs.Prelude.{◌≡◌, ◌⊎◌, ℕ, List, length, Some, None, Ok, Err, slice_get};
ghost use Rattle.cx_base.specs.Refusal.{Refusal, Refused};
ghost use Rattle.cx_base.specs.declared.fault.Fault.{Fault};
ghost use Rattle.cx_base.specs.declared.kind.Kind.TheVariants.{Redeclared, UnknownName};
ghost use Rattle.cx_base.specs.declared.place.Place.{Place};
ghost use Rattle.cx_tree.specs.Declarations.{DeclTree, UnitTree};
ghost use Rattle.cx_engine.specs.Definitions.{Definition, definitions, Defines};
ghost use Rattle.cx_engine.specs.Forms.{unbuilt_decl, IsFirstUnbuilt, unsupported, forms_unit};
ghost use Rattle.cx_engine.specs.Names.{names_unit};
ghost use Rattle.cx_engine.specs.WellNamed.{IsWellNamed, Redeclares, CallsUnknown};

/// The laws of the forms of a unit. It does nothing.
pub fn forms_of_a_unit()
    // A unit passes exactly where each of its declarations has built forms alone.
    ensures fine { (u : UnitTree) (fs : List Definition) → forms_unit u ≡ Ok fs → (k : ℕ) (d : DeclTree) → slice_get u k ≡ Some d → unbuilt_decl d ≡ None }
    ensures only { (u : UnitTree) → ((k : ℕ) (d : DeclTree) → slice_get u k ≡ Some d → unbuilt_decl d ≡ None) → forms_unit u ≡ Ok (definitions u) }

    // Then each declaration is that of one definition, in order, so that none is dropped.
    ensures whole { (u : UnitTree) (fs : List Definition) → forms_unit u ≡ Ok fs
        → (length fs ≡ length u) × ((k : ℕ) (d : DeclTree) (f : Definition) → slice_get u k ≡ Some d → slice_get fs k ≡ Some f → Defines d f) }

    // Else it has one fault, at the first node that is not built.
    ensures first { (u : UnitTree) (r : Refusal) → forms_unit u ≡ Err r
        → (at : Place) × (r ≡ Refused (unsupported at)) × IsFirstUnbuilt u at }
{}

/// The laws of the names of a unit. It does nothing.
pub fn names_of_a_unit()
    // A unit passes exactly where it is well named.
    ensures fine { (u : List Definition) → names_unit u ≡ Ok tt → IsWellNamed u }
    ensures only { (u : List Definition) → IsWellNamed u → names_unit u ≡ Ok tt }

    // Else it has one of two faults, that of the first function that has one.
    ensures kinds { (u : List Definition) (r : Refusal) → names_unit u ≡ Err r
        → (f : Fault) × (r ≡ Refused f) × ((f.kind ≡ Redeclared) ⊎ (f.kind ≡ UnknownName)) }
    ensures redeclared { (u : List Definition) (f : Fault) → names_unit u ≡ Err (Refused f) → f.kind ≡ Redeclared
        → (i : ℕ) × (j : ℕ) × Redeclares u f i j }
    ensures unknown { (u : List Definition) (f : Fault) → names_unit u ≡ Err (Refused f) → f.kind ≡ UnknownName
        → (j : ℕ) × CallsUnknown u f j }
{}
