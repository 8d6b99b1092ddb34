//! Requires-expressions that are read as they are meant.

ghost use Rattle.std.specs.Prelude.{◌≡◌, true, false, [], ◌∷◌, Ok, codes};
ghost use Rattle.cx_grammar_laws.specs.Examples.{sign, reading, x, requires_tree, simple, kinds_text, kinds_tree, locals_text, locals_tree, void_text, hiding_text, hiding_tree, nested_text, nested_tree, empty_text, braced_text, bare_text, hidden_text, forgotten_text, short_text, syntax_at, unsupported_at, depth_at};

/// Examples of requires-expressions ([expr.prim.req]): what the definition reads of each is the tree that is meant, with
/// its nodes in order, or the refusal. Its contract is all that there is to it.
pub fn requires_expressions_as_meant()
    // Each kind of requirement; parameters with a name and without; no parameters; a name that hides another; one
    // within another, as an operand.
    ensures kinds { reading true 0 kinds_text ≡ Ok (kinds_tree, sign (codes ";") 24 ∷ []) }
    ensures locals { reading true 0 locals_text ≡ Ok (locals_tree, sign (codes ";") 13 ∷ []) }
    ensures void { reading true 0 void_text ≡ Ok ((requires_tree 2 1 (simple 1 6 (x 0 6)), 3), sign (codes ";") 9 ∷ []) }
    ensures hiding { reading true 0 hiding_text ≡ Ok (hiding_tree, sign (codes ";") 10 ∷ []) }
    ensures nested { reading true 0 nested_text ≡ Ok (nested_tree, sign (codes ";") 13 ∷ []) }

    // Where the fault stands.
    ensures empty { reading true 0 empty_text ≡ syntax_at 3 }
    ensures braced { reading true 0 braced_text ≡ syntax_at 4 }
    ensures bare { reading true 0 bare_text ≡ syntax_at 5 }
    ensures hidden { reading true 0 hidden_text ≡ syntax_at 6 }
    ensures forgotten { reading true 0 forgotten_text ≡ syntax_at 12 }

    // A token of a requirement stands within the braces and the requirement.
    ensures fits { reading true 254 short_text ≡ Ok ((requires_tree 2 1 (simple 1 3 (x 0 3)), 3), sign (codes ";") 6 ∷ []) }
    ensures too_deep { reading true 255 short_text ≡ depth_at 3 }
    ensures brace_too_deep { reading true 256 short_text ≡ depth_at 2 }

    // Where requires-expressions are not read, their word is unsupported.
    ensures unread { reading false 0 short_text ≡ unsupported_at 1 }
    ensures unread_operand { reading false 0 nested_text ≡ unsupported_at 3 }
{}
