//! Laws of the definitions: each is the contract of a function that does nothing.

ghost use Rattle.std.specs.Prelude.{◌≡◌, ◌≤◌, ◌<◌, ℕ, List};
ghost use Rattle.cx_machine.specs.Values.{Val};
ghost use Rattle.cx_plain_language.specs.StepsLeft.{AddsNoSteps};
ghost use Rattle.cx_machine.specs.Machine.{State, Run, Env, Answer, Done};
ghost use Rattle.cx_plain_language.specs.Tree.{UnitTree};
ghost use Rattle.cx_plain_language.specs.Meaning.{Flow, turns, run_call};

/// The number of calls that may be open ends no run, nor does the number of turns, since each call and each turn has
/// taken a step; and no call adds steps.
pub fn bounds()
    ensures calls { (u : UnitTree) (a b n : ℕ) (arguments : List Answer) (s : State) → a ≤ b → s.left ≤ a → run_call a u n arguments s ≡ run_call b u n arguments s }
    ensures turns { (a b : ℕ) (env : Env) (test : Run Val) (body : Run Flow) (next : Run (Unit {0})) (s : State) →
        AddsNoSteps test → AddsNoSteps body → AddsNoSteps next → a ≤ b → s.left < a → turns a env test body next s ≡ turns b env test body next s }
    ensures steps { (u : UnitTree) (a n : ℕ) (arguments : List Answer) (s t : State) (answer : Answer) → run_call a u n arguments s ≡ Done answer t → t.left ≤ s.left }
{}
