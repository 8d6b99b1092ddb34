/// A counted limit that a unit may pass.
#[derive(Clone, Copy, Debug, PartialEq, Eq)]
pub enum Limit {
    /// The bytes of the input.
    Source,
    /// The constructs that are open at a token.
    Depth,
    /// The questions that are open inside one another.
    Height,
    /// The functions that are emitted.
    Instances,
    /// The steps of one constant evaluation.
    Steps,
    /// The open calls of one constant evaluation.
    Calls,
    /// The clauses that are compared where constraints decide.
    Clauses,
    /// The atoms of a normal form.
    Atoms,
    /// The nodes and the depth of a type or argument.
    TermSize,
    /// The scalar values of a struct.
    Object,
    /// The bytes of the output.
    Output,
}

impl Limit {
    ghost use Rattle.std.specs.Prelude.{◌≡◌, ◌≤◌, length};
    ghost use Rattle.cx_base.specs.Names.{limit_name};

    /// The variant's name, as a report writes it.
    #[tactic(auto, unfolding(crate::specs::Names::limit_name))]
    pub fn name(self) -> &'static str
        ensures text { result.now ≡ limit_name self }
        ensures short { length result.now ≤ 9 }
    {
        match self {
            Limit::Source => "Source",
            Limit::Depth => "Depth",
            Limit::Height => "Height",
            Limit::Instances => "Instances",
            Limit::Steps => "Steps",
            Limit::Calls => "Calls",
            Limit::Clauses => "Clauses",
            Limit::Atoms => "Atoms",
            Limit::TermSize => "TermSize",
            Limit::Object => "Object",
            Limit::Output => "Output",
        }
    }
}
