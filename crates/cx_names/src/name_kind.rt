ghost use Rattle.std.specs.Prelude.{◌≡◌};

/// What a name is.
#[derive(Clone, Copy, Debug, PartialEq, Eq)]
pub enum NameKind {
    /// A variable, a parameter, a constant or a value template parameter.
    Value,
    /// A type: a struct, or a type template parameter.
    TypeName,
    ClassTemplate,
    Function,
    FunctionTemplate,
    Concept,
}

impl NameKind {
    ghost use Rattle.cx_names.specs.Frames.{is_function, kind_after};

    /// Whether several declarations of this kind may share a name. Takes no memory.
    pub fn is_function(self) -> bool
        ensures { result ≡ is_function self }
    {
        matches!(self, NameKind::Function | NameKind::FunctionTemplate)
    }

    /// What a name of this kind is once it is said again: a function template stays one where a function
    /// follows. Takes no memory.
    pub fn followed_by(self, later: NameKind) -> NameKind
        ensures { result ≡ kind_after self later }
    {
        match (self, later) {
            (NameKind::FunctionTemplate, NameKind::Function) => NameKind::FunctionTemplate,
            _ => later,
        }
    }
}
