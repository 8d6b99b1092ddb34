/// What is wrong with a unit.
#[derive(Clone, Copy, Debug, PartialEq, Eq)]
pub enum Kind {
    BadByte,
    BadToken,
    Syntax,
    Unsupported,
    UnknownName,
    Redeclared,
    LateOverload,
    InvalidMapping,
    InvalidType,
    InvalidExpr,
    NoViable,
    Ambiguous,
    Unsatisfied,
    NotConstant,
    NotBool,
    AssertFailed,
    Incomplete,
    NoDefinition,
    NotMoreSpecialised,
    LiteralTooBig,
}

impl Kind {
    ghost use Rattle.std.specs.Prelude.{◌≡◌, ◌≤◌, length};
    ghost use Rattle.cx_base.specs.Names.{kind_name};

    /// The variant's name, as a report writes it.
    #[tactic(auto, unfolding(crate::specs::Names::kind_name))]
    pub fn name(self) -> &'static str
        ensures text { result.now ≡ kind_name self }
        ensures short { length result.now ≤ 18 }
    {
        match self {
            Kind::BadByte => "BadByte",
            Kind::BadToken => "BadToken",
            Kind::Syntax => "Syntax",
            Kind::Unsupported => "Unsupported",
            Kind::UnknownName => "UnknownName",
            Kind::Redeclared => "Redeclared",
            Kind::LateOverload => "LateOverload",
            Kind::InvalidMapping => "InvalidMapping",
            Kind::InvalidType => "InvalidType",
            Kind::InvalidExpr => "InvalidExpr",
            Kind::NoViable => "NoViable",
            Kind::Ambiguous => "Ambiguous",
            Kind::Unsatisfied => "Unsatisfied",
            Kind::NotConstant => "NotConstant",
            Kind::NotBool => "NotBool",
            Kind::AssertFailed => "AssertFailed",
            Kind::Incomplete => "Incomplete",
            Kind::NoDefinition => "NoDefinition",
            Kind::NotMoreSpecialised => "NotMoreSpecialised",
            Kind::LiteralTooBig => "LiteralTooBig",
        }
    }
}
