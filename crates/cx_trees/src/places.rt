use crate::expression::Expr;
use crate::types::TypeSyn;
use cx_base::Place;

impl Expr<'_> {
    ghost use Rattle.std.specs.Prelude.{◌≡◌};
    ghost use Rattle.cx_productions.specs.Trees.{place_of};
    ghost use Rattle.cx_trees.specs.Views.{expr_tree};

    /// The place of its own node.
    pub fn at(&self) -> Place
        ensures { result ≡ place_of (expr_tree self.now) }
    {
        match self {
            Expr::Int { at, .. }
            | Expr::Bool { at, .. }
            | Expr::Name { at, .. }
            | Expr::Template { at, .. }
            | Expr::Qualified { at, .. }
            | Expr::List { at, .. }
            | Expr::Group { at, .. }
            | Expr::StaticCast { at, .. }
            | Expr::IsSame { at, .. }
            | Expr::Out { at, .. }
            | Expr::Requires { at, .. }
            | Expr::Member { at, .. }
            | Expr::Call { at, .. }
            | Expr::Postfix { at, .. }
            | Expr::Unary { at, .. }
            | Expr::Binary { at, .. }
            | Expr::Conditional { at, .. }
            | Expr::Assignment { at, .. } => *at,
        }
    }
}

impl TypeSyn<'_> {
    ghost use Rattle.std.specs.Prelude.{◌≡◌};
    ghost use Rattle.cx_productions.specs.Trees.{type_place};
    ghost use Rattle.cx_trees.specs.Views.{type_tree};

    /// The place of its own node.
    pub fn at(&self) -> Place
        ensures { result ≡ type_place (type_tree self.now) }
    {
        self.at
    }
}
