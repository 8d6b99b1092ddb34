/// The number of a node of a unit's tree: each node behind its parts, from 0, without a gap.
#[derive(Clone, Copy, Debug, PartialEq, Eq, Hash)]
pub struct NodeId(pub u32);

/// The number of a declaration, members included, in unit order.
#[derive(Clone, Copy, Debug, PartialEq, Eq, Hash)]
pub struct DeclId(pub u32);

/// The number of a term: a type, a template argument or a dependent expression.
#[derive(Clone, Copy, Debug, PartialEq, Eq, Hash)]
pub struct TermId(pub usize);

/// The number of a list of template arguments.
#[derive(Clone, Copy, Debug, PartialEq, Eq, Hash)]
pub struct ArgsId(pub usize);

/// The number of a formula: a normal form of constraints ([temp.constr.normal]) or a part of one.
#[derive(Clone, Copy, Debug, PartialEq, Eq, Hash)]
pub struct FormulaId(pub usize);
