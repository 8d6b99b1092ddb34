/// Unary expressions.
pub const UNARY_LEVEL: u32 = 0;

/// The loosest binary operator.
pub const LOGICAL_OR_LEVEL: u32 = 10;

/// Any expression: conditionals and assignments.
pub const EXPRESSION_LEVEL: u32 = 11;
