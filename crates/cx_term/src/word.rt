use cx_base::NodeId;

/// What a dependent expression is made by: an operator ([over.built]) or another form.
///
/// One word serves both uses of an operator that takes one or two operands.
#[derive(Clone, Copy, PartialEq, Eq, Hash)]
pub enum Word {
    /// `||`.
    LogicalOr,
    /// `&&`.
    LogicalAnd,
    /// `|`.
    BitOr,
    /// `^`.
    BitXor,
    /// `&`.
    BitAnd,
    /// `==`.
    Equal,
    /// `!=`.
    NotEqual,
    /// `<`.
    Less,
    /// `<=`.
    LessEqual,
    /// `>`.
    Greater,
    /// `>=`.
    GreaterEqual,
    /// `<<`.
    ShiftLeft,
    /// `>>`.
    ShiftRight,
    /// `+`, of one or of two operands.
    Plus,
    /// `-`, of one or of two operands.
    Minus,
    /// `*`.
    Times,
    /// `/`.
    Divide,
    /// `%`.
    Remainder,
    /// `!`.
    Not,
    /// `~`.
    Complement,
    /// `=`.
    Assign,
    /// `+=`.
    PlusAssign,
    /// `-=`.
    MinusAssign,
    /// `*=`.
    TimesAssign,
    /// `/=`.
    DivideAssign,
    /// `%=`.
    RemainderAssign,
    /// `^=`.
    XorAssign,
    /// `&=`.
    AndAssign,
    /// `|=`.
    OrAssign,
    /// `<<=`.
    ShiftLeftAssign,
    /// `>>=`.
    ShiftRightAssign,
    /// A call: the callee and its arguments.
    Call,
    /// A member access: the object and the member.
    Dot,
    /// A qualified name: the class and the member.
    Scope,
    /// `T{..}`: the type and the values.
    List,
    /// `static_cast`: the type and the operand.
    Cast,
    /// `__is_same`: the two types.
    Same,
    /// `__out`: the operand.
    Out,
    /// The parentheses round the whole operand of `decltype`.
    Paren,
    /// A concept with its arguments.
    Concept,
    /// The conditional operator: the condition and both branches.
    Cond,
    /// `++` in front.
    PreIncrement,
    /// `--` in front.
    PreDecrement,
    /// `++` after.
    PostIncrement,
    /// `--` after.
    PostDecrement,
    /// The requires-expression ([expr.prim.req]) at this node, with the arguments of the positions in it.
    Requires(NodeId),
}
