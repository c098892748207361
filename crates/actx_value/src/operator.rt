//! Operators of expressions.

ghost use Rattle.std.specs.Prelude.{◌≡◌};
ghost use Rattle.actx_value.specs.Operators.{op_of_unary, op_of_binary};

/// An operator before one operand (ECMA-262 §13.5). `!`, `void` and `delete` are none of these: they
/// ask otherwise or nothing.
#[derive(Clone, Copy, Debug, PartialEq, Eq)]
pub enum UnaryOp {
    /// Unary `-`, §13.5.5.
    Negate,
    /// Unary `+`, §13.5.4.
    ToNumber,
    /// `typeof`, §13.5.3.
    TypeOf,
}

/// An operator between two operands (ECMA-262 §13.7, §13.8, §13.10, §13.11). `&&`, `||` and `??` are
/// none of these: they ask nothing.
#[derive(Clone, Copy, Debug, PartialEq, Eq)]
pub enum BinaryOp {
    /// `+`
    Add,
    /// `-`
    Subtract,
    /// `*`
    Multiply,
    /// `/`
    Divide,
    /// `%`
    Remainder,
    /// `<`
    Less,
    /// `>`
    Greater,
    /// `<=`
    LessOrEqual,
    /// `>=`
    GreaterOrEqual,
    /// `==`
    Equal,
    /// `!=`
    NotEqual,
    /// `===`
    StrictlyEqual,
    /// `!==`
    StrictlyNotEqual,
    /// `in`, §13.10.1
    In,
    /// `instanceof`, §13.10.2
    InstanceOf,
}

/// An operator whose answer depends on its operands and the texts alone: every one but `typeof`, `in`
/// and `instanceof`, which look at objects.
#[derive(Clone, Copy, Debug, PartialEq, Eq)]
pub enum Op {
    /// Unary `-`, with the second operand unread.
    Negate,
    /// Unary `+`, with the second operand unread.
    ToNumber,
    /// `+`
    Add,
    /// `-`
    Subtract,
    /// `*`
    Multiply,
    /// `/`
    Divide,
    /// `%`
    Remainder,
    /// `<`
    Less,
    /// `>`
    Greater,
    /// `<=`
    LessOrEqual,
    /// `>=`
    GreaterOrEqual,
    /// `==`
    Equal,
    /// `!=`
    NotEqual,
    /// `===`
    StrictlyEqual,
    /// `!==`
    StrictlyNotEqual,
}

impl UnaryOp {
    /// The operator that depends on its operand and the texts alone, and `None` exactly for `typeof`.
    pub fn op(self) -> Option<Op>
        ensures { result ≡ op_of_unary self }
    {
        match self {
            UnaryOp::Negate => Some(Op::Negate),
            UnaryOp::ToNumber => Some(Op::ToNumber),
            UnaryOp::TypeOf => None,
        }
    }
}

impl BinaryOp {
    /// The operator that depends on its operands and the texts alone, and `None` exactly for `in` and
    /// `instanceof`.
    pub fn op(self) -> Option<Op>
        ensures { result ≡ op_of_binary self }
    {
        match self {
            BinaryOp::Add => Some(Op::Add),
            BinaryOp::Subtract => Some(Op::Subtract),
            BinaryOp::Multiply => Some(Op::Multiply),
            BinaryOp::Divide => Some(Op::Divide),
            BinaryOp::Remainder => Some(Op::Remainder),
            BinaryOp::Less => Some(Op::Less),
            BinaryOp::Greater => Some(Op::Greater),
            BinaryOp::LessOrEqual => Some(Op::LessOrEqual),
            BinaryOp::GreaterOrEqual => Some(Op::GreaterOrEqual),
            BinaryOp::Equal => Some(Op::Equal),
            BinaryOp::NotEqual => Some(Op::NotEqual),
            BinaryOp::StrictlyEqual => Some(Op::StrictlyEqual),
            BinaryOp::StrictlyNotEqual => Some(Op::StrictlyNotEqual),
            BinaryOp::In | BinaryOp::InstanceOf => None,
        }
    }
}
