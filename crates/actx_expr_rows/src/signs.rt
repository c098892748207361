//! Operators as they are written.

use actx_tree::{AssignOp, BinaryOp, Flow, StepOp, UnaryOp};

/// An operator between two operands.
pub fn binary_sign(op: BinaryOp) -> &'static str {
    match op {
        BinaryOp::Or => "||",
        BinaryOp::And => "&&",
        BinaryOp::Coalesce => "??",
        BinaryOp::Equal => "==",
        BinaryOp::NotEqual => "!=",
        BinaryOp::StrictEqual => "===",
        BinaryOp::StrictNotEqual => "!==",
        BinaryOp::Less => "<",
        BinaryOp::Greater => ">",
        BinaryOp::LessOrEqual => "<=",
        BinaryOp::GreaterOrEqual => ">=",
        BinaryOp::InstanceOf => "instanceof",
        BinaryOp::In => "in",
        BinaryOp::Add => "+",
        BinaryOp::Subtract => "-",
        BinaryOp::Multiply => "*",
        BinaryOp::Divide => "/",
        BinaryOp::Remainder => "%",
    }
}

/// An operator before its operand.
pub fn unary_sign(op: UnaryOp) -> &'static str {
    match op {
        UnaryOp::Not => "!",
        UnaryOp::Minus => "-",
        UnaryOp::Plus => "+",
        UnaryOp::TypeOf => "typeof",
        UnaryOp::Void => "void",
        UnaryOp::Delete => "delete",
        UnaryOp::Await => "await",
    }
}

/// `++` or `--`.
pub fn step_sign(op: StepOp) -> &'static str {
    match op {
        StepOp::Increment => "++",
        StepOp::Decrement => "--",
    }
}

/// An operator of assignment.
pub fn assign_sign(op: AssignOp) -> &'static str {
    match op {
        AssignOp::Plain => "=",
        AssignOp::Add => "+=",
        AssignOp::Subtract => "-=",
        AssignOp::Multiply => "*=",
        AssignOp::Divide => "/=",
        AssignOp::Remainder => "%=",
        AssignOp::And => "&&=",
        AssignOp::Or => "||=",
        AssignOp::Coalesce => "??=",
    }
}

/// What stands before a function.
pub fn flow_sign(flow: Flow) -> &'static str {
    match flow {
        Flow::Plain => "",
        Flow::Async => "async ",
        Flow::Generator => "*",
    }
}
