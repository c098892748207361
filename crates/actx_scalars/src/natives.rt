//! The natives by family.

/// A native that looks at primitives alone and gives one.
#[derive(Clone, Copy, Debug, PartialEq, Eq)]
pub enum Scalar {
    /// A function of one value of any type.
    OfValue(ValueFunction),
    /// A method of texts.
    OfText(TextMethod),
    /// A function of numbers.
    OfNumbers(MathFunction),
}

/// A function of one value of any type. It doesn't look at its receiver.
#[derive(Clone, Copy, Debug, PartialEq, Eq)]
pub enum ValueFunction {
    /// `String(value)` (ECMA-262 §22.1.1.1).
    String,
    /// `Number(value)` (ECMA-262 §21.1.1.1).
    Number,
    /// `Boolean(value)` (ECMA-262 §20.3.1.1).
    Boolean,
    /// `Number.isInteger(number)` (ECMA-262 §21.1.2.3).
    IsInteger,
    /// `Number.isSafeInteger(number)` (ECMA-262 §21.1.2.5).
    IsSafeInteger,
}

/// A method of texts that gives a primitive.
#[derive(Clone, Copy, Debug, PartialEq, Eq)]
pub enum TextMethod {
    /// `slice(start, end)` (ECMA-262 §22.1.3.22).
    Slice,
    /// `indexOf(searchString, position)` (ECMA-262 §22.1.3.9).
    IndexOf,
    /// `includes(searchString, position)` (ECMA-262 §22.1.3.8).
    Includes,
    /// `startsWith(searchString, position)` (ECMA-262 §22.1.3.24).
    StartsWith,
    /// `endsWith(searchString, endPosition)` (ECMA-262 §22.1.3.7).
    EndsWith,
    /// `repeat(count)` (ECMA-262 §22.1.3.18).
    Repeat,
    /// `padStart(maxLength, fillString)` (ECMA-262 §22.1.3.17).
    PadStart,
    /// `padEnd(maxLength, fillString)` (ECMA-262 §22.1.3.16).
    PadEnd,
    /// `charCodeAt(pos)` (ECMA-262 §22.1.3.3).
    CharCodeAt,
}

/// A function of `Math`. It doesn't look at its receiver.
#[derive(Clone, Copy, Debug, PartialEq, Eq)]
pub enum MathFunction {
    /// `Math.abs(x)` (ECMA-262 §21.3.2.1).
    Abs,
    /// `Math.max(...args)` (ECMA-262 §21.3.2.24).
    Max,
    /// `Math.min(...args)` (ECMA-262 §21.3.2.25).
    Min,
    /// `Math.floor(x)` (ECMA-262 §21.3.2.16).
    Floor,
    /// `Math.trunc(x)` (ECMA-262 §21.3.2.35).
    Trunc,
    /// `Math.sign(x)` (ECMA-262 §21.3.2.29).
    Sign,
}
