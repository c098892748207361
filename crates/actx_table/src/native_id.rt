//! The built-in functions that call no other function.

/// A built-in function that reads and writes the store alone, and calls no other function. Each is named for its holder
/// and its name there: those of arrays and of texts stand on the prototypes of `Array` and `String`.
#[derive(Clone, Copy, Debug, PartialEq, Eq)]
pub enum NativeId {
    /// `console.log`.
    ConsoleLog,
    /// `process.exit`.
    ProcessExit,
    /// `require`.
    Require,
    /// `Object` (ECMA-262 §20.1).
    Object,
    /// `Object.keys` (ECMA-262 §20.1).
    ObjectKeys,
    /// `Object.values` (ECMA-262 §20.1).
    ObjectValues,
    /// `Object.entries` (ECMA-262 §20.1).
    ObjectEntries,
    /// `Object.assign` (ECMA-262 §20.1).
    ObjectAssign,
    /// `Object.freeze` (ECMA-262 §20.1).
    ObjectFreeze,
    /// `Object.create` (ECMA-262 §20.1).
    ObjectCreate,
    /// `Object.getPrototypeOf` (ECMA-262 §20.1).
    ObjectGetPrototypeOf,
    /// `Object.hasOwn` (ECMA-262 §20.1).
    ObjectHasOwn,
    /// `Array` (ECMA-262 §23.1).
    Array,
    /// `Array.isArray` (ECMA-262 §23.1).
    ArrayIsArray,
    /// `Array.of` (ECMA-262 §23.1).
    ArrayOf,
    /// `Array.prototype.push` (ECMA-262 §23.1).
    ArrayPush,
    /// `Array.prototype.pop` (ECMA-262 §23.1).
    ArrayPop,
    /// `Array.prototype.shift` (ECMA-262 §23.1).
    ArrayShift,
    /// `Array.prototype.unshift` (ECMA-262 §23.1).
    ArrayUnshift,
    /// `Array.prototype.slice` (ECMA-262 §23.1).
    ArraySlice,
    /// `Array.prototype.concat` (ECMA-262 §23.1).
    ArrayConcat,
    /// `Array.prototype.indexOf` (ECMA-262 §23.1).
    ArrayIndexOf,
    /// `Array.prototype.includes` (ECMA-262 §23.1).
    ArrayIncludes,
    /// `Array.prototype.join` (ECMA-262 §23.1).
    ArrayJoin,
    /// `Array.prototype.reverse` (ECMA-262 §23.1).
    ArrayReverse,
    /// `String` (ECMA-262 §22.1).
    String,
    /// `String.prototype.slice` (ECMA-262 §22.1).
    StringSlice,
    /// `String.prototype.indexOf` (ECMA-262 §22.1).
    StringIndexOf,
    /// `String.prototype.includes` (ECMA-262 §22.1).
    StringIncludes,
    /// `String.prototype.startsWith` (ECMA-262 §22.1).
    StringStartsWith,
    /// `String.prototype.endsWith` (ECMA-262 §22.1).
    StringEndsWith,
    /// `String.prototype.split` (ECMA-262 §22.1).
    StringSplit,
    /// `String.prototype.repeat` (ECMA-262 §22.1).
    StringRepeat,
    /// `String.prototype.padStart` (ECMA-262 §22.1).
    StringPadStart,
    /// `String.prototype.padEnd` (ECMA-262 §22.1).
    StringPadEnd,
    /// `String.prototype.charCodeAt` (ECMA-262 §22.1).
    StringCharCodeAt,
    /// `Number` (ECMA-262 §21.1).
    Number,
    /// `Number.isInteger` (ECMA-262 §21.1).
    NumberIsInteger,
    /// `Number.isSafeInteger` (ECMA-262 §21.1).
    NumberIsSafeInteger,
    /// `Boolean` (ECMA-262 §20.3).
    Boolean,
    /// `Math.abs` (ECMA-262 §21.3).
    MathAbs,
    /// `Math.max` (ECMA-262 §21.3).
    MathMax,
    /// `Math.min` (ECMA-262 §21.3).
    MathMin,
    /// `Math.floor` (ECMA-262 §21.3).
    MathFloor,
    /// `Math.trunc` (ECMA-262 §21.3).
    MathTrunc,
    /// `Math.sign` (ECMA-262 §21.3).
    MathSign,
    /// `Error` (ECMA-262 §20.5).
    Error,
    /// `TypeError` (ECMA-262 §20.5).
    TypeError,
    /// `RangeError` (ECMA-262 §20.5).
    RangeError,
    /// `ReferenceError` (ECMA-262 §20.5).
    ReferenceError,
    /// `AggregateError` (ECMA-262 §20.5.7).
    AggregateError,
    /// `Map` (ECMA-262 §24.1).
    Map,
    /// `Map.prototype.get` (ECMA-262 §24.1).
    MapGet,
    /// `Map.prototype.set` (ECMA-262 §24.1).
    MapSet,
    /// `Map.prototype.has` (ECMA-262 §24.1).
    MapHas,
    /// `Map.prototype.delete` (ECMA-262 §24.1).
    MapDelete,
    /// `Map.prototype.clear` (ECMA-262 §24.1).
    MapClear,
    /// `Set` (ECMA-262 §24.2).
    Set,
    /// `Set.prototype.add` (ECMA-262 §24.2).
    SetAdd,
    /// `Set.prototype.has` (ECMA-262 §24.2).
    SetHas,
    /// `Set.prototype.delete` (ECMA-262 §24.2).
    SetDelete,
    /// `Set.prototype.clear` (ECMA-262 §24.2).
    SetClear,
    /// `EventEmitter`.
    EventEmitter,
}
