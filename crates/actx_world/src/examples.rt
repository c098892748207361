//! Worked runs. The functions do nothing: the contract of each is the example, for any forms that stand
//! in the code, since what the bodies do is written down beside them.

ghost use Rattle.actx_code.specs.declared.form.Form.{Form};
ghost use Rattle.actx_world.specs.FileExamples.{FilesRun};
ghost use Rattle.actx_world.specs.Examples.{EmptyFileRuns, ClassRuns, DerivedClassRuns, FunctionRuns, ArrowRuns, BoundRuns, ThroughRuns, TypedRuns, WalkRuns, WalksRun, CaughtRuns, ThrownRuns, DivisionRuns};

/// An empty file is three moves: the Do, the end of its body, and the end of its bracket.
pub fn an_empty_file_is_three_moves()
    ensures { (form : Form) → EmptyFileRuns form }
{}

/// `class A { constructor(n) { this.n = n; } } new A(1);` is 16 moves; limits of calls, objects,
/// properties and cells below its counts end it earlier, and so does a budget of 15 moves.
pub fn a_class_is_made()
    ensures { (form : Form) → ClassRuns form }
{}

/// `class A {} class B extends A {} new B(1, 2);` is 30 moves.
pub fn a_derived_class_is_made()
    ensures { (form : Form) → DerivedClassRuns form }
{}

/// `class A {} class B extends A { constructor() { (() => super())(); } } new B();` is 25 moves, and the
/// new object has the prototype object of B.
pub fn an_arrow_calls_super()
    ensures { (form : Form) → ArrowRuns form }
{}

/// `(() => 1).bind(1);` is six moves, and four more where the bound function is called.
pub fn a_function_is_bound()
    ensures { (form : Form) → BoundRuns form }
{}

/// `(() => 1).call();` and `(() => 1).apply(null, [null]);` are nine and ten moves.
pub fn call_and_apply_cost_a_call()
    ensures { (form : Form) → ThroughRuns form }
{}

/// `print(typeof (() => 1)); print(typeof null);` prints both words.
pub fn types_are_printed()
    ensures { (form : Form) → TypedRuns form }
{}

/// `(function f(a) { let b; })();` is 12 moves.
pub fn a_function_is_called()
    ensures { (form : Form) → FunctionRuns form }
{}

/// `for (const x of [1, 2]) ;` is 15 moves.
pub fn an_array_is_walked()
    ensures { (form : Form) → WalkRuns form }
{}

/// A Map and a Set of one entry, and a text with a pair of surrogates, are walked: 14, 11 and 14 moves.
pub fn maps_sets_and_texts_are_walked()
    ensures { (form : Form) → WalksRun form }
{}

/// `try { null.n; } catch (e) {}` is six moves, and makes the error.
pub fn an_error_is_caught()
    ensures { (form : Form) → CaughtRuns form }
{}

/// `print('hi'); throw 7;` ends after four moves by what was thrown; the line is printed.
pub fn a_throw_ends_the_run()
    ensures { (form : Form) → ThrownRuns form }
{}

/// Three files, with `super` in arrows and a constructor that gives an object, with functions as
/// constructors, and with several values of `this`, are 67, 60 and 68 moves.
pub fn files_of_several_functions()
    ensures { (form : Form) → FilesRun form }
{}

/// `1 / 2;` leaves the profile after one move.
pub fn a_division_leaves_the_profile()
    ensures { (form : Form) → DivisionRuns form }
{}
