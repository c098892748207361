//! Small files worked by hand: what they become. Each function does nothing: its contract is what the
//! files of its kind become.

ghost use Rattle.actx_core.specs.Examples as example;
ghost use Rattle.actx_core.specs.Laws.{TreesFollow};

/// Names, declarations and patterns.
pub fn names_of_files()
    ensures empty { example.Empty }
    ensures declared { example.NameDeclared }
    ensures in_a_block { example.NamesInABlock }
    ensures this { example.ThisOfAFile }
    ensures pattern { example.PatternDeclared }
{}

/// Texts and templates: each text is a literal once.
pub fn texts_of_files()
    ensures once { example.TextsOnce }
    ensures template { example.TemplateOfTwo }
{}

/// Members, chains of suffixes and operators.
pub fn operators_of_files()
    ensures member { example.MemberChanged }
    ensures chain { example.ChainOfSuffixes }
    ensures operators { example.OperatorsOfKinds }
{}

/// Loops and other statements.
pub fn statements_of_files()
    ensures for_with_let { example.ForWithLet }
    ensures for_without { example.ForWithout }
    ensures for_of { example.ForOfTurns }
    ensures try_with_all { example.TryWithAll }
    ensures if_else { example.IfElse }
{}

/// Functions, arrows and objects: bodies take numbers as they begin, and functions take names.
pub fn functions_of_files()
    ensures arrow { example.ArrowNamed }
    ensures function { example.FunctionDeclared }
    ensures generator { example.GeneratorBegins }
    ensures object { example.ObjectOfEntries }
{}

/// Classes, and `super` in an arrow of a constructor.
pub fn classes_of_files()
    ensures implicit { example.ClassWithoutConstructor }
    ensures constructor { example.ClassWithConstructor }
    ensures static_method { example.ClassWithStatic }
    ensures expression { example.ClassExpression }
{}

/// The bundled text comes behind the file, with the literals of both.
pub fn bundle_of_functions()
    ensures { example.BundleBehind }
{}

/// A tree whose names are resolved by what they mean, in the order in which they are met, is made as by
/// the scopes around them.
pub fn trees_follow()
    ensures { TreesFollow }
{}
