//! Files, and the early error of each: its kind and the number of its node, as they were written down by
//! hand from `docs/SCOPES.md`.

/// The file stands before the arrow. A file without an early error has `none`.
pub const ROWS: &str = "
let a; let a; ⇒ Redeclared 1
let a = 1; let a = 2; ⇒ Redeclared 2
let a, a; ⇒ Redeclared 0
function a() {} let a; ⇒ Redeclared 1
let a; { let a; } ⇒ none
(function (a, a) {}); ⇒ Redeclared 2
(a, a) => a; ⇒ Redeclared 1
(a => { let a; }); ⇒ Redeclared 3
(a => { { let a; } }); ⇒ none
for (let i = 0, i = 1; i; ) ; ⇒ Redeclared 1
try {} catch (e) { let e; } ⇒ none
nope; ⇒ NotDeclared 1
console.log(nope); ⇒ NotDeclared 3
let a; typeof nope; ⇒ NotDeclared 3
{ let a; } a; ⇒ NotDeclared 3
for (const x of x) ; ⇒ NotDeclared 1
(function f() { f; }); ⇒ none
(function f() {}); f; ⇒ NotDeclared 4
(class A { m() { A; } }); ⇒ none
let a = a; ⇒ none
f(); function f() {} ⇒ none
const a = 1; a = 2; ⇒ ConstAssigned 4
const a = 1; a += 2; ⇒ ConstAssigned 4
const a = 1; a++; ⇒ ConstAssigned 4
const a = 1; { let a; a = 2; } ⇒ none
const [a] = [1]; a = 2; ⇒ ConstAssigned 6
const { a } = {}; a = 1; ⇒ ConstAssigned 5
const { b: [a] } = {}; a = 1; ⇒ ConstAssigned 6
for (const x of []) x = 1; ⇒ ConstAssigned 4
for (let x of []) x = 1; ⇒ none
function f() {} f = 1; ⇒ ConstAssigned 3
class C {} C = 1; ⇒ ConstAssigned 3
console = 1; ⇒ ConstAssigned 2
(a => { a = 1; }); ⇒ none
try {} catch (e) { e = 1; } ⇒ none
break; ⇒ BadBreak 0
continue; ⇒ BadBreak 0
while (true) { break; } ⇒ none
while (true) { function f() { break; } } ⇒ BadBreak 4
if (true) break; ⇒ BadBreak 2
return; ⇒ BadReturn 0
function f() { return; } ⇒ none
await 1; ⇒ BadAwait 1
async function f() { await 1; } ⇒ none
async function f() { (() => await 1); } ⇒ BadAwait 4
async function f(a = await 1) {} ⇒ BadAwait 1
yield 1; ⇒ BadYield 1
function* g() { yield 1; } ⇒ none
function* g(a = yield) {} ⇒ BadYield 1
super.x; ⇒ BadSuper 1
({ m() { return super.x; } }); ⇒ none
({ m() { return () => super.x; } }); ⇒ none
({ m() { return function () { super.x; }; } }); ⇒ BadSuper 7
class A { constructor() { super(); } } ⇒ BadSuper 3
class A {} class B extends A { constructor() { super(); } } ⇒ none
class A {} class B extends A { m() { super(); } } ⇒ BadSuper 5
let a; delete a; ⇒ BadDelete 2
let a = {}; delete a.b; ⇒ none
let a = {}; delete (a.b); ⇒ BadDelete 3
({ __proto__: 1 }); ⇒ BadKey 2
({ '__proto__': 1 }); ⇒ BadKey 2
({ ['__proto__']: 1 }); ⇒ none
({ __proto__() {} }); ⇒ none
class C { constructor() {} constructor() {} } ⇒ TwoConstructors 2
class C { constructor() {} static constructor() {} } ⇒ none
class C { async constructor() {} } ⇒ TwoConstructors 1
class C { *'constructor'() {} } ⇒ TwoConstructors 1
break; return; ⇒ BadBreak 0
nope; break; ⇒ NotDeclared 1
function f() { break; } return; ⇒ BadBreak 1
let a; { nope; } let a; ⇒ NotDeclared 3
";
