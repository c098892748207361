//! The tables: on each line a source, in which `@` stands for a line end, and behind `⇒` the shape of
//! its tree and, if tokens are left behind it, how many.

/// Of `expression`.
pub const EXPRESSIONS: &str = r#"
a ⇒ a
7 ⇒ 7
'x y' ⇒ 'x y'
true ⇒ true
false ⇒ false
null ⇒ null
this ⇒ this
`` ⇒ (template '')
`${a}` ⇒ (template '' a '')
`x${a, b}y${`z`}` ⇒ (template 'x' (, a b) 'y' (template 'z') '')
`x${a ⇒ NoTree
`${}` ⇒ NoTree
(a) ⇒ (in a)
((a, b)) ⇒ (in (in (, a b)))
() ⇒ NoTree
(a ⇒ NoTree
[] ⇒ (array)
[a] ⇒ (array a)
[a, ...b,] ⇒ (array a ...b)
[a,, b] ⇒ NoTree
[,] ⇒ NoTree
({}) ⇒ (in (object))
({a}) ⇒ (in (object a))
({a, b: c, 'd': e, 7: f, if: g, [h]: i,}) ⇒ (in (object a b:c 'd':e 7:f if:g [h]:i))
({...a, ...b}) ⇒ (in (object ...a ...b))
({a() {}, async b() {}, *c() {}, async() {}, [d](e) {}}) ⇒ (in (object (method a () <1>) (async method b () <1>) (*method c () <1>) (method async () <1>) (method [d] (e) <1>)))
({if}) ⇒ NoTree
({async a: b}) ⇒ NoTree
super(a, ...b) ⇒ (super a ...b)
super.x ⇒ super.x
super ⇒ NoTree
super[a] ⇒ NoTree
super.x.y ⇒ (left super.x .y)
function() {} ⇒ (function () <1>)
function f(a, b) { a; } ⇒ (function f (a b) <3>)
function* f() { yield; } ⇒ (*function f () <3>)
async function f() { ( } ⇒ (async function f () <2>)
async function* f() {} ⇒ NoTree
function f() { { } ⇒ NoTree
async@function f() {} ⇒ async .. 6
class {} ⇒ (class)
class A {} ⇒ (class A)
class A extends b.c { d() {} static e() {}; static() {} async f() {} *'g'() {} } ⇒ (class A from (left b .c) (method d () <1>) static (method e () <1>) (method static () <1>) (async method f () <1>) (*method 'g' () <1>))
class { 1() {} } ⇒ NoTree
class { [a]() {} } ⇒ NoTree
a.b ⇒ (left a .b)
a.if ⇒ (left a .if)
a[b] ⇒ (left a [b])
a[b, c] ⇒ (left a [(, b c)])
a() ⇒ (left a (call))
a(b, ...c)(d,) ⇒ (left a (call b ...c) (call d))
a?.b?.[c]?.(d).e ⇒ (left a ?.b ?[c] (?call d) .e)
a.b[c](d).e ⇒ (left a .b [c] (call d) .e)
a@.b@(c)@[d] ⇒ (left a .b (call c) [d])
a. ⇒ NoTree
a.7 ⇒ NoTree
a[] ⇒ NoTree
a(,) ⇒ NoTree
a`x` ⇒ NoTree
new a ⇒ (new a)
new a() ⇒ (new a with)
new a(b)(c) ⇒ (left (new a with b) (call c))
new a.b(c) ⇒ (new a .b with c)
new a.b[c](d).e ⇒ (left (new a .b [c] with d) .e)
new new a(b)(c) ⇒ (new (new a with b) with c)
new a?.b ⇒ NoTree
new a()?.b ⇒ (left (new a with) ?.b)
new (a())() ⇒ (new (in (left a (call))) with)
new super() ⇒ (new (super))
new -a ⇒ NoTree
a++ ⇒ (_++ a)
a.b-- ⇒ (_-- (left a .b))
++a ⇒ (++_ a)
--a[b] ⇒ (--_ (left a [b]))
a++@b ⇒ (_++ a) .. 1
a@++b ⇒ a .. 2
a()++ ⇒ NoTree
++a() ⇒ NoTree
a?.b++ ⇒ NoTree
++a++ ⇒ NoTree
(a)++ ⇒ NoTree
7++ ⇒ NoTree
!a ⇒ (! a)
-x * y ⇒ (* (- x) y)
- -a ⇒ (- (- a))
+a ⇒ (+ a)
typeof void delete a.b ⇒ (typeof (void (delete (left a .b))))
await a() ⇒ (await (left a (call)))
!a++ ⇒ (! (_++ a))
-++a ⇒ (- (++_ a))
a * b / c % d ⇒ (% (/ (* a b) c) d)
a + b * c ⇒ (+ a (* b c))
a * b + c ⇒ (+ (* a b) c)
a - b - c ⇒ (- (- a b) c)
a - b + c - d ⇒ (- (+ (- a b) c) d)
a + b < c - d ⇒ (< (+ a b) (- c d))
a < b > c <= d >= e ⇒ (>= (<= (> (< a b) c) d) e)
a instanceof b in c ⇒ (in (instanceof a b) c)
a == b != c === d !== e ⇒ (!== (=== (!= (== a b) c) d) e)
a < b == c < d ⇒ (== (< a b) (< c d))
a && b == c && d ⇒ (&& (&& a (== b c)) d)
a || b && c || d ⇒ (|| (|| a (&& b c)) d)
a ?? b ?? c ⇒ (?? (?? a b) c)
a ?? b == c ⇒ (?? a (== b c))
a ?? b || c ⇒ NoTree
a || b ?? c ⇒ NoTree
a && b ?? c ⇒ NoTree
a ?? b && c ⇒ NoTree
(a || b) ?? c ⇒ (?? (in (|| a b)) c)
a ?? (b && c) ⇒ (?? a (in (&& b c)))
a ** b ⇒ NoTree
a + ⇒ NoTree
* a ⇒ NoTree
a b ⇒ NoTree
a ? b : c ⇒ (? a b c)
a ? b : c ? d : e ⇒ (? a b (? c d e))
a ? b ? c : d : e ⇒ (? a (? b c d) e)
a || b ? c = d : e = f ⇒ (? (|| a b) (= c d) (= e f))
a ? b, c : d ⇒ NoTree
a ? b ⇒ NoTree
a = b = c ⇒ (= a (= b c))
a.b = c ⇒ (= (left a .b) c)
a[b] += c ⇒ (+= (left a [b]) c)
a -= b ⇒ (-= a b)
a *= b /= c %= d ⇒ (*= a (/= b (%= c d)))
a &&= b ⇒ (&&= a b)
a ||= b ??= c ⇒ (||= a (??= b c))
a = b ? c : d ⇒ (= a (? b c d))
a ? b : c = d ⇒ (? a b (= c d))
a@= b ⇒ (= a b)
(a) = 1 ⇒ NoTree
a() = 1 ⇒ NoTree
a + b = c ⇒ NoTree
a?.b = c ⇒ NoTree
a.b() = c ⇒ NoTree
a().b = c ⇒ (= (left a (call) .b) c)
super.x.y = 1 ⇒ NoTree
[a] = b ⇒ NoTree
1 = a ⇒ NoTree
yield ⇒ (yield)
yield a ⇒ (yield a)
yield@a ⇒ (yield) .. 1
yield yield a ⇒ (yield (yield a))
yield a, b ⇒ (, (yield a) b)
a = yield b ⇒ (= a (yield b))
a + yield ⇒ NoTree
yield + a ⇒ (yield (+ a))
yield * a ⇒ NoTree
x => y ⇒ (=> (x) y)
(a) => b ⇒ (=> (a) b)
() => a ⇒ (=> () a)
async x => y ⇒ (async=> (x) y)
async (a, b) => a ⇒ (async=> (a b) a)
async () => {} ⇒ (async=> () <1>)
async => a ⇒ (=> (async) a)
async(a) ⇒ (left async (call a))
async@x => y ⇒ async .. 3
(a, {b, c: [d = 1, ...e]}, ...f) => { } ⇒ (=> (a { b c:[d=1 ...e]} ...f) <1>)
({a = 1, ...b}, [c, [d]] = e,) => a ⇒ (=> ({ a=1 ...b} [c [d]]=e) a)
(...[a]) => a ⇒ (=> ( ...[a]) a)
x => y => z ⇒ (=> (x) (=> (y) z))
x => y, z ⇒ (, (=> (x) y) z)
x => y + z ⇒ (=> (x) (+ y z))
x => ({}) ⇒ (=> (x) (in (object)))
x => { return x } ⇒ (=> (x) <3>)
x => {}.y ⇒ NoTree
a = x => y ⇒ (= a (=> (x) y))
a ? x => y : z ⇒ (? a (=> (x) y) z)
x@=> y ⇒ NoTree
(a)@=> b ⇒ NoTree
(a, a.b) => c ⇒ NoTree
(a + b) => c ⇒ NoTree
a + x => y ⇒ NoTree
({}) => a ⇒ NoTree
a, b, c ⇒ (, a b c)
a, b = c ⇒ (, a (= b c))
a, ⇒ NoTree
a; b ⇒ a .. 2
a) ⇒ a .. 1
a: b ⇒ a .. 2
a@b ⇒ a .. 1
a@+ b ⇒ (+ a b)
a@`x` ⇒ NoTree
 ⇒ NoTree
"#;

/// Of `assign`.
pub const ASSIGNS: &str = r#"
a, b ⇒ a .. 2
a = b, c ⇒ (= a b) .. 2
x => y, z ⇒ (=> (x) y) .. 2
a b ⇒ NoTree
, a ⇒ NoTree
"#;

/// Of `left`.
pub const LEFTS: &str = r#"
a { ⇒ a .. 1
a.b(c) {} ⇒ (left a .b (call c)) .. 2
new a {} ⇒ (new a) .. 2
class {} {} ⇒ (class) .. 2
a ⇒ NoTree
a + b { ⇒ NoTree
-a { ⇒ NoTree
"#;

/// Of `target`.
pub const TARGETS: &str = r#"
a ⇒ a
a = b ⇒ a .. 2
{a} ⇒ { a}
{a = b, c: d, 'e': f = g, 7: {h}, if: [i], ...j} ⇒ { a=b c:d 'e':f=g 7:{ h} if:[i] ...j}
{...a} ⇒ { ...a}
{a,} ⇒ { a}
[a, b = c, [d], {e},] ⇒ [a b=c [d] { e}]
[a, ...b] ⇒ [a ...b]
[...a] ⇒ [ ...a]
[a] b ⇒ [a] .. 1
{} ⇒ NoTree
[] ⇒ NoTree
[...a, b] ⇒ NoTree
{...a,} ⇒ NoTree
[, a] ⇒ NoTree
{[a]: b} ⇒ NoTree
{if} ⇒ NoTree
a.b ⇒ a .. 2
7 ⇒ NoTree
"#;

/// Of `params`.
pub const PARAMS: &str = r#"
() ⇒ ()
(a) {} ⇒ (a) .. 2
(a, b = c, {d}, [e],) ⇒ (a b=c { d} [e])
(...a) ⇒ ( ...a)
(a, ...[b, ...c]) ⇒ (a ...[b ...c])
(,) ⇒ NoTree
(...a,) ⇒ NoTree
(a b) ⇒ NoTree
a ⇒ NoTree
(a.b) ⇒ NoTree
"#;
