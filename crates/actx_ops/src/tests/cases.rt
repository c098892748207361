//! Cases of operators and conversions. The answers of operators that are in the profile were also given
//! by another implementation of ECMA-262.

/// An operator, two operands and what it gives. A text stands between `'`, `#` begins an object, `neg`
/// and `plus` are the unary operators, and `!` begins a reason.
pub(crate) const OPERATORS: &str = "+ 9007199254740991 1 !number
% -4 2 !number
* '3' 4 12
+ true 'x' 'truex'
* undefined 1 !conversion
< '10' '9' true
+ -9007199254740991 -1 !number
- -9007199254740991 1 !number
- 9007199254740991 -1 !number
+ 9007199254740991 0 9007199254740991
* 3037000500 3037000500 !number
* 9007199254740991 9007199254740991 !number
* 9007199254740991 -1 -9007199254740991
* 0 -1 !number
* -3 0 !number
* null -4 !number
* 0 0 0
/ 1 0 !number
/ 0 0 !number
/ 0 -1 !number
/ 7 2 !number
/ -4 2 -2
/ 4 -4 -1
/ -9007199254740991 -1 9007199254740991
/ 100 '10' 10
/ true true 1
/ 1 false !number
% 7 3 1
% -7 3 -1
% 7 -3 1
% -7 -3 -1
% 4 0 !number
% 0 -3 0
% -3 3 !number
% 3 9007199254740991 3
% -9007199254740991 10 -1
neg 0 0 !number
neg null 0 !number
neg false 0 !number
neg '0' 0 !number
neg 9007199254740991 0 -9007199254740991
neg -9007199254740991 0 9007199254740991
neg '-4' 0 4
neg '-0' 0 !conversion
neg undefined 0 !conversion
neg #1 0 !conversion
plus '9007199254740991' 0 9007199254740991
plus '9007199254740992' 0 !conversion
plus '-9007199254740991' 0 -9007199254740991
plus '' 0 !conversion
plus '01' 0 !conversion
plus '00' 0 !conversion
plus '+1' 0 !conversion
plus '1e3' 0 !conversion
plus '0x1' 0 !conversion
plus '1.0' 0 !conversion
plus '--1' 0 !conversion
plus '-' 0 !conversion
plus '12345678901234567890' 0 !conversion
plus true 0 1
plus null 0 0
plus #2 0 !conversion
plus -7 0 -7
+ '' '' ''
+ '' 0 '0'
+ undefined 'x' 'undefinedx'
+ 'x' null 'xnull'
+ 'ab' 'abc' 'ababc'
+ -4 'x' '-4x'
+ 'x' -9007199254740991 'x-9007199254740991'
+ #1 'x' !conversion
+ 'x' #1 !conversion
+ #1 #2 !conversion
+ undefined 1 !conversion
+ null true 1
+ true true 2
+ '3' '4' '34'
+ '3' 4 '34'
+ 'é' 'x' 'éx'
- '10' '9' 1
- 'x' 1 !conversion
- 1 '' !conversion
- true null 1
- #1 1 !conversion
< 1 2 true
< 2 1 false
< 1 1 false
< '9' 10 true
< '10' 9 false
< 'x' 1 !conversion
< 'ab' 'abc' true
< 'abc' 'ab' false
< 'X' 'x' true
< '' 'x' true
< '' '' false
< 'x' 'é' true
< null 1 true
< undefined 1 !conversion
< #1 #2 !conversion
< -1 null true
< -9007199254740991 9007199254740991 true
> 2 1 true
> 1 1 false
> '9' '10' true
> '10' 9 true
> true false true
> 'x' #1 !conversion
<= 1 1 true
<= 2 1 false
<= 'ab' 'ab' true
<= null 0 true
<= undefined undefined !conversion
>= 1 1 true
>= 1 2 false
>= '9' '10' true
>= 0 null true
== null undefined true
== undefined null true
== null null true
== undefined undefined true
== null 0 false
== 0 null false
== undefined false false
== null '' false
== null #1 false
== #1 undefined false
== #1 #1 true
== #1 #2 false
== #1 1 !conversion
== 'x' #1 !conversion
== true #1 !conversion
== true 1 true
== true '1' true
== false '0' true
== false 0 true
== 1 '1' true
== '10' 10 true
== 'x' 1 !conversion
== '' 0 !conversion
== '01' 1 !conversion
== 'x' 'x' true
== 'x' 'X' false
== '1' '01' false
== 1 1 true
== 1 2 false
== true true true
== true false false
== true 2 false
!= null undefined false
!= null 0 true
!= '1' 1 false
!= 'x' 1 !conversion
!= #1 #2 true
!= 1 2 true
=== null undefined false
=== null null true
=== undefined undefined true
=== 1 '1' false
=== 1 1 true
=== 1 -1 false
=== true 1 false
=== true true true
=== false false true
=== false true false
=== 'x' 'x' true
=== 'x' 'xy' false
=== '' '' true
=== #1 #1 true
=== #1 #2 false
=== #1 'x' false
=== null #1 false
!== 1 1 false
!== 1 '1' true
!== #1 #2 true
!== 'x' 'x' false
!== undefined null true";

/// A conversion, a value and what it gives: `same` is the text itself, and `empty` the empty name.
pub(crate) const CONVERSIONS: &str = "text undefined 'undefined'
text null 'null'
text true 'true'
text false 'false'
text 0 '0'
text -7 '-7'
text 9007199254740991 '9007199254740991'
text -9007199254740991 '-9007199254740991'
text 'x' same
text '' same
text #1 !conversion
key undefined 'undefined'
key null 'null'
key true 'true'
key 0 0
key 7 7
key -7 '-7'
key 4294967294 4294967294
key 4294967295 '4294967295'
key 'x' same
key '' same
key '0' 0
key '7' 7
key '07' same
key '-0' same
key '-1' same
key '4294967294' 4294967294
key '4294967295' same
key '1.0' same
key #1 !conversion
keyof undefined empty
keyof true empty
keyof #1 empty
keyof 0 0
keyof 4294967294 4294967294
keyof 4294967295 empty
keyof -1 empty
keyof 'x' same
keyof '' empty
keyof '7' 7
keyof '07' same
keyof '4294967294' 4294967294
keyof '4294967295' same";
