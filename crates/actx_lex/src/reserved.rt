//! Reserved words (ECMA-262 §12.7.2).

ghost use Rattle.std.specs.Prelude.{◌≡◌};
ghost use Rattle.actx_lex.specs.Words as words;

/// Whether the units are those of the word.
#[tactic(auto, unfolding(crate::specs::Words::same_units))]
fn same_units(units: &[u16], word: &[u8]) -> bool
    ensures { result ≡ words.same_units units.now word.now }
{
    let mut left = units;
    let mut sought = word;
    loop {
        match left {
            [] => return sought.is_empty(),
            [unit, rest @ ..] => match sought {
                [] => return false,
                [byte, more @ ..] => {
                    if *unit != *byte as u16 {
                        return false;
                    }
                    left = rest;
                    sought = more;
                }
            },
        }
    }
}

/// Whether the units are a reserved word: only those with its first letter are looked at.
pub fn is_reserved(units: &[u16]) -> bool
    ensures { result ≡ words.is_reserved units.now }
{
    match units {
        [] => false,
        [first, ..] => match *first {
            97 => same_units(units, b"arguments") | same_units(units, b"await"),
            98 => same_units(units, b"break"),
            99 => same_units(units, b"case")
                | same_units(units, b"catch")
                | same_units(units, b"class")
                | same_units(units, b"const")
                | same_units(units, b"continue"),
            100 => same_units(units, b"debugger")
                | same_units(units, b"default")
                | same_units(units, b"delete")
                | same_units(units, b"do"),
            101 => same_units(units, b"else")
                | same_units(units, b"enum")
                | same_units(units, b"eval")
                | same_units(units, b"export")
                | same_units(units, b"extends"),
            102 => same_units(units, b"false")
                | same_units(units, b"finally")
                | same_units(units, b"for")
                | same_units(units, b"function"),
            105 => same_units(units, b"if")
                | same_units(units, b"implements")
                | same_units(units, b"import")
                | same_units(units, b"in")
                | same_units(units, b"instanceof")
                | same_units(units, b"interface"),
            108 => same_units(units, b"let"),
            110 => same_units(units, b"new") | same_units(units, b"null"),
            112 => same_units(units, b"package")
                | same_units(units, b"private")
                | same_units(units, b"protected")
                | same_units(units, b"public"),
            114 => same_units(units, b"return"),
            115 => same_units(units, b"static")
                | same_units(units, b"super")
                | same_units(units, b"switch"),
            116 => same_units(units, b"this")
                | same_units(units, b"throw")
                | same_units(units, b"true")
                | same_units(units, b"try")
                | same_units(units, b"typeof"),
            118 => same_units(units, b"var") | same_units(units, b"void"),
            119 => same_units(units, b"while") | same_units(units, b"with"),
            121 => same_units(units, b"yield"),
            _ => false,
        },
    }
}
