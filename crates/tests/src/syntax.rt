//! Query texts with their trees, or their faults, worked out by hand. In each text of lines a line is a query's text,
//! an arrow, and its tree or its fault.
use crate::making::spelled;
use crate::showing::tree;
use clip_grammar::fault::QueryFault;
use clip_syntax::read_query;
use clip_words::NoMemory;
use std::alloc::{AllocError, Global};
use std::process::Abort;
use std::test::Fail;

/// A fault as text.
fn fault_text(alloc: Global, fault: QueryFault) -> Result<String, AllocError> {
    format!(in alloc; "{fault:?}")
}

/// The tree of the text, or its fault.
fn tree_or_fault(alloc: Global, text: &str) -> Result<String, AllocError> {
    match read_query(alloc, text) {
        Ok(query) => tree(alloc, &query),
        Err(fault) => fault_text(alloc, fault),
    }
}

/// Words and blanks.
const WORDS: &str = "\
tea => (text=tea)
tea\u{3000}coffee => (text=tea text=coffee)
tea\u{A0}coffee => (text=\"tea coffee\")
\u{A0} => NoWords
 => Structure
 \u{3000} => Structure
Can't 3.14 a.b => (text=can't text=3.14 text=a.b)
Straße => (text=strasse)
wi-fi => (text=\"wi fi\")
C++ => (text=c)
tea- coffee => (text=tea text=coffee)
tea--milk => (text=\"tea milk\")
tea+milk => (text=\"tea milk\")
a&b => (text=\"a b\")
中文 => (text=\"中 文\")
& => NoWords
-& => NoWords
tea & => NoWords
";

/// Signs.
const SIGNS: &str = "\
!spam *:* => (-text=spam *:*)
NOT spam *:* => (-text=spam *:*)
+ tea => (+text=tea)
-tea +milk sugar => (-text=tea +text=milk text=sugar)
tea -milk => (text=tea -text=milk)
te!a => (text=te -text=a)
NOT(tea) => (-(text=tea))
not tea => (text=not text=tea)
NOTE => (text=note)
N\\OT tea => (text=not text=tea)
\"NOT\" tea => (text=not text=tea)
+-a => Structure
--tea => Structure
NOT NOT tea => Structure
+NOT tea => Structure
NOT !tea => Structure
tea - => Structure
NOT => Structure
+ => Structure
";

/// Quoted texts.
const QUOTED: &str = "\
\"green  tea\" => (text=\"green tea\")
\"Tea\" => (text=tea)
tea\"milk\" => (text=tea text=milk)
\"a \\\" b\" => (text=\"a b\")
\"a\\\\\"b => (text=a text=b)
\"(+a*)\" => (text=a)
\"\" => NoWords
\"!\" => NoWords
\"a => Lexical(0)
\"a\\\" => Lexical(0)
tea \"x => Lexical(4)
";

/// Escapes.
const ESCAPES: &str = "\
\\NOT => (text=not)
\\AND => (text=and)
\\u0041\\u0042 => (text=ab)
\\u00e9t\\u00E9 => (text=été)
a\\u0062c => (text=abc)
\\U0041 => (text=u0041)
\\u0020x => (text=x)
a\\ b => (text=\"a b\")
a\\:b => (text=a:b)
\\(tea\\) => (text=tea)
\\* => NoWords
\\uD7FF => NoWords
\\uE000 => NoWords
\\uD800 => Lexical(0)
\\uDFFF => Lexical(0)
\\u004 => Lexical(0)
\\u00g1 => Lexical(0)
ab\\u12 => Lexical(2)
é\\u12 => Lexical(2)
a\\ => Lexical(1)
";

/// Fields.
const FIELDS: &str = "\
title:tea => (title=tea)
title : tea => (title=tea)
Title:Tea => (Title=tea)
title:Wi-Fi => (title=\"wi fi\")
title:\"green tea\" => (title=\"green tea\")
title:tea* => (title=tea*)
title:tea milk => (title=tea text=milk)
+title:tea => (+title=tea)
a\\:b:tea => (a:b=tea)
&:tea => (&=tea)
\\NOT:tea => (NOT=tea)
title:& => NoWords
title: => Structure
:tea => Structure
title:+tea => Structure
a:b:c => Structure
NOT:tea => Structure
te*:tea => Structure
\"title\":tea => Structure
title:*:* => Structure
";

/// Groups.
const GROUPS: &str = "\
(tea coffee) milk => ((text=tea text=coffee) text=milk)
title:(+tea -\"green tea\") text:milk => ((+title=tea -title=\"green tea\") text=milk)
title:(a body:b c) d => ((title=a body=b title=c) text=d)
title:(a (b) body:(c d) e) f => ((title=a (title=b) (body=c body=d) title=e) text=f)
title :(tea) => ((title=tea))
-(a b) => (-(text=a text=b))
(a)(b) => ((text=a) (text=b))
((a)) => (((text=a)))
() => Structure
(a => Structure
a) => Structure
)( => Structure
(a -) => Structure
(title:) => Structure
";

/// Stars.
const STARS: &str = "\
*:* => (*:*)
* : * => (*:*)
+*:* -tea => (+*:* -text=tea)
(*:*) => ((*:*))
*:*:* => Structure
* => LeftOut
*:tea => LeftOut
a:* => LeftOut
*:* * => LeftOut
";

/// Prefixes and wild cards.
const PREFIXES: &str = "\
\\u0041* => (text=a*)
STRASS* => (text=strass*)
ẞ* => (text=ss*)
te\\** => (text=te**)
te-* => (text=te-*)
&* => (text=&*)
te\\* => (text=te)
te\\?a => (text=\"te a\")
*tea => LeftOut
te*a => LeftOut
te? => LeftOut
te?* => LeftOut
** => LeftOut
";

/// Ranges.
const RANGES: &str = "\
[a TO b] => (text=['a' TO 'b'])
{m TO p] => (text={'m' TO 'p'])
[A TO B} => (text=['a' TO 'b'})
[* TO b} => (text=[* TO 'b'})
{a TO *} => (text={'a' TO *])
[* TO *] => (text=[* TO *])
[\"*\" TO \\*] => (text=['*' TO '*'])
-title:[a TO b]c => (-title=['a' TO 'b'] text=c)
[\"a b\" TO \"C D\"} => (text=['a b' TO 'c d'})
[te* TO (x:y\"] => (text=['te*' TO '(x:y\"'])
[\\\"a TO \\u0042] => (text=['\"a' TO 'b'])
[\"TO\" TO T\\O] => (text=['to' TO 'to'])
+extraordinarily* +[a TO b] => (+text=extraordinarily* +text=['a' TO 'b'])
[a b] => Lexical(0)
[a TO b => Lexical(0)
[aTO b] => Lexical(0)
[a TOb] => Lexical(0)
[TO TO b] => Lexical(0)
[\"\" TO b] => Lexical(0)
tea [a TO b => Lexical(4)
";

/// Operators.
const OPERATORS: &str = "\
tea AND coffee => (+text=tea +text=coffee)
tea AND coffee OR milk => (+text=tea +text=coffee text=milk)
tea && coffee || milk => (+text=tea +text=coffee text=milk)
tea OR coffee AND milk => (text=tea +text=coffee +text=milk)
milk OR tea AND -coffee => (text=milk +text=tea -text=coffee)
-tea AND milk => (-text=tea +text=milk)
NOT tea AND !milk => (-text=tea -text=milk)
a AND +b c => (+text=a +text=b text=c)
(tea AND coffee) OR milk => ((+text=tea +text=coffee) text=milk)
milk (tea OR mat) AND *:* => (text=milk +(text=tea text=mat) +*:*)
title:(a AND b*) AND [c TO d] => (+(+title=a +title=b*) +text=['c' TO 'd'])
tea and coffee => (text=tea text=and text=coffee)
tea \\AND coffee => (text=tea text=and text=coffee)
\"AND\" ANDY => (text=and text=andy)
AND => Structure
&& => Structure
tea AND => Structure
OR tea => Structure
tea AND OR milk => Structure
tea AND AND milk => Structure
AND:tea => Structure
tea:AND => Structure
+AND tea => Structure
tea -OR milk => Structure
(AND tea) => Structure
(tea OR) milk => Structure
";

/// Forms that are left out.
const LEFT_OUT: &str = "\
a&&b => LeftOut
a||b => LeftOut
tea &&milk => LeftOut
a/b => LeftOut
a~ => LeftOut
tea^2 => LeftOut
and or => (text=and text=or)
A\\ND => (text=and)
a\\&&b => (text=\"a b\")
\\|| => NoWords
";

/// The order of refusals.
const ORDER: &str = "\
a^ ] => Lexical(3)
中 } => Lexical(4)
a~ ) => LeftOut
& ) => Structure
(& a => Structure
";

/// Texts with white space of every kind, each with its tree.
static SPREAD: [(&str, &str); 2] = [
    (" \t\r\ntea\n", "(text=tea)"),
    ("[ a\t\u{3000}TO\nb ]", "(text=['a' TO 'b'])"),
];

/// The texts of lines.
static LINES: [&str; 12] = [
    WORDS, SIGNS, QUOTED, ESCAPES, FIELDS, GROUPS, STARS, PREFIXES, RANGES, OPERATORS, LEFT_OUT,
    ORDER,
];

/// The text is read as this tree or fault.
fn expect(rt: &impl Abort, alloc: Global, text: &str, wanted: &str) -> Result<(), Fail> {
    let told = tree_or_fault(alloc, text)?;
    assert!(rt; told.as_str() == wanted, "{text}: {told}");
    Ok(())
}

/// Each line's text is read as the tree or the fault after its arrow.
fn expect_lines(rt: &impl Abort, alloc: Global, lines: &str) -> Result<(), Fail> {
    for line in lines.lines() {
        let (text, wanted) = line.split_once(" => ").ok_or("a line without an arrow")?;
        expect(rt, alloc, text, wanted)?;
    }
    Ok(())
}

#[test]
fn each_text_has_its_tree_or_its_fault(rt: HostRuntime) -> Result<(), Fail> {
    for lines in &LINES {
        expect_lines(&rt, rt.alloc(), lines)?;
    }
    Ok(())
}

#[test]
fn white_space_of_every_kind_stands_between_lexemes(rt: HostRuntime) -> Result<(), Fail> {
    for (text, wanted) in &SPREAD {
        expect(&rt, rt.alloc(), text, wanted)?;
    }
    Ok(())
}

/// Pieces of a text, each so many times.
type Pieces = &'static [(&'static str, usize)];

/// Texts at the limits, each with its tree or its fault.
#[rattlefmt::skip]
static LIMITS: [(Pieces, Pieces); 11] = [
    // 65,536 bytes
    (&[("a", 65_536)], &[("(text=", 1), ("a", 65_536), (")", 1)]),
    (&[("a", 65_537)], &[("TooLong", 1)]),
    (&[("é", 32_769)], &[("TooLong", 1)]),
    // 4,096 nodes
    (&[("a ", 4_095)], &[("(text=a", 1), (" text=a", 4_094), (")", 1)]),
    (&[("a ", 4_096)], &[("TooBig", 1)]),
    (&[("*:* ", 4_096)], &[("TooBig", 1)]),
    // 64 open parentheses
    (&[("(", 64), ("a", 1), (")", 64)], &[("(", 65), ("text=a", 1), (")", 65)]),
    (&[("(", 65), ("a", 1), (")", 65)], &[("TooBig", 1)]),
    (&[("(", 30_000), ("a", 1), (")", 30_000)], &[("TooBig", 1)]),
    (&[("(", 30_000), ("a", 1), (")", 30_001)], &[("Structure", 1)]),
    (&[("(", 65_536)], &[("Structure", 1)]),
];

/// Whether the spelled text has the spelled tree or fault.
fn is_read_as(alloc: Global, text: Pieces, wanted: Pieces) -> Result<bool, AllocError> {
    let text = spelled(alloc, text)?;
    Ok(tree_or_fault(alloc, &text)? == spelled(alloc, wanted)?)
}

#[test]
fn a_query_has_at_most_65_536_bytes_and_4_096_nodes_and_64_open_parentheses(
    rt: HostRuntime,
) -> Result<(), Fail> {
    for (place, (text, wanted)) in LIMITS.iter().enumerate() {
        assert!(rt; is_read_as(rt.alloc(), text, wanted)?, "row {place}");
    }
    Ok(())
}

#[test]
fn faults_say_in_words_what_is_wrong(rt: HostRuntime) -> Result<(), Fail> {
    let (lexical, left_out) = (QueryFault::Lexical(2), QueryFault::LeftOut);
    let told = format!(in rt.alloc(); "{lexical}; {left_out}; {NoMemory}")?;
    let wanted = "no lexeme begins at byte 2; a form that is left out; no memory";
    assert!(rt; told.as_str() == wanted, "{told}");
    Ok(())
}
