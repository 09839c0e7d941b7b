//! A hundred thousand lines, whose answer is the one that trees give.

ghost use Rattle.std.specs.Prelude.{◌<◌};

use jp_answer::OpenGate;
use jp_check::{Plan, plan};
use jp_doc::{DocFault, Document, Line};
use jp_eval::Evaluator;
use jp_flat::LineReader;
use jp_node::Part;
use jp_output::NodeLines;
use jp_run::answer_all;
use std::alloc::{AllocError, Global};
use std::test::Fail;
use std::thread::Threads;

/// Names as a line has them: some are the same text, and some stand more than once in a line.
const NAMES: [&str; 8] = [
    r#""a""#,
    r#""b""#,
    r#""\u0061""#,
    r#""""#,
    r#""é""#,
    r#""\ud83d\ude00""#,
    r#""b\n""#,
    r#""Z""#,
];

/// Values, of which some make a line faulty.
const VALUES: [&str; 24] = [
    "1",
    "0",
    "-7",
    "9223372036854775807",
    "-9223372036854775808",
    "9223372036854775808",
    "18446744073709551615",
    "18446744073709551616",
    "-0",
    "1.5",
    "true",
    "null",
    r#""""#,
    r#""ab""#,
    r#""a\u0000\t\"\\\/b""#,
    r#""\ud83d\ude00😀""#,
    r#""\ud83d""#,
    "[]",
    "{}",
    "[1,[2,[3,[]]]]",
    r#"{"b":1,"a":{"z":[true,null]},"a":{"y":2}}"#,
    r#"[{"a":1},{"a":"1"},{"b":{"a":[]}}]"#,
    r#"{"a": 1 , "b" : [ ] }"#,
    "[1,]",
];

const QUERIES: [&str; 6] = [
    "$",
    "$..*",
    "$.a",
    "$[?@.a==$.b||@>'a']",
    "$..[::-2,0]",
    "$[?length(@)>1&&count(@..a)<3]",
];

/// Numbers that look like chance, the same ones each time.
#[derive(Drop)]
struct Chance {
    state: u64,
}

impl Chance {
    /// One of the numbers below `count`, which is at least 1.
    fn below(&mut self, count: usize) -> usize
        requires { 0 < count }
        ensures { result < count }
    {
        self.state = self
            .state
            .wrapping_mul(6_364_136_223_846_793_005)
            .wrapping_add(1_442_695_040_888_963_407);
        (self.state >> 33) as usize % count
    }
}

/// Appends an array, an object or a deep array.
fn push_text(chance: &mut Chance, text: &mut String) -> Result<(), AllocError> {
    match chance.below(64) {
        0 => push_deep(126 + chance.below(4), text),
        turn if turn % 2 == 0 => push_object(chance, text),
        _ => push_array(chance, text),
    }
}

/// Appends so many arrays within one another.
fn push_deep(levels: usize, text: &mut String) -> Result<(), AllocError> {
    for _level in 0..levels {
        text.push('[')?;
    }
    for _level in 0..levels {
        text.push(']')?;
    }
    Ok(())
}

fn push_array(chance: &mut Chance, text: &mut String) -> Result<(), AllocError> {
    text.push('[')?;
    for item in 0..chance.below(5) {
        if item > 0 {
            text.push(',')?;
        }
        text.push_str(VALUES[chance.below(24)])?;
    }
    text.push(']')
}

fn push_object(chance: &mut Chance, text: &mut String) -> Result<(), AllocError> {
    text.push('{')?;
    for member in 0..chance.below(6) {
        if member > 0 {
            text.push_str(", ")?;
        }
        text.push_str(NAMES[chance.below(8)])?;
        text.push(':')?;
        text.push_str(VALUES[chance.below(24)])?;
    }
    text.push('}')
}

fn lines(alloc: Global, count: u64) -> Result<Vec<Line>, AllocError> {
    let mut chance = Chance { state: 1 };
    let mut lines = Vec::new(alloc);
    for number in 0..count {
        let mut text = String::new(alloc);
        push_text(&mut chance, &mut text)?;
        lines.push(Line {
            number,
            bytes: text.into_bytes(),
        })?;
    }
    Ok(lines)
}

/// The answer of a plan that each line's tree gives, and how many lines are faulty.
fn by_trees(alloc: Global, plan: &Plan, lines: &[Line]) -> Result<(Vec<u8>, u64), Fail> {
    let mut evaluator = Evaluator::new(alloc, plan.compiled());
    let mut reader = LineReader::new(alloc);
    let mut written = NodeLines::new(alloc);
    let mut faulty = 0u64;
    for line in lines {
        written.begin(line.number);
        match Document::read(alloc, &line.bytes) {
            Ok(tree) => {
                let document = reader.lay(&tree)?;
                evaluator.visit(Part::root_of(&document), &mut written)?;
            }
            Err(DocFault::Memory) => return Err(AllocError.into()),
            Err(fault) => {
                written.push_fault(alloc, &fault)?;
                faulty = faulty.wrapping_add(1);
            }
        }
    }
    Ok((written.into_bytes(alloc)?, faulty))
}

/// Whether the answer of a query is the one that trees give, where some of the lines are faulty and some not.
fn is_as_by_trees<R: Threads + Sync>(
    rt: &R,
    alloc: Global,
    query: &str,
    lines: &[Line],
) -> Result<bool, Fail> {
    if lines.len() > 100_000 {
        return Ok(false);
    }
    let plan = plan(alloc, query)?;
    let (bytes, faulty) = by_trees(alloc, &plan, lines)?;
    let whole = answer_all(rt, alloc, &plan, lines, 2, 64, &OpenGate)?;
    let are_mixed = faulty > 1_000 && faulty < 99_000;
    Ok(are_mixed && whole.bytes == bytes && whole.faulty == faulty)
}

#[test]
fn a_hundred_thousand_lines(rt: HostRuntime) -> Result<(), Fail> {
    let lines = lines(rt.alloc(), 100_000)?;
    for query in &QUERIES {
        assert!(rt; is_as_by_trees(&rt, rt.alloc(), query, &lines)?, "{query}");
    }
    Ok(())
}
