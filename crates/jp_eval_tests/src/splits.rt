//! Long lists that are cut into halves that are walked at once: how often, and that two of them meet. What is
//! selected so is in the rows `calls_nodes` of `scripts/commands`.

use crate::forks::{Counting, Meeting};
use jp_check::{Plan, plan};
use jp_doc::{Document, Location, Step};
use jp_eval::{Cuts, Evaluator, Halving};
use jp_flat::LineReader;
use jp_node::{Locations, Part};
use jp_number::Numbers;
use jp_select::{evaluate, evaluate_split};
use std::alloc::Global;
use std::test::Fail;
use std::thread::Threads;

/// An array of that many numbers, from 0 on.
fn numbers(alloc: Global, count: u32) -> Result<String, Fail> {
    let mut text = String::new(alloc);
    text.push('[')?;
    for number in 0..count {
        if number > 0 {
            text.push(',')?;
        }
        text.push_str(format!(in alloc; "{number}")?.as_str())?;
    }
    text.push(']')?;
    Ok(text)
}

/// Whether the location is that of the root's item at this place.
fn is_at(location: &Location, place: u32) -> bool {
    matches!(location.steps.as_slice(), [Step::Index(index)] if *index == place)
}

/// Whether these are the locations of a list's two items.
fn are_two(found: &[Location]) -> bool {
    match found {
        [first, second] => is_at(first, 0) && is_at(second, 1),
        _ => false,
    }
}

/// Whether both halves of a list of two meet, each of 200 times.
fn meet<R: Threads + Sync>(rt: &R, alloc: Global) -> Result<bool, Fail> {
    let plan = plan(alloc, "$[*]")?;
    let document = Document::read(alloc, b"[1,2]")?;
    for _time in 0..200u8 {
        let fork = Meeting::new();
        let found = evaluate_split(rt, alloc, &plan, &document, Cuts::new(2, 2), &fork)?;
        if !fork.met() || !are_two(&found) {
            return Ok(false);
        }
    }
    Ok(true)
}

#[test]
fn halves_meet(rt: HostRuntime) -> Result<(), Fail> {
    assert!(rt; meet(&rt, rt.alloc())?);
    Ok(())
}

/// How often a list of 256 is cut in all, for so many threads: one time fewer than there are walks at once.
const CUTS: [(u64, u64); 7] = [
    (0, 0),
    (1, 0),
    (2, 1),
    (3, 3),
    (8, 7),
    (64, 63),
    (18446744073709551615, 63),
];

/// Whether all of 256 nodes were found, by so many cuts.
fn are_all(found: &[Location], fork: &Counting, cuts: u64) -> bool {
    found.len() == 256 && fork.begun() == (cuts, cuts)
}

/// Whether a list of 256 is cut so often for so many threads, each of 200 times.
fn is_cut<R: Threads + Sync>(rt: &R, alloc: Global, threads: u64, cuts: u64) -> Result<bool, Fail> {
    let plan = plan(alloc, "$[*]")?;
    let document = Document::read(alloc, numbers(alloc, 256)?.as_bytes())?;
    for _time in 0..200u8 {
        let fork = Counting::new();
        let by = Cuts::new(2, threads);
        let found = evaluate_split(rt, alloc, &plan, &document, by, &fork)?;
        if !are_all(&found, &fork, cuts) {
            return Ok(false);
        }
    }
    Ok(true)
}

#[test]
fn walks_for_threads(rt: HostRuntime) -> Result<(), Fail> {
    for (threads, cuts) in CUTS {
        assert!(rt; is_cut(&rt, rt.alloc(), threads, cuts)?, "{threads}");
    }
    Ok(())
}

/// Where the nodes are that a plan selects in a line, by halves that the fork counts.
fn found_in<R: Threads + Sync>(
    rt: &R,
    alloc: Global,
    plan: &Plan,
    line: &str,
    floor: u64,
    fork: &Counting,
) -> Result<Vec<Location>, Fail> {
    let mut reader = LineReader::new(alloc);
    let Ok(document) = reader.read(Numbers::Whole, line.as_bytes())? else {
        return Err("not read".into());
    };
    let root = Part::root_of(&document);
    let mut found = Locations {
        locations: Vec::new(alloc),
    };
    let mut evaluator = Evaluator::new(alloc, plan.compiled());
    let halving = Halving {
        cuts: Cuts::new(floor, 64),
        fork,
    };
    evaluator.visit_split(rt, root, halving, &mut found)?;
    Ok(found.locations)
}

/// Whether a query's 256 nodes in a line are cut into 64 parts, each of 200 times.
fn are_sixty_four<R: Threads + Sync>(
    rt: &R,
    alloc: Global,
    query: &str,
    line: &str,
    floor: u64,
) -> Result<bool, Fail> {
    let plan = plan(alloc, query)?;
    for _time in 0..200u8 {
        let fork = Counting::new();
        let found = found_in(rt, alloc, &plan, line, floor, &fork)?;
        if !are_all(&found, &fork, 63) {
            return Ok(false);
        }
    }
    Ok(true)
}

/// A list of a line is cut as a document's is.
#[test]
fn sixty_four_walks(rt: HostRuntime) -> Result<(), Fail> {
    let line = numbers(rt.alloc(), 256)?;
    assert!(rt; are_sixty_four(&rt, rt.alloc(), "$[*]", line.as_str(), 2)?);
    Ok(())
}

/// Members of an object are cut too, into halves that are as long as one another.
#[test]
fn sixty_four_walks_of_members(rt: HostRuntime) -> Result<(), Fail> {
    let line = members(rt.alloc(), 256)?;
    assert!(rt; are_sixty_four(&rt, rt.alloc(), "$.*", line.as_str(), 4)?);
    Ok(())
}

/// An object of that many members, whose values are the numbers from 0 on.
fn members(alloc: Global, count: u32) -> Result<String, Fail> {
    let mut text = String::new(alloc);
    text.push('{')?;
    for number in 0..count {
        if number > 0 {
            text.push(',')?;
        }
        text.push_str(format!(in alloc; "\"m{number}\":{number}")?.as_str())?;
    }
    text.push('}')?;
    Ok(text)
}

/// Whether what is found by halves, each of 200 times, is what is found whole, of 500 members.
fn finds_the_same<R: Threads + Sync>(rt: &R, alloc: Global) -> Result<bool, Fail> {
    let plan = plan(alloc, "$[?@>499&&$.m0==0]")?;
    let document = Document::read(alloc, members(alloc, 1000)?.as_bytes())?;
    let whole = evaluate(alloc, &plan, &document)?;
    for time in 0..200usize {
        let cuts = Cuts::new([2, 300, 1000][time % 3], 64);
        let fork = Counting::new();
        let found = evaluate_split(rt, alloc, &plan, &document, cuts, &fork)?;
        if found.as_slice() != whole.as_slice() || fork.begun().0 == 0 {
            return Ok(false);
        }
    }
    Ok(whole.len() == 500)
}

#[test]
fn a_thousand_members(rt: HostRuntime) -> Result<(), Fail> {
    assert!(rt; finds_the_same(&rt, rt.alloc())?);
    Ok(())
}
