//! Nodes that a query selects: `{"nodes":{"query":"$[0,0]","document":"[5]"}}` is `"$[0] $[0]"`, the paths of
//! the nodes, or `"nothing"`.
//!
//! The document is read as a tree, which is laid, and as a line, and walked whole and by halves: where not
//! all tell the same, the answer is a list of what each tells.

use jp_check::{Plan, plan_in};
use jp_doc::{Document, Location};
use jp_eval::{Cuts, Evaluator, Halving, OpenFork};
use jp_flat::LineReader;
use jp_node::{Locations, Part};
use jp_number::Numbers;
use jp_output::write_path;
use jp_probe_parts::{Row, number_in};
use jp_select::{evaluate, evaluate_split};
use serde_json::Value;
use std::alloc::Global;
use std::thread::Threads;

/// What is asked besides the query.
#[derive(Clone, Copy)]
struct AskedNodes<'v> {
    document: &'v str,
    /// Whether numbers may be any: then the document is read as a line alone.
    decimals: bool,
    /// The lengths from which on lists are cut into halves.
    floors: &'v [Value],
    /// How many more times each of these is tried.
    more: u64,
    /// Whether how many nodes there are is told in the place of their paths.
    counted: bool,
}

/// The answer.
pub fn answer_nodes<R: Threads + Sync>(
    rt: &R,
    alloc: Global,
    row: Row<'_>,
) -> anyhow::Result<String> {
    row.has_only(&["query", "document", "decimals", "floors", "more", "counted"])?;
    let asked = AskedNodes::of(row)?;
    let plan = plan_in(alloc, row.text("query")?, numbers_of(asked.decimals))?;
    let mut told = Vec::new(alloc);
    if !asked.decimals {
        let document = Document::read(alloc, asked.document.as_bytes())?;
        let found = evaluate(alloc, &plan, &document)?;
        told.push(asked.told(alloc, &found)?)?;
        asked.tell_halves(rt, alloc, &plan, &document, &mut told)?;
    }
    asked.tell_flat(rt, alloc, &plan, &mut told)?;
    answer_of(alloc, told)
}

impl<'v> AskedNodes<'v> {
    /// What a row asks.
    fn of(row: Row<'v>) -> anyhow::Result<AskedNodes<'v>> {
        Ok(AskedNodes {
            document: row.text("document")?,
            decimals: row.flag("decimals")?,
            floors: row.items("floors")?,
            more: row.number("more")?,
            counted: row.flag("counted")?,
        })
    }

    /// What is said of the nodes that were found.
    fn told(&self, alloc: Global, found: &[Location]) -> anyhow::Result<String> {
        if self.counted {
            return Ok(format!(in alloc; "{}", found.len())?);
        }
        let mut paths = String::new(alloc);
        for location in found {
            if !paths.is_empty() {
                paths.push(' ')?;
            }
            paths.push_str(write_path(alloc, location)?.as_str())?;
        }
        if paths.is_empty() {
            paths.push_str("nothing")?;
        }
        Ok(paths)
    }

    /// Tells what is found by halves in a tree.
    fn tell_halves<R: Threads + Sync>(
        &self,
        rt: &R,
        alloc: Global,
        plan: &Plan,
        document: &Document,
        told: &mut Vec<String>,
    ) -> anyhow::Result<()> {
        for floor in self.floors {
            self.tell_tree(rt, alloc, plan, document, number_in(floor)?, told)?;
        }
        Ok(())
    }

    /// The same, from one length on.
    fn tell_tree<R: Threads + Sync>(
        &self,
        rt: &R,
        alloc: Global,
        plan: &Plan,
        document: &Document,
        floor: u64,
        told: &mut Vec<String>,
    ) -> anyhow::Result<()> {
        for _ in 0..=self.more {
            let cuts = Cuts::new(floor, 64);
            let found = evaluate_split(rt, alloc, plan, document, cuts, &OpenFork)?;
            push_other(told, self.told(alloc, &found)?)?;
        }
        Ok(())
    }

    /// Tells what is found in the document that is read flat, whole and by halves.
    fn tell_flat<R: Threads + Sync>(
        &self,
        rt: &R,
        alloc: Global,
        plan: &Plan,
        told: &mut Vec<String>,
    ) -> anyhow::Result<()> {
        let mut reader = LineReader::new(alloc);
        let document = reader.read(numbers_of(self.decimals), self.document.as_bytes())??;
        self.tell_part(rt, alloc, plan, Part::root_of(&document), told)
    }

    /// Tells what is found in a document, whole and by halves.
    fn tell_part<R: Threads + Sync>(
        &self,
        rt: &R,
        alloc: Global,
        plan: &Plan,
        root: Part<'_>,
        told: &mut Vec<String>,
    ) -> anyhow::Result<()> {
        let found = found_in(alloc, plan, root)?;
        push_other(told, self.told(alloc, &found.locations)?)?;
        for floor in self.floors {
            self.tell_floor(rt, alloc, plan, root, number_in(floor)?, told)?;
        }
        Ok(())
    }

    /// Tells what is found by halves, from one length on.
    fn tell_floor<R: Threads + Sync>(
        &self,
        rt: &R,
        alloc: Global,
        plan: &Plan,
        root: Part<'_>,
        floor: u64,
        told: &mut Vec<String>,
    ) -> anyhow::Result<()> {
        for _ in 0..=self.more {
            let found = found_by_halves(rt, alloc, plan, root, floor)?;
            push_other(told, self.told(alloc, &found.locations)?)?;
        }
        Ok(())
    }
}

/// The numbers that are allowed.
pub fn numbers_of(decimals: bool) -> Numbers {
    if decimals {
        Numbers::Decimals
    } else {
        Numbers::Whole
    }
}

/// Adds what is told, where it is not what was told first.
fn push_other(told: &mut Vec<String>, other: String) -> anyhow::Result<()> {
    if told.first() != Some(&other) {
        told.push(other)?;
    }
    Ok(())
}

/// The one thing that is told, or all.
fn answer_of(alloc: Global, told: Vec<String>) -> anyhow::Result<String> {
    match told.as_slice() {
        [only] => Ok(serde_json::to_string(alloc, only)?),
        _ => Ok(serde_json::to_string(alloc, &told)?),
    }
}

/// What a plan selects.
fn found_in(alloc: Global, plan: &Plan, root: Part<'_>) -> anyhow::Result<Locations> {
    let mut found = Locations {
        locations: Vec::new(alloc),
    };
    Evaluator::new(alloc, plan.compiled()).visit(root, &mut found)?;
    Ok(found)
}

/// What a plan selects by halves of lists that have so many children.
fn found_by_halves<R: Threads + Sync>(
    rt: &R,
    alloc: Global,
    plan: &Plan,
    root: Part<'_>,
    floor: u64,
) -> anyhow::Result<Locations> {
    let mut found = Locations {
        locations: Vec::new(alloc),
    };
    let halving = Halving {
        cuts: Cuts::new(floor, 64),
        fork: &OpenFork,
    };
    Evaluator::new(alloc, plan.compiled()).visit_split(rt, root, halving, &mut found)?;
    Ok(found)
}
