//! What a fault of a run says, of whatever kind.

use jp_doc::DocFault;
use jp_run::RunFault;
use jp_tree::QueryFault;
use std::alloc::{AllocError, Global};
use std::test::Fail;

/// Each fault at its place, with its status and its text.
fn fault_at(place: u64) -> Option<(RunFault, u8, &'static str)> {
    match place {
        0 => Some((RunFault::Query(QueryFault::IllTyped), 2, "query: type")),
        1 => {
            let fault = RunFault::Document {
                line: 12,
                fault: DocFault::LongArray,
            };
            Some((fault, 3, "line 12: long array"))
        }
        2 => Some((RunFault::Read, 4, "read")),
        3 => Some((RunFault::Write, 4, "write")),
        4 => Some((RunFault::Limit, 4, "limit")),
        5 => Some((RunFault::Memory, 5, "memory")),
        6 => Some((RunFault::Settings, 64, "command line")),
        7 => Some((RunFault::Filter(QueryFault::IllTyped), 2, "where: type")),
        _ => None,
    }
}

/// Whether a fault has this text.
fn has_text(alloc: Global, fault: &RunFault, text: &str) -> Result<bool, AllocError> {
    Ok(format!(in alloc; "{fault}")?.as_str() == text)
}

#[test]
fn faults_have_their_texts(rt: HostRuntime) -> Result<(), Fail> {
    for place in 0..8u64 {
        let Some((fault, status, text)) = fault_at(place) else {
            panic!(rt; "no fault at {place}");
        };
        assert_eq!(rt; fault.status(), status);
        assert!(rt; has_text(rt.alloc(), &fault, text)?, "{text}");
    }
    Ok(())
}
