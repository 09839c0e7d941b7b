use jp_answer::OpenGate;
use jp_run::{FromReader, FromWriter, RunFault, Settings, Totals, run};
use std::alloc::Global;
use std::io::{Read, Write};
use std::thread::Threads;

fn names<R: Threads + Sync, I: Read + Drop, O: Write + Drop>(
    rt: &R,
    alloc: Global,
    reader: I,
    writer: O,
) -> Result<Totals, RunFault> {
    let settings = Settings::new(4, 64, 4_096)?;
    let mut source = FromReader::new(reader);
    let mut sink = FromWriter::new(writer);
    run(
        rt,
        alloc,
        &mut source,
        &mut sink,
        "$.name",
        &settings,
        &OpenGate,
    )
}
