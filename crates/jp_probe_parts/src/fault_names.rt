//! The faults of lines by their names.

ghost use Rattle.std.specs.Prelude.{◌≢◌, IfOk};

use jp_doc::DocFault;

/// The fault of this name, as `long_line`. Want of memory has none.
pub fn fault_named(name: &str) -> anyhow::Result<DocFault>
    ensures { IfOk result (λ fault. fault ≢ DocFault.Memory) }
{
    Ok(match name {
        "long_line" => DocFault::LongLine,
        "unreadable" => DocFault::Unreadable,
        "not_whole" => DocFault::NotWhole,
        "long_number" => DocFault::LongNumber,
        "long_array" => DocFault::LongArray,
        _ => return Err(anyhow::anyhow!("no fault has the name that stands in a row")),
    })
}
