// What is written is read back.
ghost use Rattle.std.specs.Prelude.{◌≡◌, IfOk, Ok};

use crate::fault::LineFault;
use crate::line::write_record;
use crate::read::read_record;
use records::record::Record;
use std::alloc::{AllocError, Global};

/// Writes a record and reads its line, which gives the record again.
pub fn reads_back(heap: Global, record: Record) -> Result<Result<Record, LineFault>, AllocError>
    ensures { IfOk result (λ back. back ≡ Ok «record») }
{
    let line = write_record(heap, record)?;
    Ok(read_record(line.as_str()))
}
