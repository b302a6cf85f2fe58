//! The text of the input.
ghost use Rattle.std.specs.Prelude.{◌≡◌, ◌≤◌, IfErr, IfOk, IsErrOf, length};
ghost use Rattle.gw_script.specs.Decode.{script_limit};
ghost use Rattle.gw_site.specs.Failures.{Rose};
ghost use Rattle.gw_run.specs.Replay.{IsInputFault, IsInputRead};
ghost use Rattle.gw_run.specs.Top.{IfBytesObserved};

use crate::ending::Ending;
use gw_bytes::LONGEST_CHUNK;
use gw_site::{Failed, Source};
use std::alloc::{AllocError, Global};

/// The input, read to its end, or until it is above the limit and then no further.
pub(crate) fn read_input<I: Source>(
    alloc: Global,
    input: &mut I,
    limit: usize,
) -> Result<Vec<u8>, Ending>
    requires { limit ≤ script_limit }
    ensures bytes { IfBytesObserved (I.left input.old) (λ all. IsInputRead limit result all (I.left input.new)) }
    ensures within { IfOk result (λ bytes. length bytes.items ≤ limit) }
    ensures fault { IfErr result IsInputFault }
    ensures failed { IsErrOf result Ending.Input → Rose (I.faults input.old) (I.faults input.new) }
    ensures later { I.faults input.old ≤ I.faults input.new }
{
    let mut bytes = Vec::new(alloc);
    // A chunk at a time, so that at most one is read beyond the limit: an input may have no end.
    let mut buf = [0; LONGEST_CHUNK];
    while bytes.len() <= limit {
        match input.read(&mut buf) {
            Err(Failed) => return Err(Ending::Input),
            Ok(0) => return Ok(bytes),
            Ok(count) => match bytes.extend_from_slice(&buf[..count]) {
                Ok(()) => {}
                Err(AllocError) => return Err(Ending::Memory),
            },
        }
    }
    Err(Ending::Long)
}
