//! The bytes of a reader, up to a limit.

ghost use Rattle.std.specs.Prelude.{◌≡◌, ◌≢◌, false, Err, IfOk};
ghost use Rattle.mothra_cli.specs.{inside, has_failed, limit, is_read_fault, ReadsUpTo, TakesAtMost};

use crate::fault::AppFault;
use crate::watched::Watched;
use std::alloc::Global;
use std::io::Read;

/// The most bytes that are read: one more than a job may have, so that a larger job shows.
const LIMIT: usize = 1_048_577;

const CHUNK: usize = 4096;

/// All bytes that a reader has, or its first 1,048,577. A read that was interrupted has
/// failed; it is not tried again.
pub fn read_input<R: Read>(alloc: Global, reader: &mut Watched<R>) -> Result<Vec<u8>, AppFault>
    requires { has_failed reader.old ≡ false }
    ensures bytes { IfOk result
        (λ v. ReadsUpTo limit (R.remaining (inside reader.old)) (R.remaining (inside reader.new)) v.items) }
    ensures taken { TakesAtMost limit (R.remaining (inside reader.old)) (R.remaining (inside reader.new)) }
    ensures failed { has_failed reader.new ≡ is_read_fault result }
    ensures unwritten { result ≢ Err AppFault.Write }
{
    let mut bytes = Vec::new(alloc);
    let mut chunk = [0u8; CHUNK];
    while bytes.len() < LIMIT {
        let most = CHUNK.min(LIMIT - bytes.len());
        let count = match reader.read(&mut chunk[..most]) {
            Ok(count) => count,
            Err(_) => return Err(AppFault::Read),
        };
        if count == 0 {
            break;
        }
        if bytes.extend_from_slice(&chunk[..count]).is_err() {
            return Err(AppFault::Memory);
        }
    }
    Ok(bytes)
}
