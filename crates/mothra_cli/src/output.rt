//! A whole text is written.

ghost use Rattle.std.specs.Prelude.{◌≡◌, false, is_err, IfErr, OnOk, OnErr};
ghost use Rattle.std.specs.Io.KnownBytes.{Appends};
ghost use Rattle.mothra_cli.specs.{inside, has_failed, AppendsFront};

use crate::fault::AppFault;
use crate::watched::Watched;
use std::io::Write;

/// Writes the whole text. Where a write fails or takes no byte, only the text in front of that was
/// written. A write that was interrupted has failed; it is not tried again.
pub fn write_whole<W: Write>(writer: &mut Watched<W>, text: &[u8]) -> Result<(), AppFault>
    requires { has_failed writer.old ≡ false }
    ensures whole { OnOk result (Appends (W.contents (inside writer.old)) (W.contents (inside writer.new)) text.now) }
    ensures front { OnErr result
        (AppendsFront (W.contents (inside writer.old)) (W.contents (inside writer.new)) text.now) }
    ensures failed { has_failed writer.new ≡ is_err result }
    ensures fault { IfErr result (λ e. e ≡ AppFault.Write) }
{
    let mut written = 0;
    while written < text.len() {
        match writer.write(&text[written..]) {
            Ok(0) => return Err(AppFault::Write),
            Ok(count) => written += count,
            Err(_) => return Err(AppFault::Write),
        }
    }
    Ok(())
}
