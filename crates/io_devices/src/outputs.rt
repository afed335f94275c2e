//! Outputs, and writing all of some bytes.
ghost use Rattle.std.specs.Prelude.{◌≡◌, OnOk, OnErr, MatchResult};
ghost use Rattle.std.specs.Io.KnownBytes.{Appends};
ghost use Rattle.io_devices.specs.Devices.{Device, HasRoom, HasWorked};
ghost use Rattle.io_devices.specs.Outputs.{Writes, SendsFront, WriteStops};

use crate::failing::{DeviceFailed, WriteGaveUp};

/// A sink of bytes. It counts its failures, and the writes that took no byte: a write fails exactly if the count of failures rises, by one.
pub trait Output {
    /// The bytes that were taken, if they are known, how many writes have failed, and how many writes of one or more
    /// bytes took none.
    ghost device: { Self → Device };

    /// Writes the first bytes of the buffer, and gives how many were taken.
    ///
    /// # Errors
    ///
    /// If the write failed. It then took no byte, and counts as one failure.
    fn write(&mut self, buf: &[u8]) -> Result<usize, DeviceFailed>
        requires { HasRoom (device self.old) }
        ensures { Writes (device self.old) (device self.new) result buf.now };
}

/// Writes all of the bytes in their order, by several writes if the output takes fewer.
///
/// # Errors
///
/// `Failed` if a write failed, `TookNone` if one took no byte: the output is not called again after it. Either way a
/// prefix of the bytes was written.
#[tactic(auto, using(crate::proofs::Moved::sent_more, crate::proofs::Moved::worked_more))]
pub fn write_whole<O: Output>(output: &mut O, bytes: &[u8]) -> Result<(), WriteGaveUp>
    requires { HasRoom (O.device output.old) }
    ensures whole { OnOk result (Appends (O.device output.old).bytes (O.device output.new).bytes bytes.now) }
    ensures front { OnErr result (SendsFront (O.device output.old) (O.device output.new) bytes.now) }
    ensures count { MatchResult result (λ _. HasWorked (O.device output.old) (O.device output.new))
        (λ why. WriteStops why (O.device output.old) (O.device output.new)) }
{
    let mut sent = 0;
    while sent < bytes.len() {
        let n = output.write(&bytes[sent..])?;
        if n == 0 {
            return Err(WriteGaveUp::TookNone);
        }
        sent += n;
    }
    Ok(())
}
