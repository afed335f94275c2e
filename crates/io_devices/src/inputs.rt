//! Inputs, and reading a whole one within a limit.
ghost use Rattle.std.specs.Prelude.{◌≡◌, ◌++◌, ◌+◌, ◌≤◌, ◌<◌, length, take, IfOk, MatchResult};
ghost use Rattle.std.specs.Io.KnownBytes.{Consumes, IsAtEnd};
ghost use Rattle.io_devices.specs.Devices.{Device, HasRoom, HasWorked};
ghost use Rattle.io_devices.specs.Inputs.{Reads, IsInput, TakesAtMost, ReadStops};

use crate::failing::{DeviceFailed, ReadGaveUp};
use std::alloc::Global;

/// The greatest number of bytes that one read asks for.
const CHUNK: usize = 65536;

/// A source of bytes. It counts its failures: a read fails exactly if this count rises, by one.
pub trait Input {
    /// The bytes that are left, if they are known, and how many reads have failed.
    ghost device: { Self → Device };

    /// Reads the next bytes into the front of the buffer, and gives how many they are: 0 only at the end of the input
    /// or if the buffer is empty.
    ///
    /// # Errors
    ///
    /// If the read failed. It then took none of the bytes that are known, and counts as one failure.
    fn read(&mut self, buf: &mut [u8]) -> Result<usize, DeviceFailed>
        requires { HasRoom (device self.old) }
        ensures { Reads (device self.old) (device self.new) result buf.new };
}

/// Reads an input to its end, or to one byte past the limit and not further, so that the length of what it gives shows
/// whether the input is longer than the limit.
///
/// # Errors
///
/// `Failed` if a read failed: the input is not called again after it. `NoMemory` if memory for the bytes was refused.
/// Either way the bytes that were read are lost.
pub fn read_within<I: Input>(
    alloc: Global,
    input: &mut I,
    limit: usize,
) -> Result<Vec<u8>, ReadGaveUp>
    requires { HasRoom (I.device input.old) }
    ensures whole { IfOk result (λ bytes. IsInput limit (I.device input.old) bytes.items) }
    ensures rest { IfOk result (λ bytes. Consumes (I.device input.old).bytes (I.device input.new).bytes bytes.items) }
    ensures taken { TakesAtMost (limit + 1) (I.device input.old) (I.device input.new) }
    ensures count { MatchResult result (λ _. HasWorked (I.device input.old) (I.device input.new))
        (λ why. ReadStops why (I.device input.old) (I.device input.new)) }
{
    let mut chunk = [0u8; CHUNK];
    let mut bytes = Vec::new(alloc);
    while bytes.len() <= limit {
        let most = most_of_read(limit - bytes.len());
        if read_more(input, &mut chunk[..most], &mut bytes)? == 0 {
            break;
        }
    }
    Ok(bytes)
}

/// How many bytes a read asks for if `remaining` bytes are left up to the limit: at most one past it.
fn most_of_read(remaining: usize) -> usize
    ensures some { 0 < result }
    ensures few { result ≤ remaining + 1 }
    ensures fits { result ≤ 65536 }
{
    remaining.min(CHUNK - 1) + 1
}

/// Appends what one read into the buffer gives, and returns how many bytes they are.
fn read_more<I: Input>(
    input: &mut I,
    buf: &mut [u8],
    bytes: &mut Vec<u8>,
) -> Result<usize, ReadGaveUp>
    requires { HasRoom (I.device input.old) }
    ensures bound { IfOk result (λ n. n ≤ length buf.new) }
    ensures grown { IfOk result (λ n. bytes.new.items ≡ bytes.old.items ++ take n buf.new) }
    ensures rest { IfOk result (λ n. Consumes (I.device input.old).bytes (I.device input.new).bytes (take n buf.new)) }
    ensures end { IfOk result (λ n. n ≡ 0 → 0 < length buf.new → IsAtEnd (I.device input.new).bytes) }
    ensures taken { TakesAtMost (length buf.old) (I.device input.old) (I.device input.new) }
    ensures count { MatchResult result (λ _. HasWorked (I.device input.old) (I.device input.new))
        (λ why. ReadStops why (I.device input.old) (I.device input.new)) }
{
    let n = input.read(buf)?;
    bytes.extend_from_slice(&buf[..n])?;
    Ok(n)
}
