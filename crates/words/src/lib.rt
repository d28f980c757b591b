// The result words of the C interface (RULES 13.3), but for that of a reception, which is in `answers`.
#![tactic(auto)]

pub mod laws;

ghost use Rattle.std.specs.Prelude.{◌≡◌, ◌^◌, ◌≤◌, ◌<◌};
ghost use Rattle.allocator.specs.Laws.{Range};
ghost use Rattle.answers.specs.Sending.{dispatch_in};
ghost use Rattle.batch.specs.Answer.{used_in};
ghost use Rattle.batch.specs.Layout.{records_max};
ghost use Rattle.capture_convert.specs.Answer.{length_in};
ghost use Rattle.judge_capture.specs.Answer.{frame_of};
ghost use Rattle.words.specs.Word.{many_word, sent_word, patch_word, allocation_word, signatures_word, conversion_word, verdict_word};

use allocator::answer::AllocateError;
use answers::{Dispatch, SendError};
use batch::BatchError;
use capture_convert::answer::ConvertError;
use judge_capture::verdict::Verdict;
use patch::PatchError;

// Internal. The result word of several receptions.
pub fn of_progress(a: Result<usize, BatchError>) -> u64
    requires { used_in a ≤ records_max }
    ensures { result ≡ many_word a }
{
    match a {
        Ok(n) => n as u64 * 0x100,
        Err(e) => e.number() as u64,
    }
}

// Internal. The result word of a send.
pub fn of_sent(a: Result<Dispatch, SendError>) -> u64
    requires { ((dispatch_in a).frames ≤ 74) × ((dispatch_in a).transfer < 32) }
    ensures { result ≡ sent_word a }
{
    match a {
        Ok(d) => d.frames as u64 * 0x100 + d.transfer as u64 * 0x80000000000000,
        Err(e) => e.number(),
    }
}

// Internal. The result word of a correction.
pub fn of_patched(a: Result<u16, PatchError>) -> u64
    ensures { result ≡ patch_word a }
{
    match a {
        Ok(c) => c as u64 * 0x100,
        Err(e) => e.number() as u64,
    }
}

// Internal. The result word of an allocator.
pub fn of_allocation(a: Result<Option<usize>, AllocateError>) -> u64
    requires { Range a }
    ensures { result ≡ allocation_word a }
{
    match a {
        Ok(None) => 0,
        Ok(Some(len)) => len as u64 * 0x100,
        Err(e) => e.number() as u64,
    }
}

// Internal. The result word of signatures.
pub fn of_signatures(a: dsdl_signature::answer::Answer) -> u64
    ensures { result ≡ signatures_word a }
{
    match a {
        Ok(()) => 0,
        Err(e) => e.number() as u64 + (e.definition() as u64 * 0x100 + e.line() as u64 * 0x10000),
    }
}

// Internal. The result word of a conversion.
pub fn of_converted(a: Result<usize, ConvertError>) -> u64
    requires { length_in a < 2 ^ 38 }
    ensures { result ≡ conversion_word a }
{
    match a {
        Ok(len) => len as u64 * 0x100,
        Err(e) => e.number(),
    }
}

// Internal. The result word of a verdict.
pub fn of_verdict(a: Verdict) -> u64
    requires { frame_of a < 2 ^ 32 }
    ensures { result ≡ verdict_word a }
{
    match a {
        Ok(()) => 0,
        Err(e) => e.number() as u64 + e.frame() as u64 * 0x100,
    }
}
