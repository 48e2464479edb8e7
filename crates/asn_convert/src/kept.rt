//! Replies with what is kept of a stream of values that is cut to what an older type knows.
ghost use Rattle.asn_convert.specs.Reports.{CanKeepAll, IsKeeping, IsKeepingRefusal};
ghost use Rattle.asn_module_reports.specs.Replies.{IsAnswered, IsReply};
ghost use Rattle.asn_samples.specs.Samples.{sample_shape};
ghost use Rattle.std.specs.Prelude.{IfOk};

use crate::report::keeping_report;
use asn_core::{Codec, OutOfMemory};
use asn_module_reports::Reply;
use asn_samples::Sample;
use std::alloc::Global;

/// Returns the lines of a stream of values of the newer sample type, each cut to what the older one
/// knows and written in JSON. It is a refusal with what else `keeping_report` returns where not all
/// of them are kept, or the newer type is no later version of the older one.
///
/// # Errors
///
/// `OutOfMemory` alone.
pub fn keeping_reply(
    alloc: Global,
    from: Codec,
    old: Sample,
    new: Sample,
    stream: &str,
) -> Result<Reply, OutOfMemory>
    ensures reply { IfOk result (IsReply
        (IsKeeping from (sample_shape old) (sample_shape new) stream.now)
        (IsKeepingRefusal from (sample_shape old) (sample_shape new) stream.now)) }
    // A stream that can be kept whole is not refused.
    ensures complete { CanKeepAll from (sample_shape old) (sample_shape new) stream.now
        → IfOk result IsAnswered }
{
    let report = keeping_report(alloc, from, old, new, stream)?;
    if report.is_whole {
        Ok(Reply::Answer(report.text))
    } else {
        Ok(Reply::Refusal(report.text))
    }
}
