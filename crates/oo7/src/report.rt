//! How a command's end is told.
ghost use Rattle.std.specs.Prelude.{◌≡◌, Bool};
ghost use Rattle.oo7.specs.Output.{Delivers, printed_of, status_of};

use crate::refusal::Refusal;
use oo7_dump::Text;
use pm3_disk::Sink;

/// What a report came to: the status, and whether the sink has taken all that was printed.
#[derive(Clone, Copy)]
pub struct Reported {
    pub status: u8,
    pub is_taken: bool,
}

/// Prints the text of an outcome, or the line of a refusal. A text that the sink doesn't take whole has the status 7.
pub fn report<K: Sink>(sink: &mut K, outcome: &Result<Option<Text>, Refusal>) -> Reported
    ensures status { result.status ≡ status_of result.is_taken outcome.now }
    ensures output { Delivers K.Sink result.is_taken (printed_of outcome.now) sink.old sink.new }
{
    match outcome {
        Ok(None) => Reported {
            status: 0,
            is_taken: true,
        },
        Ok(Some(text)) => {
            let is_taken = print(sink, text.bytes());
            let status = if is_taken { 0 } else { SINK_FAILED };
            Reported { status, is_taken }
        }
        Err(refusal) => {
            let is_taken = print(sink, refusal.line().as_str().as_bytes());
            let status = refusal.status();
            Reported { status, is_taken }
        }
    }
}

/// The status where the sink failed.
const SINK_FAILED: u8 = 7;

/// Hands bytes to the sink, piece by piece, and tells whether it has taken them all.
fn print<K: Sink>(sink: &mut K, bytes: &[u8]) -> bool
    ensures output { Delivers K.Sink result bytes.now sink.old sink.new }
{
    let mut done = 0;
    while done < bytes.len() {
        let (_, rest) = bytes.split_at(done);
        match sink.write(rest) {
            Ok(0) => return false,
            Ok(count) => done += count,
            Err(_) => return false,
        }
    }
    true
}
