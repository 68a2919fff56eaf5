//! Runs whose standard output or standard error fails after a count of bytes.

use crate::work::{Played, Work};
use test_scripts::failure::Failure;
use test_scripts::reported::Reported;

/// A stream that can fail.
#[derive(Clone, Copy)]
enum Stream {
    Out,
    Err,
}

impl Stream {
    /// What a run wrote to it.
    fn written<'a>(self, played: &'a Played<'_>) -> &'a [u8] {
        match self {
            Stream::Out => &played.out.written,
            Stream::Err => &played.err.written,
        }
    }

    /// Makes the run with this stream failing after so many bytes.
    fn broken<'a>(self, work: Work<'a>, room: usize) -> Result<Played<'a>, Failure> {
        match self {
            Stream::Out => work.played(room, usize::MAX),
            Stream::Err => work.played(usize::MAX, room),
        }
    }

    /// Prints that so many mailboxes are lent where this stream fails after so many bytes.
    fn report(self, reported: &mut Reported, room: usize, lent: usize) {
        reported.begin();
        reported.text(match self {
            Stream::Out => "out",
            Stream::Err => "err",
        });
        reported.text(" broken behind ");
        reported.number(room as u64);
        reported.text(": ");
        reported.number(lent as u64);
        reported.text(" lent");
        reported.end();
    }
}

/// Makes the run again with a standard output, and then a standard error, that fails after each count of bytes. Prints how many
/// mailboxes were lent, wherever that changes, and how many runs had another status than 1, or wrote or asked something else before.
pub(crate) fn break_each(work: Work<'_>, reported: &mut Reported) -> Result<(), Failure> {
    let whole = work.played(usize::MAX, usize::MAX)?;
    break_both(work, reported, &whole)
}

fn break_both(work: Work<'_>, reported: &mut Reported, whole: &Played<'_>) -> Result<(), Failure> {
    let out = break_stream(work, reported, whole, Stream::Out)?;
    let err = break_stream(work, reported, whole, Stream::Err)?;
    reported.begin();
    reported.text("others ");
    reported.number(out.saturating_add(err));
    reported.end();
    Ok(())
}

/// How many runs with this stream failing came to something else than the beginning of the whole one.
fn break_stream(
    work: Work<'_>,
    reported: &mut Reported,
    whole: &Played<'_>,
    stream: Stream,
) -> Result<u64, Failure> {
    let mut others = 0u64;
    let mut lent = usize::MAX;
    for room in 0..stream.written(whole).len() {
        let broken = stream.broken(work, room)?;
        if !begins(whole, &broken, stream) {
            others = others.saturating_add(1);
        }
        if lent != broken.stores.boxes.len() {
            lent = broken.stores.boxes.len();
            stream.report(reported, room, lent);
        }
    }
    Ok(others)
}

/// Whether a broken run has the status 1, and a whole one begins as it: with what that wrote to this stream, and with what it asked the
/// stores.
fn begins(whole: &Played<'_>, broken: &Played<'_>, stream: Stream) -> bool {
    let (written, asked) = (stream.written(broken), broken.stores.asked.as_str());
    broken.status == 1
        && stream.written(whole).starts_with(written)
        && whole.stores.asked.as_str().starts_with(asked)
}
