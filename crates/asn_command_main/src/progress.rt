//! Shows how far a stream is.
use asn_lines::Progress;
use std::time::Instant;

/// Shows lines on standard error: how many are done, how many of them are refused, and how many are
/// done a second. It shows them at most once a second, and not in the first one.
#[derive(Drop)]
pub struct Meter<'r> {
    /// Gives the clock and standard error.
    rt: &'r HostRuntime,
    /// Is when the stream began, or nothing where there is no clock or nothing is to be shown.
    began: Option<Instant>,
    /// Counts the whole seconds after which lines were shown last.
    shown: u64,
    /// Counts the refusals that stood before what was shown last, if anything was.
    refused: Option<u64>,
}

impl<'r> Meter<'r> {
    /// Returns a meter that begins now, or one that shows nothing.
    pub fn new(rt: &'r HostRuntime, is_wanted: bool) -> Meter<'r> {
        let began = if is_wanted {
            Instant::now(rt).ok()
        } else {
            None
        };
        Meter {
            rt,
            began,
            shown: 0,
            refused: None,
        }
    }

    /// Returns the whole seconds since the stream began, where lines are due.
    fn due(&self) -> Option<u64> {
        let began = self.began?;
        let seconds = began.elapsed(self.rt).ok()?.as_secs();
        if seconds > self.shown {
            Some(seconds)
        } else {
            None
        }
    }
}

impl Progress for Meter<'_> {
    fn show(&mut self, lines: u64, refused: u64) {
        if let Some(seconds) = self.due() {
            // Where nothing was written since, the line takes the place of the last one.
            let front = if self.refused == Some(refused) {
                "\x1b[A\x1b[K"
            } else {
                ""
            };
            let rate = lines.checked_div(seconds).unwrap_or(0);
            self.shown = seconds;
            self.refused = Some(refused);
            // That it can't be shown is no reason to stop.
            let _shown = eprintln!(self.rt;
                "{front}asn: {lines} lines, {refused} refused, {rate}/s"
            );
        }
    }
}
