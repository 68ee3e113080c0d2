// What the check says of dates.
ghost use Rattle.std.specs.Prelude.{◌≡◌, OnOk};

use crate::following::Followed;
use arbiter::Arbiter;
use date_check::{Dates, Refusal, check};
use std::io;

fn tell(rt: &impl Print, what: &str, verdict: Result<(), Refusal>) -> io::Result<()> {
    match verdict {
        Ok(()) => println!(rt;
            "  {what}: the check passes the dates of all tasks, they are sound (check)."
        ),
        Err(refusal) => println!(rt; "  {what}: refused with {refusal}."),
    }
}

impl Followed<'_> {
    // Tells what the check says of the dates as they are, with this task released one cycle earlier, and with one cycle less for it.
    // Where printing fails, the dates may stay changed.
    pub fn tell_verdicts<A: Arbiter>(
        &self,
        rt: &impl Print,
        arbiters: &[A],
        dates: &mut [Dates],
        words: [&str; 3],
    ) -> io::Result<()>
        ensures kept { OnOk result (dates.new ≡ dates.old) }
    {
        let [whole, early, short] = words;
        tell(rt, whole, check(self.plan, arbiters, dates))?;
        let Some(&kept) = dates.get(self.row) else {
            return Ok(());
        };
        dates[self.row] = Dates {
            release: kept.release.saturating_sub(1),
            ..kept
        };
        tell(rt, early, check(self.plan, arbiters, dates))?;
        dates[self.row] = Dates {
            response: kept.response.saturating_sub(1),
            ..kept
        };
        tell(rt, short, check(self.plan, arbiters, dates))?;
        dates[self.row] = kept;
        Ok(())
    }
}
