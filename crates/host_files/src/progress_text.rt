//! The text of the progress line.
use arrayvec::ArrayString;
use itoa::Buffer;

/// The longest line has some hundred bytes, and those that control the terminal.
pub(crate) type Line = ArrayString<160>;

const MILLIS_A_SECOND: u64 = 1000;

const SECONDS_A_MINUTE: u64 = 60;

const MINUTES_AN_HOUR: u64 = 60;

/// The progress of a campaign. Of `jobs` in all, `kept` are in a file, if there is one. `due` of them were to be
/// run when it began, and `ran` of those have been run since, in `millis` milliseconds.
#[derive(Clone, Copy)]
pub(crate) struct Reached {
    pub jobs: u64,
    pub kept: Option<u64>,
    pub due: u64,
    pub ran: u64,
    pub millis: u64,
}

impl Reached {
    // Returns the jobs per second.
    fn rate(self) -> u64 {
        self.ran.saturating_mul(MILLIS_A_SECOND) / self.millis.max(1)
    }

    // Returns the seconds that the remaining jobs will take at the rate so far.
    fn seconds_left(self) -> u64 {
        self.due
            .saturating_sub(self.ran)
            .saturating_mul(self.millis)
            / self.ran.max(1)
            / MILLIS_A_SECOND
    }

    /// Returns the line, which is drawn over the one before it. A terminal that is narrower shows the beginning.
    pub(crate) fn line(self) -> Line {
        let mut line = Line::new();
        push(&mut line, START);
        push_number(&mut line, self.kept.unwrap_or(self.ran));
        push(&mut line, " of ");
        push_number(&mut line, self.jobs);
        push(&mut line, " jobs");
        if self.kept.is_some() {
            push(&mut line, " kept");
        }
        push(&mut line, ", ");
        push_number(&mut line, self.rate());
        push(&mut line, " a second, ");
        push_time(&mut line, self.seconds_left());
        push(&mut line, " left");
        push(&mut line, REST);
        line
    }
}

/// Erases the line from its beginning.
pub(crate) const ERASE: &str = "\r\x1b[K";

// Begins the line again. What does not fit into the terminal's width is cut off, and does not begin a second line,
// which could not be erased.
const START: &str = "\r\x1b[?7l";

// Erases what an older line has after this one, and lets long lines go on below again.
const REST: &str = "\x1b[K\x1b[?7h";

// Appends a text. What does not fit is dropped.
fn push(line: &mut Line, text: &str) {
    let _ = line.try_push_str(text);
}

fn push_number(line: &mut Line, number: u64) {
    let mut buffer = Buffer::new();
    push(line, buffer.format(number));
}

// Appends a time by its two greatest units.
fn push_time(line: &mut Line, seconds: u64) {
    let minutes = seconds / SECONDS_A_MINUTE;
    let hours = minutes / MINUTES_AN_HOUR;
    if hours > 0 {
        push_number(line, hours);
        push(line, " h ");
        push_number(line, minutes % MINUTES_AN_HOUR);
        push(line, " min");
    } else if minutes > 0 {
        push_number(line, minutes);
        push(line, " min ");
        push_number(line, seconds % SECONDS_A_MINUTE);
        push(line, " s");
    } else {
        push_number(line, seconds);
        push(line, " s");
    }
}
