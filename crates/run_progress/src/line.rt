//! The text of the line.
use arrayvec::ArrayString;
use std::fmt::Write;

/// The most columns of the line.
const COLUMNS: usize = 78;

/// The most bytes that take the line away, or write it anew: the line and two controls of the terminal.
const BYTES: usize = 84;

/// Takes away the line that the cursor stands in.
pub(crate) const NO_LINE: &str = "\r\x1b[K";

/// Where a run is.
#[derive(Clone, Copy)]
pub(crate) enum Stage {
    /// In round 0, of which nobody says before its end how many nets it has.
    First,
    /// In a later round, behind a mark that was answered with this overflow, for so many nets.
    Later {
        round: u32,
        overflow: u128,
        due: u64,
    },
    /// Behind the last round.
    Over {
        round: u32,
        overflow: u128,
    },
}

/// What rewrites the line: where the run is, of how many rounds at most, how many nets of the round were
/// begun, and seconds since the run began. What has no room in the line is left out.
pub(crate) fn line(stage: Stage, rounds: u32, begun: u64, seconds: u64) -> ArrayString<BYTES> {
    let mut text = ArrayString::<COLUMNS>::new();
    let _room = put_stage(&mut text, stage, rounds, begun, seconds);
    let mut line = ArrayString::new();
    let _room = write!(line, "\r{text}\x1b[K");
    line
}

fn put_stage(
    text: &mut ArrayString<COLUMNS>,
    stage: Stage,
    rounds: u32,
    begun: u64,
    seconds: u64,
) -> std::fmt::Result {
    match stage {
        Stage::First => write!(text, "round 0 of {rounds}: {begun} nets begun, {seconds} s"),
        Stage::Later {
            round,
            overflow,
            due,
        } => {
            write!(text, "round {round} of {rounds}: overflow {overflow}")?;
            write!(text, ", {begun} of {due} nets begun, {seconds} s")
        }
        Stage::Over { round, overflow } => {
            write!(text, "round {round} of {rounds} ended: overflow {overflow}")?;
            write!(text, "; buffers and texts, {seconds} s")
        }
    }
}
