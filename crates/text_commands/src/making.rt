//! The command that writes a made design.
ghost use Rattle.std.specs.Prelude.{◌≡◌, IfOk};
ghost use Rattle.design_maker.specs.Nets.{nets_of, count_of};
ghost use Rattle.design_maker.specs.Ranges.{IsMade};
ghost use Rattle.design_maker.specs.Texts.{text_of};
ghost use Rattle.gr_io.specs.Devices.{device_of};
ghost use Rattle.command_form.specs.Leaving.{IsWritten, LeavesApart};
ghost use Rattle.text_commands.specs.Making.{counts_text, making};

use command_form::{Left, Outcome, Stop};
use design_maker::{Count, Made, make};
use gr_io::{Sink, write_whole};
use gr_text::Text;
use route_writer::WriteError;
use std::alloc::{AllocError, Global};

/// Carries out `make`: writes the text of a made design on out, and on err how many nets and pins it
/// has.
pub fn make_design<K, O: Sink, E: Sink>(
    alloc: Global,
    out: &mut O,
    err: &mut E,
    made: Made,
) -> Left<K>
    requires { IsMade made }
    ensures { LeavesApart (making made)
        (device_of O.tells O.faults O.written out.old out.new)
        (device_of E.tells E.faults E.written err.old err.new)
        result.kept result.end }
{
    Left {
        end: write_design(alloc, out, err, made),
        kept: None,
        spent: None,
    }
}

/// Writes the text of a made design on out, and on err how many nets and pins it has.
fn write_design<O: Sink, E: Sink>(
    alloc: Global,
    out: &mut O,
    err: &mut E,
    made: Made,
) -> Result<Outcome, Stop>
    requires { IsMade made }
    ensures { IsWritten (text_of made) (counts_text (count_of (nets_of made)))
        (device_of O.tells O.faults O.written out.old out.new)
        (device_of E.tells E.faults E.written err.old err.new)
        result }
{
    let count = match make(alloc, out, made) {
        Ok(count) => count,
        Err(WriteError::Failed) => return Err(Stop::WriteFailed),
        Err(WriteError::NoMemory) => return Err(Stop::NoMemory),
    };
    let Ok(text) = counts_text(alloc, count) else {
        return Err(Stop::NoMemory);
    };
    match write_whole(err, text.bytes()) {
        Ok(()) => Ok(Outcome::Whole),
        Err(_) => Err(Stop::WriteFailed),
    }
}

/// The lines of the numbers of nets and pins. The only error is want of memory.
fn counts_text(alloc: Global, count: Count) -> Result<Text, AllocError>
    ensures { IfOk result (λ text. text ≡ counts_text count) }
{
    let mut text = Text::new(alloc);
    text.put_number_line(b"nets", u128::from(count.nets))?;
    text.put_number_line(b"pins", u128::from(count.pins))?;
    Ok(text)
}
