//! The text, written to a sink.
ghost use Rattle.std.specs.Prelude.{◌≡◌, ◌≤◌, ◌++◌, [], Err, IsTrue, OnOk, OnErr, IfOk};
ghost use Rattle.gr_io.specs.Counts.{Rose};
ghost use Rattle.gr_io.specs.Parts.{AppendsPart};
ghost use Rattle.design_maker.specs.Ranges.{IsMade};
ghost use Rattle.design_maker.specs.Nets.{nets_of, count_of};
ghost use Rattle.design_maker.specs.Texts.{text_of};

use crate::draws::Draws;
use crate::head::put_head;
use crate::made::Made;
use crate::middles::write_middles;
use crate::nets::put_net;
use crate::text::put_end;
use gr_io::Sink;
use gr_text::Text;
use route_writer::WriteError;
use std::alloc::Global;

/// How many nets a design has, and how many pins these have together.
#[derive(Clone, Copy, Debug, PartialEq, Eq)]
pub struct Count {
    pub nets: u32,
    pub pins: u32,
}

/// The lines are written once they fill so many bytes.
const FULL: usize = 65_536;

/// Writes the text of a made design, which is that of `made_text`, and answers how many nets and
/// pins it has. `Failed` comes only where the sink's count of faults rose. At an error the sink
/// holds a first part of the text, and no more. Of the text at most a net's lines over 64 KiB are in
/// memory at once.
pub fn make<K: Sink>(alloc: Global, sink: &mut K, made: Made) -> Result<Count, WriteError>
    requires { IsMade made }
    ensures ok { OnOk result (IsTrue K.tells → K.written sink.new ≡ K.written sink.old ++ text_of made) }
    ensures count { IfOk result (λ count. count ≡ count_of (nets_of made)) }
    ensures quiet { OnOk result (K.faults sink.new ≡ K.faults sink.old) }
    ensures prefix { OnErr result
        (IsTrue K.tells → AppendsPart (K.written sink.old) (K.written sink.new) (text_of made)) }
    ensures failed { result ≡ Err WriteError.Failed → Rose (K.faults sink.old) (K.faults sink.new) }
    ensures no_memory { result ≡ Err WriteError.NoMemory → K.faults sink.new ≡ K.faults sink.old }
    ensures faults_kept { K.faults sink.old ≤ K.faults sink.new }
{
    let middles = write_middles(alloc, made)?;
    let mut text = Text::new(alloc);
    let mut draws = Draws::of(made.seed);
    let mut pins = 0;
    put_head(&mut text, made)?;
    for net in 0..made.nets {
        let more = put_net(&mut text, made, &middles, net, &mut draws)?;
        pins += more;
        if text.bytes().len() < FULL {
            continue;
        }
        text.flush(sink)?;
    }
    put_end(&mut text)?;
    text.flush(sink)?;
    Ok(Count {
        nets: made.nets,
        pins,
    })
}
