//! Writing a text to a sink, as far as it takes it.
ghost use Rattle.std.specs.Prelude.{OnOk};
ghost use Rattle.wm_io.specs.Writing.{IsAppended, WriteCause};
ghost use Rattle.wm_ended.specs.Ended.{IsPartAppended};

use wm_io::{Sink, WriteFault, write_front};

/// Writes a text to a sink: all of it, or a front of it where the sink fails or memory is refused.
pub(crate) fn write_text<W: Sink>(sink: &mut W, text: &[u8]) -> Result<(), WriteFault>
    ensures front { IsPartAppended (W.given sink.old) (W.given sink.new) text.now }
    ensures all { OnOk result (IsAppended (W.given sink.old) (W.given sink.new) text.now) }
    ensures cause { WriteCause result (W.faults sink.old) (W.faults sink.new) }
{
    write_front(sink, text).1
}
