// Writing lines to a sink.
ghost use Rattle.std.specs.Prelude.{◌≤◌, OnOk, OnErr};
ghost use Rattle.std.specs.List.{concat};
ghost use Rattle.lint_outside.specs.Causes.{Rose};
ghost use Rattle.lint_outside.specs.Sinks.{Appends, AppendsPrefix};

use lint_base::{Sink, SinkFault, Text};

// Writes lines, one by one: each is one piece. After a fault nothing more is written.
pub(crate) fn write_lines<S: Sink>(sink: &mut S, lines: &[Text]) -> Result<(), SinkFault>
    ensures later { S.faults sink.old ≤ S.faults sink.new }
    ensures ok { OnOk result (Appends (S.written sink.old) (S.written sink.new) (concat lines.now)) }
    ensures cause { OnErr result (Rose (S.faults sink.old) (S.faults sink.new)) }
    ensures prefix { OnErr result (AppendsPrefix (S.written sink.old) (S.written sink.new) (concat lines.now)) }
{
    for line in lines {
        sink.write(line.as_str().as_bytes())?;
    }
    Ok(())
}
