ghost use Rattle.std.specs.Prelude.{◌≡◌, ◌≤◌, OnOk, OnErr};
ghost use Rattle.lz_outside.specs.Faults.{Rose};
ghost use Rattle.lz_outside.specs.Files.{Changes, KeepsOthers};
ghost use Rattle.lz_outside.specs.Written.{Gains, GainsPrefix};

use crate::folder::{Failed, Folder};
use crate::sink::Sink;

/// Puts all the bytes into the sink, in order, a piece at a time. It takes no memory. It fails only
/// where a write failed, and the sink has then a front of the bytes more than before.
pub fn write_all<O: Sink>(sink: &mut O, bytes: &[u8]) -> Result<(), Failed>
    ensures gains { OnOk result (Gains (O.written sink.old) (O.written sink.new) bytes.now) }
    ensures calm { OnOk result (O.faults sink.new ≡ O.faults sink.old) }
    ensures failed { OnErr result (Rose (O.faults sink.old) (O.faults sink.new)) }
    ensures front { OnErr result (GainsPrefix (O.written sink.old) (O.written sink.new) bytes.now) }
    ensures counts { O.faults sink.old ≤ O.faults sink.new }
{
    let mut done = 0;
    while done < bytes.len() {
        done += sink.put(&bytes[done..])?;
    }
    Ok(())
}

/// Makes the named file hold exactly the bytes, a piece at a time, and makes it where no file has the
/// name. It takes no memory. It fails only where a write failed; the named file may then hold anything,
/// or be absent. Other files stay.
pub fn write_file<F: Folder>(folder: &mut F, name: &str, bytes: &[u8]) -> Result<(), Failed>
    ensures changes { OnOk result (Changes (F.files folder.old) (F.files folder.new) name.now bytes.now) }
    ensures calm { OnOk result (F.write_faults folder.new ≡ F.write_faults folder.old) }
    ensures failed { OnErr result (Rose (F.write_faults folder.old) (F.write_faults folder.new)) }
    ensures others { OnErr result (KeepsOthers (F.files folder.old) (F.files folder.new) name.now) }
    ensures counts { F.write_faults folder.old ≤ F.write_faults folder.new }
    ensures same_reads { F.read_faults folder.new ≡ F.read_faults folder.old }
{
    folder.begin(name)?;
    let mut added = 0;
    while added < bytes.len() {
        added += folder.append_piece(name, &bytes[added..])?;
    }
    Ok(())
}
