// The record reader and the record writer.
ghost use Rattle.std.specs.Prelude.{◌≡◌};
ghost use Rattle.rules.specs.Refusals.{output_after};
ghost use Rattle.rules.specs.Entries.{record_answer, write_answer};
ghost use Rattle.exports.specs.Rings.{counted_face, parts_east, parts_north};

use crate::counts::{CountedC, counted};

#[unsafe(no_mangle)]
pub extern "C" fn nuoskelma_record(bytes: &[u8], east: &mut [i32], north: &mut [i32]) -> CountedC
    ensures answer { result ≡ counted_face (record_answer bytes.now east.old north.old) }
    ensures east { east.new ≡ output_after parts_east (record_answer bytes.now east.old north.old) east.old }
    ensures north { north.new ≡ output_after parts_north (record_answer bytes.now east.old north.old) north.old }
{
    counted(reader::read_record(bytes, east, north))
}

#[unsafe(no_mangle)]
pub extern "C" fn nuoskelma_write_record(
    version: u8,
    sense: u8,
    east: &[i32],
    north: &[i32],
    out: &mut [u8],
) -> CountedC
    ensures answer { result ≡ counted_face (write_answer version sense east.now north.now out.old) }
    ensures out { out.new ≡ output_after (λ bs. bs) (write_answer version sense east.now north.now out.old) out.old }
{
    counted(writer::write_record(version, sense, east, north, out))
}
