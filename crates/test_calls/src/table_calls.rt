// The scan table. Each call gives 0 or the refusal's number, and on a refusal the lent cells keep what they held.
ghost use Rattle.std.specs.Prelude.{◌≡◌};
ghost use Rattle.numbers.specs.Coding.{written_next};
ghost use Rattle.forms.specs.Forms.{room_no, into_room, after_room};
ghost use Rattle.scan_table.specs.Table.{read_table, table_answer, table_written_no, table_written, after_table, table_scans};

use crate::give;

#[unsafe(no_mangle)]
pub extern "C" fn test_read_table(room: &mut [u64], bytes: &[u8], scans: &mut usize) -> u8
    ensures { (result ≡ room_no (read_table bytes.now) room.old)
        × (room.new ≡ after_room (read_table bytes.now) room.old)
        × (scans.new ≡ table_scans (table_answer (into_room (read_table bytes.now) room.old)) scans.old) }
{
    give(scan_table::read_table(room, bytes), scans)
}

#[unsafe(no_mangle)]
pub extern "C" fn test_write_table(buffer: &mut [u8], fields: &[u64], next: &mut usize) -> u8
    ensures { (result ≡ table_written_no fields.now buffer.old)
        × (buffer.new ≡ after_table fields.now buffer.old)
        × (next.new ≡ written_next (table_written fields.now buffer.old) next.old) }
{
    give(scan_table::write_table(buffer, fields), next)
}
