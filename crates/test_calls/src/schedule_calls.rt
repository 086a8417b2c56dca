// The schedule. Each call gives 0 or the refusal's number, and on a refusal the lent cells keep what they held.
ghost use Rattle.std.specs.Prelude.{◌≡◌};
ghost use Rattle.numbers.specs.Coding.{written_next};
ghost use Rattle.forms.specs.Forms.{room_no, into_room, after_room};
ghost use Rattle.schedule.specs.Schedule.{read_schedule, schedule_answer, schedule_written_no, schedule_written, after_schedule, schedule_header};
ghost use Rattle.test_calls.specs.Words.{sizes_of};

use crate::give;
use sizes::Sizes;

// The six numbers of the header go to `header`.
#[tactic(auto, unfolding(schedule::specs::Schedule::numbers_of))]
#[unsafe(no_mangle)]
pub extern "C" fn test_read_schedule(room: &mut [u64], bytes: &[u8], header: &mut [u16; 6]) -> u8
    ensures { (result ≡ room_no (read_schedule bytes.now) room.old)
        × (room.new ≡ after_room (read_schedule bytes.now) room.old)
        × (header.new ≡ schedule_header (schedule_answer (into_room (read_schedule bytes.now) room.old)) header.old) }
{
    match schedule::read_schedule(room, bytes) {
        Ok(h) => {
            let z = h.sizes;
            *header = [
                z.proposers,
                z.acceptors,
                z.learners,
                z.slots,
                z.scans,
                h.events,
            ];
            0
        }
        Err(refusal) => u8::from(refusal),
    }
}

#[unsafe(no_mangle)]
pub extern "C" fn test_write_schedule(
    buffer: &mut [u8],
    fields: &[u64],
    sizes: &[u16; 5],
    next: &mut usize,
) -> u8
    ensures { (result ≡ schedule_written_no (sizes_of sizes.now) fields.now buffer.old)
        × (buffer.new ≡ after_schedule (sizes_of sizes.now) fields.now buffer.old)
        × (next.new ≡ written_next (schedule_written (sizes_of sizes.now) fields.now buffer.old) next.old) }
{
    let z = Sizes {
        proposers: sizes[0],
        acceptors: sizes[1],
        learners: sizes[2],
        slots: sizes[3],
        scans: sizes[4],
    };
    give(schedule::write_schedule(buffer, z, fields), next)
}
