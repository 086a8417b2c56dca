// The number coding. A limit is 0 for schedules, any other number for scan tables. Each call gives 0 or the refusal's number.
ghost use Rattle.std.specs.Prelude.{◌≡◌, length};
ghost use Rattle.choice.specs.Refusals.{no_in};
ghost use Rattle.numbers.specs.Coding.{read_number, form, number_written_no, number_written, after_number, read_value, read_next, written_next};
ghost use Rattle.test_calls.specs.Words.{limit_of};

use crate::give;
use numbers::Limit;

// It is no `From`, since neither type is of this crate.
fn limit_of(limit: u32) -> Limit
    ensures { result ≡ limit_of limit }
{
    match limit {
        0 => Limit::Schedule,
        _ => Limit::Table,
    }
}

#[unsafe(no_mangle)]
pub extern "C" fn test_read_number(
    bytes: &[u8],
    at: usize,
    limit: u32,
    value: &mut u64,
    next: &mut usize,
) -> u8
    ensures { (result ≡ no_in (read_number (limit_of limit) bytes.now at))
        × (value.new ≡ read_value (read_number (limit_of limit) bytes.now at) value.old)
        × (next.new ≡ read_next (read_number (limit_of limit) bytes.now at) next.old) }
{
    match numbers::read_number(bytes, at, limit_of(limit)) {
        Ok(number) => {
            *value = number.value;
            *next = number.next;
            0
        }
        Err(refusal) => u8::from(refusal),
    }
}

#[unsafe(no_mangle)]
pub extern "C" fn test_number_width(value: u64) -> usize
    ensures { result ≡ length (form value) }
{
    numbers::width(value)
}

#[unsafe(no_mangle)]
pub extern "C" fn test_write_number(
    buffer: &mut [u8],
    at: usize,
    value: u64,
    limit: u32,
    next: &mut usize,
) -> u8
    ensures { (result ≡ number_written_no (limit_of limit) value buffer.old at)
        × (buffer.new ≡ after_number (limit_of limit) value buffer.old at)
        × (next.new ≡ written_next (number_written (limit_of limit) value buffer.old at) next.old) }
{
    give(
        numbers::write_number(buffer, at, value, limit_of(limit)),
        next,
    )
}
