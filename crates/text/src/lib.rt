// Words, decimal numbers and hex digits put into a buffer from a place on. What would stand past the buffer's end is left out, which `fmt::Write` and `Display` do not promise.
#![tactic(auto)]

ghost use Rattle.std.specs.Prelude.{◌≡◌, ◌<◌, ◌≤◌, length};
ghost use Rattle.std.proofs.lemmas.List.Edits.{sets};
ghost use Rattle.text.specs.Digits.{digit, digits_of, decimal, hex};

pub fn put_word(buffer: &mut [u8], at: usize, word: &[u8])
    ensures { buffer.new ≡ sets buffer.old at word.now }
{
    let start = buffer.len().min(at);
    let room = &mut buffer[start..];
    put_first(room, word)
}

// As many bytes of a word as there is room for, one by one: a copy between slices asks the C library for `memmove`.
fn put_first(room: &mut [u8], word: &[u8])
    ensures { room.new ≡ sets room.old 0 word.now }
{
    for i in 0..room.len().min(word.len()) {
        room[i] = word[i];
    }
}

// The byte of a digit.
fn digit_byte(value: u64) -> u8
    requires { value < 16 }
    ensures { result ≡ digit value }
{
    if value < 10 {
        b'0' + value as u8
    } else {
        b'a' + (value - 10) as u8
    }
}

// The last digits of a number in a base, as many as there is room for.
fn find_digits<const BASE: u64>(digits: &mut [u8], value: u64)
    requires { (2 ≤ BASE) × (BASE ≤ 16) }
    ensures { digits.new ≡ digits_of BASE (length digits.old) value }
{
    let mut rest = value;
    for place in (0..digits.len()).rev() {
        digits[place] = digit_byte(rest % BASE);
        rest /= BASE;
    }
}

// How many digits a decimal number has.
pub fn decimal_width(value: u64) -> usize
    ensures { result ≡ length (decimal value) }
{
    let mut width: usize = 1;
    let mut rest = value;
    while 10 <= rest {
        rest /= 10;
        width += 1;
    }
    width
}

pub fn put_decimal(buffer: &mut [u8], at: usize, value: u64)
    ensures { buffer.new ≡ sets buffer.old at (decimal value) }
{
    // Room for the digits of any number: memory is fixed, with no heap.
    let mut room = [0; 20];
    let digits = &mut room[..decimal_width(value)];
    find_digits::<10>(digits, value);
    put_word(buffer, at, digits)
}

pub fn put_hex(buffer: &mut [u8], at: usize, value: u64)
    ensures { buffer.new ≡ sets buffer.old at (hex value) }
{
    let mut digits = [0; 16];
    find_digits::<16>(&mut digits, value);
    put_word(buffer, at, &digits)
}
