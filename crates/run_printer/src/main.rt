// The run printer: a schedule from standard input, the text of its run to standard output.
#![tactic(auto)]

ghost use Rattle.std.specs.Prelude.{◌≡◌, ◌≤◌, ◌<◌, length, take, IfOk, OnOk, IfSome, EachIndex, slice_index};
ghost use Rattle.std.specs.Io.KnownBytes.{Appends, Consumes, IsAtEnd};
ghost use Rattle.std.proofs.lemmas.List.Edits.{sets};
ghost use Rattle.printer.specs.Text.{longest_text};
ghost use Rattle.printer.specs.Printing.{text};

use std::io::{self, Read, Write};

// Buffers have a fixed length, with no heap. One byte past the longest schedule decides the answer for anything longer.
const MOST_INPUT: usize = 36_873;

// No text is longer.
const MOST_OUTPUT: usize = 163_859;

// Puts the text of the bytes into a buffer that no text is too long for, and gives its length.
fn print_text(output: &mut [u8], bytes: &[u8]) -> usize
    requires { longest_text ≤ length output.old }
    ensures { (result ≡ length (text bytes.now))
        × (output.new ≡ sets output.old 0 (text bytes.now)) }
{
    printer::print(output, bytes).unwrap_or(0)
}

// Reads on until the input ends or the buffer is full, and gives how many bytes the buffer begins with. No method of `Read` does: `read_exact` fails where the input ends, and `read_to_end` needs a heap.
fn read_full<R: Read>(input: &mut R, buffer: &mut [u8]) -> io::Result<usize>
    ensures within { IfOk result (λ n. n ≤ length buffer.new) }
    ensures bytes { IfOk result (λ n. Consumes (R.remaining input.old) (R.remaining input.new) (take n buffer.new)) }
    ensures all { IfOk result (λ n. n < length buffer.new → IsAtEnd (R.remaining input.new)) }
{
    let mut got: usize = 0;
    while got < buffer.len() {
        let n = input.read(&mut buffer[got..])?;
        if n == 0 {
            return Ok(got);
        }
        got += n;
    }
    Ok(got)
}

// Reads a schedule into one buffer, puts the text of its run into the other, and writes it: the text of all bytes that there are to read.
fn run<R: Read, W: Write>(
    from: &mut R,
    to: &mut W,
    input: &mut [u8],
    output: &mut [u8],
) -> io::Result<()>
    requires most { length input.old ≡ MOST_INPUT }
    requires room { longest_text ≤ length output.old }
    ensures { OnOk result (IfSome (R.remaining from.old)
        (λ bytes. EachIndex bytes (λ k. slice_index bytes k < 256)
        → Appends (W.contents to.old) (W.contents to.new) (text bytes))) }
{
    let got = read_full(from, input)?;
    let length = print_text(output, &input[..got]);
    to.write_all(&output[..length])
}

fn main(rt: HostRuntime) -> io::Result<()> {
    let mut input = [0u8; MOST_INPUT];
    let mut output = [0u8; MOST_OUTPUT];
    run(&mut rt.stdin(), &mut rt.stdout(), &mut input, &mut output)
}
