// The calls through which the comparison with the second program reaches the proved crates: numbers and byte slices, as C passes them, and a refusal's number, or 0.
// Each call has its own exported name, so calls that differ in a type alone stand one beside the other.
#![tactic(auto)]

ghost use Rattle.std.specs.Prelude.{◌≡◌};
ghost use Rattle.choice.specs.Refusals.{numbered, no};
ghost use Rattle.test_calls.specs.Words.{value_or};

use choice::refusals::Refusal;

pub mod number_calls;
pub mod schedule_calls;
pub mod set_calls;
pub mod shelf_calls;
pub mod table_calls;

// Puts the value of an answer into a lent cell, and gives the answer's number: 0, or the refusal's.
fn give<T: Copy>(answer: Result<T, Refusal>, cell: &mut T) -> u8
    ensures { (result ≡ no answer) × (cell.new ≡ value_or (numbered answer) cell.old) }
{
    match answer {
        Ok(value) => {
            *cell = value;
            0
        }
        Err(refusal) => u8::from(refusal),
    }
}
