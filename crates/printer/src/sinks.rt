// Where a text goes, part by part: into a buffer, or into a count of its bytes. `fmt::Write` and `Display` say nothing of a write that fails, and `print` promises its answer for every input.
ghost use Rattle.std.specs.Prelude.{◌≡◌, [], ◌++◌, ◌+◌, ◌-◌, ◌^◌, List, ℕ, min, length, ⊤};
ghost use Rattle.text.specs.Digits.{decimal};
ghost use Rattle.printer.specs.Text.{set_width, set_text};

use sets::scans::Scans;

pub(crate) trait Sink {
    // What a text adds.
    ghost adds: { List ℕ → Self → Self → Type 0 };

    fn word(&mut self, word: &[u8])
        ensures { adds word.now self.old self.new };

    fn number(&mut self, value: u64)
        ensures { adds (decimal value) self.old self.new };

    // A set of a run of so many scans.
    fn set(&mut self, scans: u16, set: Scans)
        ensures { adds (set_text scans set) self.old self.new };

    ghost none: { (a : Self) → adds [] a a };

    // A text and then another are one.
    ghost joined: { (t u : List ℕ) (a b c : Self) → adds t a b → adds u b c → adds (t ++ u) a c };
}

// What adds its text to any sink.
pub(crate) trait Text {
    ghost text: { Self → List ℕ };

    // What the text asks for.
    ghost can_add: { Self → Type 0 } = { λ _. ⊤ };

    fn add<S: Sink>(&self, to: &mut S)
        requires { can_add self.now }
        ensures { S.adds (text self.now) to.old to.new };
}

// How many digits a set has in a run of so many scans.
#[tactic(auto, unfolding(crate::specs::Text::set_width))]
fn set_width(scans: u16) -> usize
    ensures { result ≡ set_width scans }
{
    16
}

// A count of bytes.
#[derive(Clone, Copy, Debug, PartialEq, Eq, Hash)]
pub(crate) struct Count {
    pub bytes: usize,
}

impl Count {
    fn add(&mut self, n: usize)
        ensures { self.new.bytes ≡ min (2 ^ 64 - 1) (self.old.bytes + n) }
    {
        self.bytes = self.bytes.saturating_add(n);
    }
}

impl Sink for Count {
    ghost use Rattle.printer.specs.Sinks.{AddsToCount};
    ghost use Rattle.printer.specs.Sinking.{counts_none, counts_joined};

    ghost adds = { AddsToCount };

    fn word(&mut self, word: &[u8]) {
        self.add(word.len());
    }

    fn number(&mut self, value: u64) {
        self.add(text::decimal_width(value));
    }

    fn set(&mut self, scans: u16, set: Scans) {
        self.add(set_width(scans));
    }

    ghost none = { counts_none };

    ghost joined = { counts_joined };
}

// A buffer, and the place after what stands in it. What would stand past its end is left out.
#[derive(Drop)]
pub(crate) struct Page<'a> {
    pub buffer: &'a mut [u8],
    pub at: usize,
}

impl Page<'_> {
    fn pass(&mut self, n: usize)
        ensures same { self.new.buffer.ghost_name ≡ self.old.buffer.ghost_name }
        ensures bytes { self.new.buffer.now ≡ self.old.buffer.now }
        ensures place { self.new.at ≡ self.old.at + min n (length self.old.buffer.now - self.old.at) }
    {
        self.at += n.min(self.buffer.len().saturating_sub(self.at));
    }
}

impl Sink for Page<'_> {
    ghost use Rattle.printer.specs.Sinks.{AddsToPage};
    ghost use Rattle.printer.specs.Sinking.{adds_none, adds_joined};

    ghost adds = { AddsToPage };

    fn word(&mut self, word: &[u8]) {
        text::put_word(self.buffer, self.at, word);
        self.pass(word.len());
    }

    fn number(&mut self, value: u64) {
        text::put_decimal(self.buffer, self.at, value);
        self.pass(text::decimal_width(value));
    }

    fn set(&mut self, scans: u16, set: Scans) {
        text::put_hex(self.buffer, self.at, u64::from(set));
        self.pass(set_width(scans));
    }

    ghost none = { adds_none };

    ghost joined = { adds_joined };
}
