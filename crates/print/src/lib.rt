// Writes text to lent bytes, as far as there is room: words, numbers, lines, and the five lines of a call; and what was written to a writer.
#![tactic(auto)]

ghost use Rattle.std.specs.Prelude.{◌≡◌, ℕ, List, [], ◌∷◌, ◌++◌, ◌≤◌, ◌<◌, IsTrue, OnOk, is_ok, length, take};
ghost use Rattle.std.specs.Io.KnownBytes.{Appends};
ghost use Rattle.print.specs.Words.{word_answer, word_value, word_steps, word_free};
ghost use Rattle.print.specs.Print.{Written, decimal as decimal_is, field_line};

use io::decimal;
use std::io::Write;

// Puts a byte at this place, if there is room, and answers where the next one goes.
fn put(out: &mut [u8], at: usize, b: u8) -> usize
    ensures { (before text : List ℕ) → Written before out.old at text → Written before out.new result (text ++ (b ∷ [])) }
{
    if at < out.len() {
        out[at] = b;
        at + 1
    } else {
        at
    }
}

// A whole text, byte by byte, so that one that does not fit is cut off and not refused.
fn put_text(out: &mut [u8], at: usize, text: &[u8]) -> usize
    ensures { (before said : List ℕ)
        → Written before out.old at said
        → Written before out.new result (said ++ text.now) }
{
    let mut end = at;
    for byte in text {
        end = put(out, end, *byte);
    }
    end
}

// A page that is written from its start, as far as there is room, and how much of it was.
#[derive(Drop)]
pub struct Page<'a> {
    pub bytes: &'a mut [u8],
    pub said: usize,
}

impl Page<'_> {
    ghost use Rattle.print.specs.Page.{Says};

    // A whole text, or as much of it as fits.
    pub fn text(&mut self, text: &[u8])
        ensures { Says self.old self.new text.now }
    {
        self.said = put_text(self.bytes, self.said, text);
    }

    // A number in plain decimal: 20 bytes hold every one of 64 bits.
    pub fn number(&mut self, value: u64)
        ensures { Says self.old self.new (decimal_is value) }
    {
        let mut digits = [0u8; 20];
        let count = decimal(value, &mut digits);
        self.text(&digits[..count]);
    }

    // A line of a key and a number.
    pub fn field(&mut self, key: &[u8], value: u64)
        ensures { Says self.old self.new (field_line key.now value) }
    {
        self.text(key);
        self.number(value);
        self.text(b"\n");
    }

    // The five lines of a call.
    pub fn report(&mut self, op: &[u8], answer: u8, value: u32, steps: u32, free: u16)
        ensures { Says self.old self.new (
            op.now
            ++ field_line word_answer answer
            ++ field_line word_value value
            ++ field_line word_steps steps
            ++ field_line word_free free) }
    {
        self.text(op);
        self.field(b"answer=", answer as u64);
        self.field(b"value=", value as u64);
        self.field(b"steps=", steps as u64);
        self.field(b"free=", free as u64);
    }
}

// Writes the first `count` bytes, and nothing where there are fewer.
pub fn write_first<W: Write>(to: &mut W, s: &[u8], count: usize) -> std::io::Result<()>
    ensures first { count ≤ length s.now → OnOk result (Appends (W.contents to.old) (W.contents to.new) (take count s.now)) }
    ensures fewer { length s.now < count → (to.new ≡ to.old) × IsTrue (is_ok result) }
{
    if count <= s.len() {
        to.write_all(&s[..count])?;
    }
    Ok(())
}
