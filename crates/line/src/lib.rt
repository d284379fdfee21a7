// The line that `admit` writes of a verdict.
#![tactic(auto)]

ghost use Rattle.std.specs.Prelude.{◌≡◌, [], ◌∷◌, ◌++◌, ◌+◌, ◌<◌, ◌≤◌, length};
ghost use Rattle.line.specs.Line.{digits_in, decimal, newline, accepted_line, refused_line, line_of};

use answers::Verdict;
use std::marker::Model;

// A line so far, of at most 96 bytes: no heap is asked. Clauses see its bytes. Behind them stand zeros, so that these bytes tell all of the line, and it may be
// copied.
#[derive(Clone, Copy)]
pub struct Line {
    bytes: [u8; 96],
    len: usize,
}

impl Model for Line {
    ghost use Rattle.std.specs.Prelude.{ℕ, List, ◌++◌, ◌-◌, length, take, replicate};
    ghost use Rattle.line.specs.Bytes.{ZerosBehind, text_long, text_and_zeros};

    ghost Value = { List ℕ };

    ghost view = { λ l. take l.len l.bytes };

    ghost invariant = { λ l. ZerosBehind l.len l.bytes };

    ghost inverse = { λ t. record { bytes = t ++ replicate (96 - length t) 0; len = length t } };

    ghost inverse_ok = { λ l h i. record {
      bytes = text_and_zeros l.len l.bytes h i;
      len = text_long l.len l.bytes h i;
    } };
}

impl Line {
    fn new() -> Line
        ensures { result ≡ [] }
    {
        Line {
            bytes: [0; 96],
            len: 0,
        }
    }

    pub fn as_bytes(&self) -> &[u8]
        ensures value { result.now ≡ self.now }
        ensures at_most { length self.now ≤ 96 }
    {
        &self.bytes[..self.len]
    }

    fn push(&mut self, b: u8)
        requires { length self.old < 96 }
        ensures { self.new ≡ self.old ++ b ∷ [] }
    {
        self.bytes[self.len] = b;
        self.len += 1;
    }

    fn text(&mut self, words: &[u8])
        requires { length self.old + length words.now ≤ 96 }
        ensures { self.new ≡ self.old ++ words.now }
    {
        for b in words {
            self.push(*b);
        }
    }

    // The last k digits of n at most.
    fn digits(&mut self, k: usize, n: u64)
        requires { length self.old + k ≤ 96 }
        ensures { self.new ≡ self.old ++ digits_in k n }
    {
        if k == 0 {
            return;
        }
        if 10 <= n {
            self.digits(k - 1, n / 10);
        }
        self.push(48 + (n % 10) as u8);
    }

    // The words, then the number in decimal.
    fn number_after(&mut self, words: &[u8], n: u64)
        requires { length self.old + length words.now + 20 ≤ 96 }
        ensures text { self.new ≡ self.old ++ words.now ++ decimal n }
        ensures at_most { length self.new ≤ length self.old + length words.now + 20 }
    {
        self.text(words);
        self.digits(20, n);
    }
}

// A line of three numbers, each with words before it.
fn numbers_line(first: &[u8], a: u64, second: &[u8], b: u64, third: &[u8], c: u64) -> Line
    requires { (length first.now ≤ 9) × (length second.now ≤ 9) × (length third.now ≤ 9) }
    ensures { result ≡ first.now ++ decimal a ++ second.now ++ decimal b ++ third.now ++ decimal c ++ newline }
{
    let mut line = Line::new();
    line.number_after(first, a);
    line.number_after(second, b);
    line.number_after(third, c);
    line.push(10);
    line
}

// The line of a verdict.
pub fn line_of(v: Verdict) -> Line
    ensures { result ≡ line_of v }
{
    let refusal = v.refusal;
    if refusal.is_refusal() {
        return numbers_line(
            b"refused ",
            refusal.number,
            b" row ",
            refusal.row,
            b" detail ",
            refusal.detail,
        );
    }
    numbers_line(
        b"accepted ",
        v.platforms,
        b" ",
        v.initializations,
        b" ",
        v.directives,
    )
}
