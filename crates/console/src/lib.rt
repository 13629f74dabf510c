// What programs print and read, over std's writers and readers: a number in decimal, a whole input, and a large buffer to read it to.
#![tactic(auto)]

ghost use Rattle.std.specs.Prelude.{◌≡◌, ◌<◌, ◌≤◌, OnOk, length, take};
ghost use Rattle.std.specs.Io.KnownBytes.{Consumes, IsAtEnd};
ghost use Rattle.io.specs.Counts.{IsPrefixLen};
ghost use Rattle.console.specs.Digits.{AppendsDecimal, AppendsWord};

use io::decimal;
use std::io::{Read, Write};

// Room for a whole input of the programs, all zeros.
pub fn large_buffer() -> [u8; 65536]
    ensures { 65536 ≡ length result }
{
    [0; 65536]
}

// Writes n in decimal, without a newline.
pub fn print_decimal<W: Write>(to: &mut W, n: u64) -> std::io::Result<()>
    ensures { OnOk result (AppendsDecimal (W.contents to.old) (W.contents to.new) n) }
{
    let mut text = [0u8; 20];
    let k = decimal(n, &mut text);
    to.write_all(&text[..k])
}

// Writes text, and n in decimal behind it.
pub fn print_word<W: Write>(to: &mut W, text: &[u8], n: u64) -> std::io::Result<()>
    ensures { OnOk result (AppendsWord (W.contents to.old) (W.contents to.new) text.now n) }
{
    to.write_all(text)?;
    print_decimal(to, n)
}

// Fills buf from its start, as far as the input goes. Answers how many bytes came, and whether a read failed behind them.
pub fn read_full<R: Read>(from: &mut R, buf: &mut [u8]) -> (usize, std::io::Result<()>)
    ensures in_bounds { IsPrefixLen result.0 buf.new }
    ensures bytes { Consumes (R.remaining from.old) (R.remaining from.new) (take result.0 buf.new) }
    ensures whole { OnOk result.1 (result.0 < length buf.new → IsAtEnd (R.remaining from.new)) }
{
    let mut done = 0;
    while done < buf.len() {
        match from.read(&mut buf[done..]) {
            Ok(0) => break,
            Ok(n) => done += n,
            Err(e) => return (done, Err(e)),
        }
    }
    (done, Ok(()))
}

#[cfg(test)]
mod tests {
    use super::*;
    use std::test::Fail;

    #[test]
    fn prints_the_least_and_the_largest(rt: HostRuntime) -> Result<(), Fail> {
        let mut out = Vec::new(rt.alloc());
        print_decimal(&mut out, 0)?;
        out.write_all(b" ")?;
        print_decimal(&mut out, 18446744073709551615)?;
        assert_eq!(rt; out.as_slice(), b"0 18446744073709551615".as_slice());
        Ok(())
    }

    #[test]
    fn prints_the_text_before_the_number(rt: HostRuntime) -> Result<(), Fail> {
        let mut out = Vec::new(rt.alloc());
        print_word(&mut out, b"n ", 10)?;
        print_word(&mut out, b"", 64)?;
        assert_eq!(rt; out.as_slice(), b"n 1064".as_slice());
        Ok(())
    }

    #[test]
    fn says_that_the_writer_is_full(rt: HostRuntime) {
        let mut room = [0u8; 2];
        let mut out: &mut [u8] = &mut room;
        assert!(rt; print_decimal(&mut out, 123).is_err());
    }

    #[test]
    fn reads_on_after_a_short_read(rt: HostRuntime) -> Result<(), Fail> {
        let mut buf = [0u8; 5];
        let first: &[u8] = b"12";
        let second: &[u8] = b"345";
        let mut from = first.chain(second);
        let (count, ended) = read_full(&mut from, &mut buf);
        ended?;
        assert_eq!(rt; count, 5);
        assert_eq!(rt; buf.as_slice(), b"12345".as_slice());
        Ok(())
    }

    #[test]
    fn stops_at_the_end(rt: HostRuntime) -> Result<(), Fail> {
        let mut buf = large_buffer();
        let mut from: &[u8] = b"12";
        let (count, ended) = read_full(&mut from, &mut buf);
        ended?;
        assert_eq!(rt; count, 2);
        Ok(())
    }

    // Every read fails.
    #[derive(Drop)]
    struct Broken;

    impl Read for Broken {
        fn read(&mut self, _buf: &mut [u8]) -> std::io::Result<usize> {
            Err(std::io::Error::from(std::io::ErrorKind::Other))
        }
    }

    #[test]
    fn keeps_what_was_read_before_a_failure(rt: HostRuntime) {
        let mut buf = [0u8; 5];
        let first: &[u8] = b"12";
        let mut from = first.chain(Broken);
        let (count, ended) = read_full(&mut from, &mut buf);
        assert_eq!(rt; count, 2);
        assert!(rt; ended.is_err());
    }
}
