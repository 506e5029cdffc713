// Packs: items one after the other, each as its length (4 bytes, little-endian) and its bytes. The first item of one; and reading one, or another input.
#![tactic(auto)]

ghost use Rattle.std.specs.Prelude.{◌≡◌, ◌<◌, ◌↔◌, IsSome, IfSome, IfOk, OnErr, length, take};
ghost use Rattle.std.specs.Io.{ReadsAtMost};
ghost use Rattle.std.specs.Io.KnownBytes.{Consumes, IsAtEnd};
ghost use Rattle.packs.specs.Pack.{HoldsItem, first_item, after_item};

use map_bytes::number4;
use std::fs::File;
use std::io::Read;
use std::rt::Files;
use std::{io, str};

// The bytes of a pack's first item, and what follows it; None where the pack does not hold it whole.
pub fn split_item(pack: &[u8]) -> Option<(&[u8], &[u8])>
    ensures held { IsSome result ↔ HoldsItem pack.now }
    ensures item { IfSome result (λ parts. parts.0.now ≡ first_item pack.now) }
    ensures after { IfSome result (λ parts. parts.1.now ≡ after_item pack.now) }
{
    let rest = pack.get(4..)?;
    rest.split_at_checked(number4(pack, 0) as usize)
}

// Reads until `bytes` is full or the input ends, and gives how many bytes stand at its start now. An error is one of reading, and leaves any bytes there.
pub fn read_full<R: Read>(input: &mut R, bytes: &mut [u8]) -> io::Result<usize>
    ensures count { ReadsAtMost result bytes.new }
    ensures bytes { IfOk result (λ n. Consumes (R.remaining input.old) (R.remaining input.new) (take n bytes.new)) }
    ensures ended { IfOk result (λ n. n < length bytes.new → IsAtEnd (R.remaining input.new)) }
    ensures err { OnErr result (length bytes.new ≡ length bytes.old) }
{
    let mut done = 0;
    while done < bytes.len() {
        let n = input.read(&mut bytes[done..])?;
        if n == 0 {
            break;
        }
        done += n;
    }
    Ok(done)
}

// The first bytes of a file, as many as there is room for. An error is one of opening or reading it (`std` opens no file whose name is not text), and leaves any
// bytes there.
pub fn read_file<R: Files>(rt: &R, path: &[u8], bytes: &mut [u8]) -> io::Result<usize>
    ensures ok { ReadsAtMost result bytes.new }
    ensures err { OnErr result (length bytes.new ≡ length bytes.old) }
{
    let path = str::from_utf8(path).map_err(|_| io::ErrorKind::InvalidInput)?;
    read_full(&mut File::open(rt, path)?, bytes)
}
