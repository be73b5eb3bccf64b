// The number of any string of bytes as a Dyck path, read once from its last step: the reader calls itself on the inside and on the
// first part. Algorithm 3, with validity tested while reading.
ghost use Rattle.std.specs.Prelude.{◌≡◌, false, ◌≤◌, ◌<◌, ◌-◌, length, get_or};
ghost use Rattle.arch.specs.Answers.{Numbered};
ghost use Rattle.arch.specs.ReadingBack.{Got};

use crate::parts::Parts;
use job::Step;

// What is read: where it starts, and its size and number.
#[derive(Drop)]
struct Part {
    at: usize,
    size: usize,
    number: u64,
}

// Reads the longest path that ends s, of a size up to room; none if no walk that ends with y up to room goes by s.
#[cycle(closing_read)]
fn read(s: &[u8], parts: &Parts, room: usize) -> Option<Part>
    requires { (parts.now.d ≡ false) × (room ≤ parts.now.n) }
    ensures { Got room s.now result }
{
    let e = s.len();
    if e == 0 {
        return Some(Part {
            at: 0,
            size: 0,
            number: 0,
        });
    }
    let l = e - 1;
    if s[l] != Step::NORTH {
        return Some(Part {
            at: e,
            size: 0,
            number: 0,
        });
    }
    closing(s, parts, room)
}

// The same where s ends with `N`: the inside and the first part are read.
#[cycle(closing_read)]
fn closing(s: &[u8], parts: &Parts, room: usize) -> Option<Part>
    requires { (parts.now.d ≡ false) × (room ≤ parts.now.n) × (0 < length s.now) × (get_or s.now (length s.now - 1) 0 ≡ 78) }
    ensures { Got room s.now result }
{
    let l = s.len() - 1;
    if room == 0 {
        return None;
    }
    let p = read(&s[0..l], parts, room - 1)?;
    if p.at == 0 {
        return None;
    }
    let f = p.at - 1;
    if s[f] != Step::EAST {
        return None;
    }
    let w = read(&s[0..f], parts, room - 1 - p.size)?;
    let i = w.size;
    let m = i + p.size;
    let low = parts.lower(m, i);
    let r = low + (w.number + parts.table[i] * p.number);
    Some(Part {
        at: w.at,
        size: m + 1,
        number: r,
    })
}

// The number of the Dyck path s of n, or that it is none.
pub(crate) fn number(s: &[u8], parts: &Parts) -> Option<u64>
    requires { parts.now.d ≡ false }
    ensures { Numbered false 0 parts.now.n s.now result }
{
    let p = read(s, parts, parts.n)?;
    if p.at != 0 {
        return None;
    }
    if p.size != parts.n {
        return None;
    }
    Some(p.number)
}
