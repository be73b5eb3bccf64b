// The number of any string of bytes as a path of family 4 or 5, read once from its first step: the path reader calls the arch reader,
// which calls the path reader on the inside. Algorithms 7 and 9, with validity tested while reading.
ghost use Rattle.std.specs.Prelude.{◌≡◌, true, ◌≤◌, length};
ghost use Rattle.arch.specs.Answers.{Numbered};
ghost use Rattle.arch.specs.Reading.{PathGot, ArchGot};

use crate::parts::Parts;
use job::Step;

// What is read: where in s it ends, and its size and number.
#[derive(Drop)]
struct Part {
    next: usize,
    size: usize,
    number: u64,
}

// Reads the longest path that begins at the place `from` of s, of a size up to room; none if no walk to the diagonal, room further,
// goes by s from there.
#[cycle(read_arch_read_path)]
fn read_path(s: &[u8], parts: &Parts, from: usize, room: usize) -> Option<Part>
    requires { (parts.now.d ≡ true) × (room ≤ parts.now.n) × (from ≤ length s.now) }
    ensures { PathGot parts.now.v room s.now from result }
{
    let mut next: usize = from;
    let mut size: usize = 0;
    let mut number: u64 = 0;
    // kept: it goes on by as many places as an arch is long.
    while next < s.len() {
        let b = s[next];
        if b == Step::EAST {
            let p = read_arch(s, parts, next + 1, room - size)?;
            let m = size + p.size;
            number = parts.lower(m, size) + (number + parts.table[size] * p.number);
            size = m + parts.v + 1;
            next = p.next;
        } else {
            if b != Step::DIAGONAL {
                break;
            }
            if size == room {
                return None;
            }
            next += 1;
            size += 1;
        }
    }
    Some(Part { next, size, number })
}

// Reads what follows an `E`, a path and `N`, where the arch spans up to room: the size and the number are the inside's. An empty
// inside is answered without a call.
#[cycle(read_arch_read_path)]
fn read_arch(s: &[u8], parts: &Parts, from: usize, room: usize) -> Option<Part>
    requires { (parts.now.d ≡ true) × (room ≤ parts.now.n) × (from ≤ length s.now) }
    ensures { ArchGot parts.now.v room s.now from result }
{
    if room < parts.v + 1 {
        return None;
    }
    if from < s.len() {
        if s[from] == Step::NORTH {
            return Some(Part {
                next: from + 1,
                size: 0,
                number: 0,
            });
        }
    }
    let p = read_path(s, parts, from, room - parts.v - 1)?;
    let e = p.next;
    if s.len() <= e {
        return None;
    }
    if s[e] != Step::NORTH {
        return None;
    }
    Some(Part { next: e + 1, ..p })
}

// The number of the edge s, or that it is none.
pub(crate) fn number(s: &[u8], parts: &Parts) -> Option<u64>
    requires { parts.now.d ≡ true }
    ensures { Numbered true parts.now.v parts.now.n s.now result }
{
    let p = read_path(s, parts, 0, parts.n)?;
    if p.next != s.len() {
        return None;
    }
    if p.size != parts.n {
        return None;
    }
    Some(p.number)
}
