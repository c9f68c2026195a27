// What stands in the body of a record, by its kind: any place of any stream is answered.
ghost use Rattle.std.specs.Prelude.{◌≡◌, ◌+◌, ◌≤◌};
ghost use Rattle.reader_rules.specs.Records.{number_at};
ghost use Rattle.reader_rules.specs.Fields.{eight_at, setup_at, edges_at, address_at, request_at, tag_at, reply_at};

use crate::kinds::message_length;
use crate::reading::{byte_at, number_at, place_after};
use planner_rules::{Request, Setup};
use reader_rules::{Edges, Reply};

// The number of two bytes.
fn short_at(s: &[u8], at: usize, from: usize) -> u16
    requires { from ≤ 32 }
    ensures { result ≡ number_at s.now (at + from) 2 }
{
    number_at(s, at, from, 2) as u16
}

// The number of k bytes, at most four.
fn long_at(s: &[u8], at: usize, from: usize, k: usize) -> u32
    requires { (from ≤ 32) × (k ≤ 4) }
    ensures { result ≡ number_at s.now (at + from) k }
{
    number_at(s, at, from, k) as u32
}

// Eight bytes, one for each unit.
fn eight_at(s: &[u8], at: usize, from: usize) -> [u8; 8]
    requires { from ≤ 32 }
    ensures { result ≡ eight_at s.now (at + from) }
{
    [
        byte_at(s, at, from),
        byte_at(s, at, from + 1),
        byte_at(s, at, from + 2),
        byte_at(s, at, from + 3),
        byte_at(s, at, from + 4),
        byte_at(s, at, from + 5),
        byte_at(s, at, from + 6),
        byte_at(s, at, from + 7),
    ]
}

// Kind 1: a setup.
pub fn setup_at(s: &[u8], at: usize) -> Setup
    ensures { result ≡ setup_at s.now at }
{
    let guarantee = eight_at(s, at, 5);
    let ceiling = eight_at(s, at, 13);
    Setup {
        period: short_at(s, at, 0),
        reach: short_at(s, at, 2),
        limit: byte_at(s, at, 4),
        guarantee: guarantee,
        ceiling: ceiling,
    }
}

// Kinds 2 and 9: a target's address, near and far.
pub fn edges_at(s: &[u8], at: usize) -> Edges
    ensures { result ≡ edges_at s.now at }
{
    Edges {
        address: long_at(s, at, 0, 3),
        near: short_at(s, at, 3),
        far: short_at(s, at, 5),
    }
}

// Kinds 3 and 8: an address.
pub fn address_at(s: &[u8], at: usize) -> u32
    ensures { result ≡ address_at s.now at }
{
    long_at(s, at, 0, 3)
}

// Kind 4: a request.
pub fn request_at(s: &[u8], at: usize) -> Request
    ensures { result ≡ request_at s.now at }
{
    Request {
        unit: byte_at(s, at, 0),
        address: long_at(s, at, 1, 3),
        uf: byte_at(s, at, 4),
        pc: byte_at(s, at, 5),
        rr: byte_at(s, at, 6),
        di: byte_at(s, at, 7),
        sd: short_at(s, at, 8),
        ma: number_at(s, at, 10, 7),
    }
}

// Kind 5: the tag of a plan.
pub fn tag_at(s: &[u8], at: usize) -> u32
    ensures { result ≡ tag_at s.now at }
{
    long_at(s, at, 0, 4)
}

// Kinds 6 and 7: a reply.
pub fn reply_at(s: &[u8], kind: u8, at: usize) -> Reply
    ensures { result ≡ reply_at s.now kind at }
{
    let n = message_length(kind);
    Reply {
        entry: byte_at(s, at, 0),
        tag: long_at(s, at, 1, 4),
        message: place_after(s, at, 5),
        marks: place_after(s, at, 5 + n),
        end: place_after(s, at, 5 + n + n),
    }
}
