// Interrogations and replies read alone: their fields and their remainder. No parity is judged.
ghost use Rattle.std.specs.Prelude.{◌≡◌, [], ◌∷◌, Ok};
ghost use Rattle.lists.specs.Answers.{done, refused_by};
ghost use Rattle.lists.specs.Checks.{checked};
ghost use Rattle.parity_rules.specs.Answers.{reckoned_said};
ghost use Rattle.frames_rules.specs.Answers.{up_said, down_said};
ghost use Rattle.frames_rules.specs.Fields.{head_of};
ghost use Rattle.frames_rules.specs.Reading.{read_checks, selective_read, all_call_read, surveillance_read, all_call_reply_read};
ghost use Rattle.frames_rules.specs.Reading.{read_up, read_down};

use crate::formats::listed;
use crate::message::{head_of, mid_of, remainder_of};
use frames_rules::{Down, Up};
use parity::seven_or_fourteen;
use refusals::Refusal;

// Bits 1 to 32 of a message of a listed format and of that format's length.
fn head_checked(msg: &[u8]) -> Result<u32, Refusal>
    ensures { reckoned_said result ≡ checked (read_checks msg.now) refused_by (done (head_of msg.now ∷ [])) }
{
    if !seven_or_fourteen(msg.len()) {
        return Err(Refusal::Length);
    }
    let head = head_of(msg);
    if !listed((head >> 27) % 32, msg.len()) {
        return Err(Refusal::Format);
    }
    Ok(head)
}

// The fields of UF 4, 5, 20 or 21.
fn selective(head: u32, ma: u64, remainder: u32) -> Up
    ensures { up_said (Ok result) ≡ selective_read head ma remainder }
{
    Up::Selective {
        uf: ((head >> 27) % 32) as u8,
        pc: ((head >> 24) % 8) as u8,
        rr: ((head >> 19) % 32) as u8,
        di: ((head >> 16) % 8) as u8,
        sd: (head % 65536) as u16,
        ma,
        remainder,
    }
}

// The fields of UF 11.
fn all_call(head: u32, remainder: u32) -> Up
    ensures { up_said (Ok result) ≡ all_call_read head remainder }
{
    Up::AllCall {
        pr: ((head >> 23) % 16) as u8,
        ic: ((head >> 19) % 16) as u8,
        cl: ((head >> 16) % 8) as u8,
        remainder,
    }
}

// Reads an interrogation.
pub fn read_up(msg: &[u8]) -> Result<Up, Refusal>
    ensures { up_said result ≡ read_up msg.now }
{
    let head = head_checked(msg)?;
    let remainder = remainder_of(msg);
    if (head >> 27) % 32 == 11 {
        return Ok(all_call(head, remainder));
    }
    Ok(selective(head, mid_of(msg), remainder))
}

// The fields of DF 4, 5, 20 or 21.
fn surveillance(head: u32, mb: u64, remainder: u32) -> Down
    ensures { down_said (Ok result) ≡ surveillance_read head mb remainder }
{
    Down::Surveillance {
        df: ((head >> 27) % 32) as u8,
        fs: ((head >> 24) % 8) as u8,
        dr: ((head >> 19) % 32) as u8,
        um: ((head >> 13) % 64) as u8,
        value: (head % 8192) as u16,
        mb,
        remainder,
    }
}

// The fields of DF 11.
fn all_call_reply(head: u32, remainder: u32) -> Down
    ensures { down_said (Ok result) ≡ all_call_reply_read head remainder }
{
    Down::AllCall {
        ca: ((head >> 24) % 8) as u8,
        address: head % 0x100_0000,
        remainder,
    }
}

// Reads a reply.
pub fn read_down(msg: &[u8]) -> Result<Down, Refusal>
    ensures { down_said result ≡ read_down msg.now }
{
    let head = head_checked(msg)?;
    let remainder = remainder_of(msg);
    if (head >> 27) % 32 == 11 {
        return Ok(all_call_reply(head, remainder));
    }
    Ok(surveillance(head, mid_of(msg), remainder))
}
